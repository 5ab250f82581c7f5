//! A law of words. It is the contract of an empty function.

ghost use Rattle.fl_words.specs.ReadBack.{AreReadBack};

/// Words of visible characters are told apart by the spaces between them. Such are the words of numbers and names, and
/// these lead back to them.
pub fn words_are_read_back()
    ensures { AreReadBack }
{}
