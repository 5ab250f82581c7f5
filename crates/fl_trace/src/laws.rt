//! Laws of the text, in the words of its subject. Each is the contract of a function that does nothing.

ghost use Rattle.std.specs.Prelude.{◌≡◌, ℕ, ◌<◌, List, length};
ghost use Rattle.std.specs.Str.Iter.{LacksByte};
ghost use Rattle.fl_history.specs.declared.history.Line.{Line};
ghost use Rattle.fl_trace.specs.Text.{text_of, line_text, LineFits, Fits, BreaksAt};

use fl_words::laws::words_are_read_back;

/// Two histories that can be read back never have one text.
pub fn no_text_is_that_of_two_histories()
    ensures { (lines others : List Line) → Fits lines → Fits others →
        text_of lines ≡ text_of others → lines ≡ others }
{
    words_are_read_back();
}

/// A text breaks at one line at most, and none that is the text of a history that can be read back breaks at all.
pub fn a_text_breaks_at_one_line_at_most()
    ensures once { (text : List ℕ) (m n : ℕ) → BreaksAt LineFits text m → BreaksAt LineFits text n → m ≡ n }
    ensures never { (lines : List Line) (n : ℕ) → Fits lines → BreaksAt LineFits (text_of lines) n → ⊥ }
{
    words_are_read_back();
}

/// The text of a line that can be read back has no newline, and with the newline behind it `LINE_ROOM` bytes at most.
pub fn a_line_is_short()
    ensures short { (line : Line) → LineFits line → length (line_text line) < 700 }
    ensures lacks { (line : Line) → LineFits line → LacksByte 10 (line_text line) }
{
    words_are_read_back();
}
