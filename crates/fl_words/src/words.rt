//! The words of a line, read: each reader takes the one spelling that a word has.

ghost use Rattle.std.specs.Prelude.{◌≡◌, ◌==◌, ◌↔◌, ℕ, ◌^◌, ◌<◌, Bool, List, Option, length, ◌++◌, ◌∷◌};
ghost use Rattle.std.specs.Prelude.{IfSome, IsSome, IsSomeAnd, IsTrue};
ghost use Rattle.std.specs.Fmt.{decimal};
ghost use Rattle.std.specs.Option.{option_copied};
ghost use Rattle.std.specs.Str.Iter.{LacksByte};
ghost use Rattle.hex.specs.Hex.{encode_lower};
ghost use Rattle.fl_order.specs.Name.{IsName};
ghost use Rattle.fl_words.specs.Words.{IsPlain, flag_text, name_text, behind};

use fl_order::Name;

/// A number's word.
pub fn number(word: &str) -> Option<u64>
    ensures spelled { IfSome result (λ n. (n < 2 ^ 64) × (word.now ≡ decimal n)) }
    ensures only { (n : ℕ) → n < 2 ^ 64 → word.now ≡ decimal n → result ≡ Some n }
{
    if !is_plain(word) {
        return None;
    }
    word.parse().ok()
}

// Whether a word has no plus and no zero in front of its digits.
fn is_plain(word: &str) -> bool
    ensures { IsTrue result ↔ IsPlain word.now }
{
    !word.starts_with('+') && (word.len() <= 1 || !word.starts_with('0'))
}

/// The first word of a text, and the text after the space behind it.
pub fn split_word(text: &str) -> Option<(&str, &str)>
    ensures parts { IfSome result (λ parts. text.now ≡ parts.0.now ++ 32 ∷ parts.1.now) }
    ensures only { (word rest : List ℕ) → LacksByte 32 word → text.now ≡ word ++ 32 ∷ rest →
        IsSomeAnd result (λ parts. (parts.0.now ≡ word) × (parts.1.now ≡ rest)) }
{
    text.split_once(' ')
}

/// The first word of a text, and if a space ends it the text after the space.
pub fn first_word(text: &str) -> (&str, Option<&str>)
    ensures parts { text.now ≡ result.0.now ++ behind (option_copied result.1) }
    ensures only { (word : List ℕ) (fields : Option (List ℕ)) → LacksByte 32 word → text.now ≡ word ++ behind fields →
        (result.0.now ≡ word) × (option_copied result.1 ≡ fields) }
{
    match split_word(text) {
        Some((word, rest)) => (word, Some(rest)),
        None => (text, None),
    }
}

/// A number's word, and the text after the space behind it.
pub fn u64_word(text: &str) -> Option<(u64, &str)>
    ensures spelled { IfSome result (λ read. (read.0 < 2 ^ 64) × (text.now ≡ decimal read.0 ++ 32 ∷ read.1.now)) }
    ensures only { (n : ℕ) (rest : List ℕ) → n < 2 ^ 64 → text.now ≡ decimal n ++ 32 ∷ rest →
        IsSomeAnd result (λ read. (read.0 ≡ n) × (read.1.now ≡ rest)) }
{
    let (word, rest) = split_word(text)?;
    Some((number(word)?, rest))
}

/// The same of a smaller number.
pub fn u32_word(text: &str) -> Option<(u32, &str)>
    ensures spelled { IfSome result (λ read. (read.0 < 2 ^ 32) × (text.now ≡ decimal read.0 ++ 32 ∷ read.1.now)) }
    ensures only { (n : ℕ) (rest : List ℕ) → n < 2 ^ 32 → text.now ≡ decimal n ++ 32 ∷ rest →
        IsSomeAnd result (λ read. (read.0 ≡ n) × (read.1.now ≡ rest)) }
{
    let (number, rest) = u64_word(text)?;
    Some((u32::try_from(number).ok()?, rest))
}

/// A smaller number's word.
pub fn u32_number(word: &str) -> Option<u32>
    ensures spelled { IfSome result (λ n. (n < 2 ^ 32) × (word.now ≡ decimal n)) }
    ensures only { (n : ℕ) → n < 2 ^ 32 → word.now ≡ decimal n → result ≡ Some n }
{
    u32::try_from(number(word)?).ok()
}

/// A 0 or a 1.
pub fn flag(word: &str) -> Option<bool>
    ensures spelled { IfSome result (λ flag. word.now ≡ flag_text flag) }
    ensures only { (flag : Bool) → word.now ≡ flag_text flag → result ≡ Some flag }
{
    match word {
        "0" => Some(false),
        "1" => Some(true),
        _ => None,
    }
}

/// A 0 or a 1, and the text after the space behind it.
pub fn flag_word(text: &str) -> Option<(bool, &str)>
    ensures spelled { IfSome result (λ read. text.now ≡ flag_text read.0 ++ 32 ∷ read.1.now) }
    ensures only { (flag : Bool) (rest : List ℕ) → text.now ≡ flag_text flag ++ 32 ∷ rest →
        IsSomeAnd result (λ read. (read.0 ≡ flag) × (read.1.now ≡ rest)) }
{
    let (word, rest) = split_word(text)?;
    Some((flag(word)?, rest))
}

/// A name's word: lower case hex, or a dash for the empty name.
pub fn name(word: &str) -> Option<Name>
    ensures spelled { IfSome result (λ name. IsName name × (word.now ≡ name_text name)) }
    ensures only { (name : List ℕ) → IsName name → word.now ≡ name_text name → result ≡ Some name }
{
    if word == "-" {
        return Name::new(b"");
    }
    let name = decoded(word)?;
    if is_spelled(&name, word) {
        Some(name)
    } else {
        None
    }
}

// The name that hex digits of either case stand for.
fn decoded(word: &str) -> Option<Name>
    ensures { (name : List ℕ) → IsName name → word.now ≡ encode_lower name → result ≡ Some name }
{
    let len = word.len() / 2;
    if len > 255 {
        return None;
    }
    let mut bytes = [0; 255];
    decoded_into(&mut bytes[..len], word)
}

// The same, by way of room for just its bytes.
fn decoded_into(room: &mut [u8], word: &str) -> Option<Name>
    ensures { (name : List ℕ) → IsName name → length room.old ≡ length name →
        word.now ≡ encode_lower name → result ≡ Some name }
{
    hex::decode_to_slice(word, room).ok()?;
    Name::new(room)
}

// Whether the word is the one spelling of the name.
fn is_spelled(name: &Name, word: &str) -> bool
    ensures name { IsName name.now }
    ensures spelled { IsTrue result ↔ (word.now ≡ name_text name.now) }
{
    let bytes = name.as_bytes();
    if bytes.is_empty() {
        return word == "-";
    }
    let mut digits = [0; 510];
    let digits = &mut digits[..2 * bytes.len()];
    hex::encode_to_slice(bytes, digits).is_ok() && *digits == *word.as_bytes()
}
