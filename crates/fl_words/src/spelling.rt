//! Words, put behind bytes that have room for them. Nothing here asks for memory, and nothing fails.

ghost use Rattle.std.specs.Prelude.{◌≡◌, ◌+◌, ◌*◌, ◌≤◌, ◌<◌, ◌++◌, ◌∷◌, length, map, vec_capacity};
ghost use Rattle.std.specs.Fmt.{decimal};
ghost use Rattle.std.specs.Str.{IsUtf8};
ghost use Rattle.fl_words.specs.Words.{spaced, flag_text, name_text};

use fl_order::Name;

/// A word, a space or a newline, behind what is there.
pub fn push(text: &mut Vec<u8>, word: &str)
    requires room { length text.old.items + length word.now ≤ vec_capacity text.old }
    ensures bytes { text.new.items ≡ text.old.items ++ word.now }
    ensures few { length text.new.items ≤ length text.old.items + length word.now }
    ensures capacity { vec_capacity text.old ≤ vec_capacity text.new }
    ensures utf8 { IsUtf8 text.old.items → IsUtf8 text.new.items }
{
    let _ = text.extend_from_slice(word.as_bytes());
}

/// A space and a number.
pub fn push_number(text: &mut Vec<u8>, number: u64)
    requires room { length text.old.items + 21 ≤ vec_capacity text.old }
    ensures bytes { text.new.items ≡ text.old.items ++ 32 ∷ decimal number }
    ensures few { length text.new.items ≤ length text.old.items + 21 }
    ensures capacity { vec_capacity text.old ≤ vec_capacity text.new }
    ensures utf8 { IsUtf8 text.old.items → IsUtf8 text.new.items }
{
    push(text, " ");
    push_digits(text, number);
}

// The digits of a number, the first one first.
#[tactic(auto, using(crate::proofs::Digits::last_digit, crate::proofs::Digits::one_fewer, crate::proofs::Digits::one_digit))]
fn push_digits(text: &mut Vec<u8>, number: u64)
    requires room { length text.old.items + length (decimal number) ≤ vec_capacity text.old }
    ensures bytes { text.new.items ≡ text.old.items ++ decimal number }
    ensures capacity { vec_capacity text.old ≤ vec_capacity text.new }
{
    if number < 10 {
        text.push_reserved(b'0' + (number % 10) as u8);
        return;
    }
    push_digits(text, number / 10);
    text.push_reserved(b'0' + (number % 10) as u8);
}

/// Numbers, with a space in front of each.
pub fn push_numbers(text: &mut Vec<u8>, numbers: &[u64])
    requires some { 0 < length numbers.now }
    requires room { length text.old.items + 21 * length numbers.now ≤ vec_capacity text.old }
    ensures bytes { text.new.items ≡ text.old.items ++ 32 ∷ spaced (map decimal numbers.now) }
    ensures few { length text.new.items ≤ length text.old.items + 21 * length numbers.now }
    ensures capacity { vec_capacity text.old ≤ vec_capacity text.new }
    ensures utf8 { IsUtf8 text.old.items → IsUtf8 text.new.items }
{
    for number in numbers {
        push_number(text, *number);
    }
}

/// A space, and a yes or no.
pub fn push_flag(text: &mut Vec<u8>, flag: bool)
    requires room { length text.old.items + 2 ≤ vec_capacity text.old }
    ensures bytes { text.new.items ≡ text.old.items ++ 32 ∷ flag_text flag }
    ensures few { length text.new.items ≤ length text.old.items + 2 }
    ensures capacity { vec_capacity text.old ≤ vec_capacity text.new }
    ensures utf8 { IsUtf8 text.old.items → IsUtf8 text.new.items }
{
    if flag {
        push(text, " 1");
    } else {
        push(text, " 0");
    }
}

/// A space and a name.
pub fn push_name(text: &mut Vec<u8>, name: &Name)
    requires room { length text.old.items + 511 ≤ vec_capacity text.old }
    ensures bytes { text.new.items ≡ text.old.items ++ 32 ∷ name_text name.now }
    ensures few { length text.new.items ≤ length text.old.items + 511 }
    ensures capacity { vec_capacity text.old ≤ vec_capacity text.new }
    ensures utf8 { IsUtf8 text.old.items → IsUtf8 text.new.items }
{
    let bytes = name.as_bytes();
    if bytes.is_empty() {
        push(text, " -");
        return;
    }
    let mut digits = [0; 510];
    let digits = &mut digits[..2 * bytes.len()];
    let _ = hex::encode_to_slice(bytes, digits);
    push(text, " ");
    let _ = text.extend_from_slice(digits);
}
