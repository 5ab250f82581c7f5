//! Lines, read from their text.

ghost use Rattle.std.specs.Prelude.{◌≡◌, ◌==◌, ℕ, ◌++◌, ◌∷◌, List, IfSome, IsSome, IsSomeAnd, codes};
ghost use Rattle.std.specs.List.{position};
ghost use Rattle.std.specs.Str.Iter.{LacksByte};
ghost use Rattle.fl_history.specs.declared.history.Line.{Line};
ghost use Rattle.fl_history.specs.declared.history.Line.TheVariants.{Asked};
ghost use Rattle.fl_order.specs.declared.order.Order.{Order};
ghost use Rattle.fl_trace.specs.Text.{asked_text, line_text, LineFits};

use crate::ask::asked_order;
use crate::tell::read_told;
use fl_history::Line;
use fl_words::laws::words_are_read_back;
use fl_words::{first_word, read_state, u32_word};

/// The first line of a text, and the text after its newline; none if no line that can be read back begins
/// the text.
pub fn first_line(text: &[u8]) -> Option<(Line, &[u8])>
    ensures fits { IfSome result (λ read. LineFits read.0) }
    ensures spelled { IfSome result (λ read. text.now ≡ line_text read.0 ++ 10 ∷ read.1.now) }
    ensures only { (line : Line) (after : List ℕ) → LineFits line → text.now ≡ line_text line ++ 10 ∷ after →
        IsSomeAnd result (λ read. (read.0 ≡ line) × (read.1.now ≡ after)) }
{
    words_are_read_back();
    let (line, rest) = split_line(text)?;
    let line = read_line(str::from_utf8(line).ok()?)?;
    Some((line, rest))
}

// The bytes before the first newline of a text, and those after it.
fn split_line(text: &[u8]) -> Option<(&[u8], &[u8])>
    ensures parts { IfSome result (λ parts. text.now ≡ parts.0.now ++ 10 ∷ parts.1.now) }
    ensures only { (line rest : List ℕ) → LacksByte 10 line → text.now ≡ line ++ 10 ∷ rest →
        IsSomeAnd result (λ parts. (parts.0.now ≡ line) × (parts.1.now ≡ rest)) }
{
    let end = newline(text)?;
    Some((&text[..end], &text[end + 1..]))
}

// Where the first newline stands.
fn newline(text: &[u8]) -> Option<usize>
    ensures { result ≡ position (λ b. b == 10) text.now }
{
    text.iter().position(|byte| *byte == b'\n')
}

fn read_line(text: &str) -> Option<Line>
    ensures fits { IfSome result LineFits }
    ensures spelled { IfSome result (λ line. text.now ≡ line_text line) }
    ensures only { (line : Line) → LineFits line → text.now ≡ line_text line → IsSome result }
{
    let (word, rest) = first_word(text);
    match word {
        "ask" => read_asked(rest?),
        "tell" => Some(Line::Told(read_told(rest?)?)),
        _ => Some(Line::State(read_state(text)?)),
    }
}

fn read_asked(text: &str) -> Option<Line>
    ensures fits { IfSome result LineFits }
    ensures spelled { IfSome result (λ line. line_text line ≡ codes "ask " ++ text.now) }
    ensures only { (worker : ℕ) (order : Order) → LineFits (Asked worker order) →
        text.now ≡ asked_text worker order → IsSome result }
{
    let (worker, rest) = u32_word(text)?;
    if worker > 15 {
        return None;
    }
    let order = asked_order(rest)?;
    Some(Line::Asked { worker, order })
}
