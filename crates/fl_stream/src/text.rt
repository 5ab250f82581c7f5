//! The text of a whole history in memory, both ways.

ghost use Rattle.std.specs.Prelude.{◌≡◌, ◌⊎◌, ◌↔◌, ℕ, List, Ok, Err, IsTrue, IfOk, string_bytes};
ghost use Rattle.fl_history.specs.declared.history.Line.{Line};
ghost use Rattle.fl_order.specs.Sayable.{FitsBody, FitsState, FitsTold, IsSayable};
ghost use Rattle.fl_trace.specs.Text.{text_of, LineFits, Fits, BreaksAt};

use fl_history::{History, Line};
use fl_order::{Body, NoMemory, Order, StateLine, Told};
use fl_trace::laws::{a_text_breaks_at_one_line_at_most, no_text_is_that_of_two_histories};
use fl_trace::{LINE_ROOM, first_line, push_line};
use std::alloc::Global;

/// Why a text is not read.
#[derive(Clone, Copy, Debug, PartialEq, Eq)]
pub enum TraceFault {
    /// This line, from 1, is the first that is no spelling of a line.
    BadLine(usize),
    /// Out of memory.
    NoMemory,
}

impl From<NoMemory> for TraceFault {
    ghost use Rattle.fl_stream.specs.declared.text.TraceFault.TheVariants.{NoMemory};

    ghost from_gives = { λ _ fault. fault ≡ NoMemory };

    fn from(_e: NoMemory) -> TraceFault {
        TraceFault::NoMemory
    }
}

/// The history of a text, as `docs/TRACE.md` says. A bad line is reported only if memory for the lines before
/// it was there.
pub fn read_trace(alloc: Global, text: &[u8]) -> Result<History, TraceFault>
    ensures read { IfOk result (λ history. Fits history × (text.now ≡ text_of history)) }
    ensures only { (lines : List Line) → Fits lines → text.now ≡ text_of lines →
        (result ≡ Ok lines) ⊎ (result ≡ Err TraceFault.NoMemory) }
    ensures bad { (n : ℕ) → result ≡ Err (TraceFault.BadLine n) → BreaksAt LineFits text.now n }
{
    no_text_is_that_of_two_histories();
    a_text_breaks_at_one_line_at_most();
    let mut history = History::new(alloc);
    let mut rest = text;
    while !rest.is_empty() {
        let Some((line, after)) = first_line(rest) else {
            return Err(TraceFault::BadLine(history.len() + 1));
        };
        history.push(&line)?;
        rest = after;
    }
    Ok(history)
}

/// The text of a history, as `docs/TRACE.md` says: a line of text for each of its lines. `NoMemory`
/// comes only if a growth of the text was refused.
pub fn print_trace(alloc: Global, history: &History) -> Result<String, NoMemory>
    ensures { IfOk result (λ text. string_bytes text ≡ text_of history.now) }
{
    let mut text = Vec::new(alloc);
    for at in 0..history.len() {
        text.reserve(LINE_ROOM)?;
        push_line(&mut text, &history.line(at));
    }
    let Ok(text) = String::from_utf8(text) else {
        unreachable!()
    };
    Ok(text)
}

/// Whether the text of a history can be read back: its workers are at most 15, and the modes of its
/// CREATEs at most octal 777.
pub fn has_text(history: &History) -> bool
    ensures { IsTrue result ↔ Fits history.now }
{
    for at in 0..history.len() {
        if !fits(&history.line(at)) {
            return false;
        }
    }
    true
}

fn fits(line: &Line) -> bool
    ensures { IsTrue result ↔ LineFits line.now }
{
    match line {
        Line::Asked { worker, order } => *worker <= 15 && order_fits(*order),
        Line::Told(told) => told_fits(*told),
        Line::State(state) => state_fits(*state),
    }
}

fn told_fits(told: Told) -> bool
    ensures { IsTrue result ↔ FitsTold told }
{
    let _ = told;
    true
}

fn state_fits(state: StateLine) -> bool
    ensures { IsTrue result ↔ FitsState state }
{
    let _ = state;
    true
}

// Whether what is asked can be said. Every number of a program fits its field; only a CREATE's mode can be too great.
fn order_fits(order: Order) -> bool
    ensures { IsTrue result ↔ IsSayable order }
{
    body_fits(order.op.parts().1)
}

fn body_fits(body: Body) -> bool
    ensures { IsTrue result ↔ FitsBody body }
{
    match body {
        Body::Create { mode, .. } => mode <= 0o777,
        _ => true,
    }
}
