//! A history, as its users see it: its lines by place.

ghost use Rattle.std.specs.Prelude.{◌≡◌, ◌<◌, ◌^◌, ◌↔◌, ◌++◌, ◌∷◌, [], Some, IsTrue, OnOk, OnErr, length};
ghost use Rattle.std.specs.List.{slice_get};

use crate::lines::Lines;
use fl_order::{NoMemory, Order, StateLine, Told};
use std::alloc::Global;
use std::marker::Model;

/// One line of a history: an order that a worker handed in, or a reply.
#[derive(Clone, Copy, Debug, PartialEq, Eq)]
pub enum Line {
    /// What a worker handed in.
    Asked {
        /// The worker's number, from 0.
        worker: u32,
        /// What it asks.
        order: Order,
    },
    /// What an order was answered.
    Told(Told),
    /// A line of a head, which tells the state that the history goes on from.
    State(StateLine),
}

/// Lines in the order of time. Contracts see it as their list.
#[derive(Debug, Drop)]
pub struct History {
    lines: Lines,
}

impl Model for History {
    ghost use Rattle.std.specs.Prelude.{List};
    ghost use Rattle.fl_history.specs.declared.history.Line.{Line};

    ghost Value = { List Line };

    ghost view = { λ h. h.lines.items };
}

impl History {
    /// The history of no lines.
    pub fn new(alloc: Global) -> History
        ensures { result ≡ [] }
    {
        History {
            lines: Lines::new(alloc),
        }
    }

    /// The history of these lines.
    pub fn of(lines: Lines) -> History
        ensures { result ≡ lines.items }
    {
        History { lines }
    }

    /// One line more, after the others. A refusal changes nothing.
    pub fn push(&mut self, line: &Line) -> Result<(), NoMemory>
        ensures pushed { OnOk result (self.new ≡ self.old ++ line.now ∷ []) }
        ensures refused { OnErr result (self.new ≡ self.old) }
    {
        self.lines.reserve(1)?;
        match line {
            Line::Asked { worker, order } => self.lines.push_asked(*worker, order),
            Line::Told(told) => self.lines.push_told(told),
            Line::State(state) => self.lines.push_state(state)?,
        }
        Ok(())
    }

    /// How many lines it has.
    pub fn len(&self) -> usize
        ensures len { result ≡ length self.now }
        ensures few { result < 2 ^ 63 }
    {
        self.lines.len()
    }

    /// Whether it has no line.
    pub fn is_empty(&self) -> bool
        ensures { IsTrue result ↔ (self.now ≡ []) }
    {
        self.len() == 0
    }

    /// The line at this place, from 0.
    pub fn line(&self, at: usize) -> Line
        requires { at < length self.now }
        ensures { slice_get self.now at ≡ Some result }
    {
        self.lines.get(at)
    }
}
