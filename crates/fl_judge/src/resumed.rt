//! What a server goes on from after the lines of a trace.

ghost use Rattle.std.specs.Prelude.{◌≡◌, ◌≤◌, length};

use fl_core::{Core, Tolds};
use fl_history::{Line, Past};
use fl_order::Told;
use std::marker::Model;

/// The replies that are missing at the end of lines, in the order in which they come. Contracts see their list.
#[derive(Drop)]
pub struct Missing {
    pub(crate) tolds: Tolds,
    // So many are in the lines.
    pub(crate) told: usize,
    ghost few: { length tolds.told ≤ 1025 },
}

impl Model for Missing {
    ghost use Rattle.std.specs.Prelude.{List, drop};
    ghost use Rattle.fl_order.specs.declared.told.Told.{Told};

    ghost Value = { List Told };

    ghost view = { λ m. drop m.told m.tolds.told };
}

impl Missing {
    /// The replies: as many as one order gives, under any rules, at the most.
    pub fn as_slice(&self) -> &[Told]
        ensures is { result.now ≡ self.now }
        ensures few { length result.now ≤ 1025 }
    {
        self.tolds.as_slice().get(self.told..).unwrap_or(&[])
    }
}

/// What a server goes on from after the lines of a trace.
#[derive(Drop)]
pub struct Resumed {
    /// What is there after the lines and the missing replies.
    pub present: Core,
    /// The replies that the last order gives and the lines lack.
    pub missing: Missing,
    /// The lines.
    pub past: Past<Line>,
}
