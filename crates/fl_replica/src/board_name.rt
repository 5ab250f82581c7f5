//! The name of a board.

ghost use Rattle.std.specs.Prelude.{ℕ};
ghost use Rattle.fl_waiting.specs.declared.rules.Rules.{Rules};
ghost use Rattle.fl_waiting.specs.Waiting.{standard};

use fl_log::LogName;
use std::marker::Brand;

/// The name of one board in contracts: a ledger with a part for each of its workers, the log of its orders, and by
/// which rules requests wait there.
pub trait BoardName: LogName {
    ghost workers: { ℕ };

    ghost rules: { Rules };
}

impl BoardName for Brand {
    ghost workers = { 0 };

    ghost rules = { standard };
}
