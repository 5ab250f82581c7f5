//! Who asks while it waits.

ghost use Rattle.std.specs.Prelude.{◌≡◌};
ghost use Rattle.fl_core.specs.Stages.{asks_record_lock, asked_by};
ghost use Rattle.fl_judge.specs.Quiet.{asks_while_waiting};
ghost use Rattle.fl_waiting.specs.Waiting.{is_waiting};

use fl_core::Core;
use fl_order::{LockAsk, Op, Order};

/// Whether an order asks by SETLK or SETLKW for a record lock of type read or write, while a record request of the
/// same owner is parked in the directory.
pub fn asks_while_waiting(core: &Core, order: &Order) -> bool
    ensures { result ≡ asks_while_waiting (asked_by order.now.op) core.now.view.parked }
{
    match order.op {
        Op::Setlk(ask) | Op::Setlkw(ask) => asks_record_lock(&ask) && core.is_waiting(ask.owner),
        _ => false,
    }
}

// Whether a record lock is asked for, of type read or write.
fn asks_record_lock(ask: &LockAsk) -> bool
    ensures { result ≡ asks_record_lock ask.now }
{
    ask.flags & 1 != 1 && ask.kind < 2
}
