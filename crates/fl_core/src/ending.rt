//! Requests that wait, and are ended by another order.

ghost use Rattle.std.specs.Prelude.{◌≡◌, ◌≤◌, ◌+◌, ◌++◌, false, not, length};
ghost use Rattle.std.specs.List.{filter};
ghost use Rattle.fl_core.specs.Replies.{ended_all, ending_of, error_of, picks};

use fl_counter::Tolds;
use fl_order::{Answer, Errno, Op, Order, Told};
use fl_waiting::{Claim, Parked};

/// Which requests are ended.
#[derive(Clone, Copy)]
pub(crate) enum Ending {
    /// Those that came through this fh, which is closed.
    Through(u64),
    /// The one of this unique, which is interrupted.
    Named(u64),
}

/// Which requests an order ends that is answered so.
pub(crate) fn ending_of(order: &Order, own: &Option<Result<Answer, Errno>>) -> Option<Ending>
    ensures { result ≡ ending_of order.now.op own.now }
{
    match (&order.op, own) {
        (Op::Release { fh, .. }, Some(Ok(_))) => Some(Ending::Through(*fh)),
        (Op::Interrupt(unique), None) => Some(Ending::Named(*unique)),
        _ => None,
    }
}

/// Takes out these requests, the oldest first, and tells each. Gives whether there was one.
pub(crate) fn end_all(parked: &mut Parked, ending: Ending, tolds: &mut Tolds) -> bool
    requires { length tolds.old.told + length parked.old ≤ tolds.old.room }
    ensures tolds { tolds.new.told ≡ tolds.old.told ++ ended_all (error_of ending) (picks ending) parked.old }
    ensures parked { parked.new ≡ filter (λ r. not (picks ending r)) parked.old }
    ensures few { length tolds.new.told + length parked.new ≤ length tolds.old.told + length parked.old }
    ensures room { tolds.new.room ≡ tolds.old.room }
    ensures any { result ≡ false → parked.new ≡ parked.old }
{
    let mut ended = false;
    while let Some(claim) = parked.take_first(|claim| picks(ending, claim)) {
        tolds.push(Told {
            unique: claim.request.unique,
            result: Err(error_of(ending)),
        });
        ended = true;
    }
    ended
}

fn picks(ending: Ending, claim: &Claim) -> bool
    ensures { result ≡ picks ending claim.now.request }
{
    match ending {
        Ending::Through(fh) => claim.request.ask.fh == fh,
        Ending::Named(unique) => claim.request.unique == unique,
    }
}

fn error_of(ending: Ending) -> Errno
    ensures { result ≡ error_of ending }
{
    match ending {
        Ending::Through(_) => Errno::EBADF,
        Ending::Named(_) => Errno::EINTR,
    }
}
