//! Messages that are sent again, and the same without their mark.

ghost use Rattle.std.specs.Prelude.{◌≡◌};
ghost use Rattle.fl_session.specs.Again.{order_under, response_under, unmarked};

use fl_order::{Order, Told};
use fl_transport::Response;

// This bit of a unique marks a message that is sent again (`FUSE_UNIQUE_RESEND` of `fuse.h`).
const MARK: u64 = 1 << 63;

/// A unique without its mark, if it is that of a message that is sent again, and these are known.
pub(crate) fn unmarked(resends: bool, unique: u64) -> Option<u64>
    ensures { result ≡ unmarked resends unique }
{
    if resends && unique >= MARK {
        Some(unique - MARK)
    } else {
        None
    }
}

/// An order under this unique.
pub(crate) fn order_under(unique: u64, order: &Order) -> Order
    ensures { result ≡ order_under unique order.now }
{
    Order { unique, ..*order }
}

/// An answer of the session itself under this unique.
pub(crate) fn response_under(unique: u64, response: &Response<'static>) -> Response<'static>
    ensures { result ≡ response_under unique response.now }
{
    match *response {
        Response::Nothing => Response::Nothing,
        Response::Init(_, step) => Response::Init(unique, step),
        Response::One(told) => Response::One(Told { unique, ..told }),
        Response::Replies(tolds) => Response::Replies(tolds),
        Response::Whole(_, ask) => Response::Whole(unique, ask),
    }
}
