//! The seats of a record, one for each worker.

ghost use Rattle.std.specs.Prelude.{◌≡◌, ◌≢◌, ◌↔◌, ◌≤◌, ◌<◌, [], true, false, All, IfOk, length, map, sum_by};
ghost use Rattle.std.specs.List.{range_with_len};
ghost use Rattle.fl_record.specs.Seats.{AreApart};

use crate::seat::Seat;
use fl_core::Core;
use fl_log::{Ask, Beginning};
use fl_replica::{BoardName, ReplicaWriter};
use std::alloc::Global;
use std::sync::Wait;
use std::sync::ledger::Share;

/// Why a record's seats, or a board with them, couldn't be made.
#[derive(Clone, Copy, Debug, PartialEq, Eq)]
pub enum OpenFault {
    /// Out of memory.
    NoMemory,
    /// A worker got no reader of what is published.
    NoReader,
}

// A seat for each worker, with a part of the ledger.
pub(crate) fn seats_of<L: BoardName, R: Wait + Drop + Copy>(
    alloc: Global,
    writer: &ReplicaWriter<L, Core, R>,
    none: &Beginning<L, Ask>,
    parts: Share<L>,
    workers: u32,
) -> Result<Vec<Seat<L>>, OpenFault>
    requires none { none.now ≡ [] }
    requires parts { (parts.parts ≡ workers) × (parts.amount ≡ 0) }
    ensures workers { IfOk result (λ seats. map (λ seat. seat.worker) seats.items ≡ range_with_len 0 workers) }
    ensures fresh { IfOk result (λ seats.
        All (λ seat. (seat.count ≡ 0) × (seat.handed ≡ []) × (seat.seen ≡ []) × (seat.stored ≡ [])) seats.items) }
{
    let mut rest = parts;
    let Ok(mut seats) = Vec::with_capacity(alloc, workers as usize) else {
        return Err(OpenFault::NoMemory);
    };
    for worker in 0..workers {
        let Ok(reader) = writer.reader() else {
            return Err(OpenFault::NoReader);
        };
        let share = rest.split_off(1, 0);
        seats.push_reserved(Seat {
            worker,
            share,
            reader,
            handed: none.again(),
            seen: none.again(),
            stored: none.again(),
        });
    }
    Ok(seats)
}

// The shares of all seats as one.
pub(crate) fn merged<L: BoardName>(seats: Vec<Seat<L>>) -> Share<L>
    requires parts { 0 < L.parts }
    requires some { 0 < length seats.items }
    ensures parts { (result.parts ≡ length seats.items) × (result.parts ≤ L.parts) }
    ensures amount { result.amount ≡ sum_by (λ seat. seat.count) seats.items }
{
    let mut seats = seats;
    let Some(last) = seats.pop() else {
        unreachable!();
    };
    let mut all = last.into_share();
    while let Some(seat) = seats.pop() {
        let share = seat.into_share();
        all.merge(share);
    }
    all
}

/// Whether no two seats are of one worker.
pub fn are_apart<L: BoardName>(seats: &[Seat<L>]) -> bool
    ensures { (result ≡ true) ↔ AreApart seats.now }
{
    for i in 0..seats.len() {
        let seat = &seats[i];
        if has_worker(&seats[..i], seat.worker) {
            return false;
        }
    }
    true
}

// Whether one of the seats is this worker's.
fn has_worker<L: BoardName>(seats: &[Seat<L>], worker: u32) -> bool
    ensures { (result ≡ false) ↔ All (λ seat. seat.worker ≢ worker) seats.now }
{
    for seat in seats {
        if seat.worker == worker {
            return true;
        }
    }
    false
}
