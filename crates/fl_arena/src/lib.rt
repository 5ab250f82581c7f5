//! Chains of items over a fixed number of slots.
//!
//! An `Arena` is made once, with a number of chains and a number of slots, and takes no memory afterwards. Each slot
//! is free or holds one item of one chain.
//!
//! No slot is linked twice: `keeps_links` promises it of each arena, and so do `free` and each call that changes one
//! (clause `linked`). A slot is free if it is on no chain, so none is free while it is linked. `insert` takes a slot
//! that is on no chain, and `place` tells where each slot is.
//!
//! Which free slot `insert` takes is left open. After `new` no call can be refused for memory. That none takes any is
//! no clause: the prover refuses an `insert` that makes room in its vector at a step of the proof (edit
//! `insert_makes_room_in_its_vector`). `fl_ranges_tests` makes each call, and fills all slots twice.
#![tactic(auto)]

mod chains;
mod cursors;
mod nodes;

pub use chains::Arena;
pub use cursors::{Cursor, Full, Place};
