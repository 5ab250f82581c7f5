//! Where an item stands, and what an arena answers.

/// A place in a chain: at an item, or past the last one.
///
/// A cursor is a plain value. One that other changes left behind may name a slot that has moved on:
/// `Arena::place` of its slot tells whether it is still at `chain` and `index`.
#[derive(Clone, Copy, Debug, PartialEq, Eq)]
pub struct Cursor {
    /// The chain, counted from 0.
    pub chain: usize,
    /// How many items of the chain come before.
    pub index: usize,
    /// The slot of the item at the cursor, or none past the last item.
    pub slot: Option<u16>,
}

/// Where a slot is.
#[derive(Clone, Copy, Debug, PartialEq, Eq)]
pub enum Place {
    /// It holds no item.
    Free,
    /// It holds the item of this chain at this index, both counted from 0.
    On(usize, usize),
}

/// Every slot holds an item.
#[derive(Clone, Copy, Debug, PartialEq, Eq)]
pub struct Full;
