//! Rows of runs by key: each public call, and where the slots are.
ghost use Rattle.std.specs.Prelude.{◌≡◌, ◌<◌};
ghost use Rattle.fl_spans.specs.Rows.{chain_count, limit_of, HasRoomOf};

use super::same;
use fl_spans::{Full, Pieces, Place, Rows};
use std::process::Abort;

// Puts a row with one run before all others of a chain.
fn open(rows: &mut Rows<u8, u32>, chain: usize, key: u8, run: u32) -> Result<(), Full>
    requires { chain < chain_count rows.old }
    ensures { HasRoomOf rows.old rows.new }
{
    let mut row = rows.first_row(chain);
    rows.insert_row(&mut row, key, run)
}

// Puts a run before those of a chain's first row.
fn add(rows: &mut Rows<u8, u32>, chain: usize, run: u32) -> Result<(), Full>
    requires { chain < chain_count rows.old }
    ensures { HasRoomOf rows.old rows.new }
{
    let mut row = rows.first_row(chain);
    if row.slot.is_none() || rows.free() == 0 {
        return Err(Full);
    }
    let at = rows.first_run(&row);
    let pieces = Pieces {
        before: None,
        new: Some(run),
        after: None,
    };
    rows.splice(&mut row, at, 0, pieces);
    Ok(())
}

// Gives a chain's first row another key, if there is one.
fn rename(rows: &mut Rows<u8, u32>, chain: usize, key: u8)
    requires { chain < chain_count rows.old }
    ensures { HasRoomOf rows.old rows.new }
{
    let row = rows.first_row(chain);
    if row.slot.is_some() {
        rows.set_key(&row, key);
    }
}

// Takes out the first row of a chain, if there is one.
fn close(rows: &mut Rows<u8, u32>, chain: usize)
    requires { chain < chain_count rows.old }
    ensures { HasRoomOf rows.old rows.new }
{
    let mut row = rows.first_row(chain);
    if row.slot.is_some() {
        rows.remove_row(&mut row);
    }
}

// The key of a chain's first row, and its first run.
fn first(rows: &Rows<u8, u32>, chain: usize) -> Option<(u8, u32)>
    requires { chain < chain_count rows.now }
{
    let row = rows.first_row(chain);
    let key = *rows.key(&row)?;
    let run = rows.first_run(&row);
    Some((key, *rows.run(&run)?))
}

// Its second run and its last one.
fn others(rows: &Rows<u8, u32>, chain: usize) -> Option<(u32, u32)>
    requires { chain < chain_count rows.now }
{
    let row = rows.first_row(chain);
    rows.key(&row)?;
    let last = rows.last_run(&row);
    let mut run = rows.first_run(&row);
    rows.run(&run)?;
    rows.next_run(&mut run);
    Some((*rows.run(&run)?, *rows.run(&last)?))
}

// The key of a chain's second row.
fn next(rows: &Rows<u8, u32>, chain: usize) -> Option<u8>
    requires { chain < chain_count rows.now }
{
    let mut row = rows.first_row(chain);
    rows.key(&row)?;
    rows.next_row(&mut row);
    rows.key(&row).copied()
}

// The key of a chain's last row.
fn last(rows: &Rows<u8, u32>, chain: usize) -> Option<u8>
    requires { chain < chain_count rows.now }
{
    let row = rows.last_row(chain);
    rows.key(&row).copied()
}

// Whether the slot of a head is a row of one of two chains.
fn is_row(rows: &Rows<u8, u32>, slot: usize) -> bool
    requires { slot < limit_of rows.now }
{
    matches!(rows.head_place(slot), Place::On(0 | 1, _))
}

// Whether the slot of a run has one.
fn is_run(rows: &Rows<u8, u32>, slot: usize) -> bool
    requires { slot < limit_of rows.now }
{
    rows.slot_place(slot) != Place::Free
}

// So many of three slots are rows, and so many are runs.
fn has(rt: &impl Abort, rows: &Rows<u8, u32>, wanted: (u8, u8))
    requires { limit_of rows.now ≡ 3 }
{
    let heads = u8::from(is_row(rows, 0)) + u8::from(is_row(rows, 1)) + u8::from(is_row(rows, 2));
    let runs = u8::from(is_run(rows, 0)) + u8::from(is_run(rows, 1)) + u8::from(is_run(rows, 2));
    same(rt, &(heads, runs), &wanted);
}

// A row of two runs comes on chain 1, and another before it, which fills three slots.
fn come(rt: &impl Abort, rows: &mut Rows<u8, u32>)
    requires { chain_count rows.old ≡ 2 }
    ensures { HasRoomOf rows.old rows.new }
{
    same(rt, &first(rows, 1), &None);
    same(rt, &open(rows, 1, 7, 70), &Ok(()));
    same(rt, &add(rows, 1, 71), &Ok(()));
    rename(rows, 1, 8);
    same(rt, &first(rows, 1), &Some((8, 71)));
    same(rt, &others(rows, 1), &Some((70, 70)));
    same(rt, &open(rows, 1, 9, 90), &Ok(()));
    same(rt, &next(rows, 1), &Some(8));
    same(rt, &last(rows, 1), &Some(8));
}

// There is room for no other, and they go.
fn go(rt: &impl Abort, rows: &mut Rows<u8, u32>)
    requires { chain_count rows.old ≡ 2 }
    ensures { HasRoomOf rows.old rows.new }
{
    same(rt, &rows.free(), &0);
    same(rt, &open(rows, 0, 1, 10), &Err(Full));
    close(rows, 1);
    same(rt, &first(rows, 1), &Some((8, 71)));
    close(rows, 1);
    same(rt, &first(rows, 1), &None);
    same(rt, &rows.free(), &3);
}

#[test]
fn rows_come_and_go(rt: HostRuntime) {
    let mut rows = Rows::new(rt.alloc(), 2, 3, 0).expect(&rt, "memory");
    same(&rt, &rows.chain_count(), &2);
    come(&rt, &mut rows);
    has(&rt, &rows, (2, 3));
    go(&rt, &mut rows);
    has(&rt, &rows, (0, 0));
}
