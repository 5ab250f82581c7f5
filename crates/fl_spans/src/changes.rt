//! What changes the rows.
ghost use Rattle.std.specs.Prelude.{◌≡◌, ◌≢◌, ◌↔◌, ◌+◌, ◌≤◌, ◌<◌, ℕ, [], ◌∷◌, length, insert, remove, slice_set};
ghost use Rattle.std.specs.Prelude.{take, drop, ◌++◌, IsSome, IsErr, OnOk, OnErr};
ghost use Rattle.fl_arena.specs.Chains.{entries, items, item_count, HasSizeOf};
ghost use Rattle.fl_arena.specs.Cursors.{cursor_at};
ghost use Rattle.fl_spans.specs.Rows.{row_lists, rows, runs_at, with_key, with_runs, spliced, pieces_of};
ghost use Rattle.fl_spans.specs.Rows.{listed, run_count};
ghost use Rattle.fl_spans.specs.Rows.{limit_of, row_cursor, run_cursor, IsRow, HasRoomOf};

use crate::rows::{Head, Pieces, Rows};
use fl_arena::{Arena, Cursor, Full};

impl<K: Copy, R: Copy> Rows<K, R> {
    /// Puts a row with one run before the row at the cursor, which then stands at the new one. A refusal
    /// changes nothing.
    pub fn insert_row(&mut self, row: &mut Cursor, key: K, run: R) -> Result<(), Full>
        requires { IsRow self.old row.old }
        ensures full { IsErr result ↔ (run_count self.old ≡ limit_of self.old) }
        ensures rows { OnOk result (row_lists self.new ≡ slice_set (row_lists self.old) row.old.chain
            (insert (rows self.old row.old.chain) row.old.index (record { key = key; runs = run ∷ [] }))) }
        ensures cursor { OnOk result (row.new ≡ row_cursor self.new row.old.chain row.old.index) }
        ensures row { OnOk result (IsRow self.new row.new) }
        ensures size { HasRoomOf self.old self.new }
        ensures err { OnErr result (self.new ≡ self.old) }
        ensures err_cursor { OnErr result (row.new ≡ row.old) }
    {
        if self.runs.free() == 0 {
            return Err(Full);
        }
        let mut spare = self.heads.cursor(self.unused);
        let Some(head) = self.heads.get(&spare) else {
            unreachable!()
        };
        let mut first = self.runs.cursor(usize::from(head.runs));
        let Ok(()) = self.runs.insert(&mut first, run) else {
            unreachable!()
        };
        self.heads.set(&spare, Head { key, ..head });
        self.heads.shift(&mut spare, row);
        Ok(())
    }

    /// Takes so many runs out of a row, from a cursor on, and puts others in there. A row that has no run
    /// then goes, and its cursor is at the next row.
    pub fn splice(&mut self, row: &mut Cursor, at: Cursor, taken: usize, pieces: Pieces<R>)
        requires row { IsRow self.old row.old }
        requires at_row { IsSome row.old.slot }
        requires at { at ≡ run_cursor self.old row.old.chain row.old.index at.index }
        requires taken { at.index + taken ≤ length (runs_at (rows self.old row.old.chain) row.old.index) }
        requires room { run_count self.old + length (pieces_of pieces) ≤ limit_of self.old + taken }
        ensures rows { row_lists self.new ≡ slice_set (row_lists self.old) row.old.chain
            (with_runs (rows self.old row.old.chain) row.old.index
            (spliced (runs_at (rows self.old row.old.chain) row.old.index) at.index taken (pieces_of pieces))) }
        ensures cursor { row.new ≡ row_cursor self.new row.old.chain row.old.index }
        ensures row { IsRow self.new row.new }
        ensures size { HasRoomOf self.old self.new }
    {
        splice_runs(&mut self.runs, at, taken, pieces);
        if self.runs.cursor(at.chain).slot.is_none() {
            let mut spare = self.heads.cursor(self.unused);
            self.heads.shift(row, &mut spare);
        }
    }

    /// Gives the row at the cursor another key. No cursor moves.
    pub fn set_key(&mut self, row: &Cursor, key: K)
        requires row { IsRow self.old row.now }
        requires at_row { IsSome row.now.slot }
        ensures rows { row_lists self.new ≡ slice_set (row_lists self.old) row.now.chain
            (with_key (rows self.old row.now.chain) row.now.index key) }
        ensures row { row.now ≡ row_cursor self.new row.now.chain row.now.index }
        ensures runs { (c i j : ℕ) → run_cursor self.new c i j ≡ run_cursor self.old c i j }
        ensures size { HasRoomOf self.old self.new }
    {
        let Some(head) = self.heads.get(row) else {
            unreachable!()
        };
        self.heads.set(row, Head { key, ..head });
    }

    /// Takes out a row with all its runs. The cursor is then at the next row.
    pub fn remove_row(&mut self, row: &mut Cursor)
        requires row { IsRow self.old row.old }
        requires at_row { IsSome row.old.slot }
        ensures rows { row_lists self.new ≡ slice_set (row_lists self.old) row.old.chain
            (remove (rows self.old row.old.chain) row.old.index) }
        ensures cursor { row.new ≡ row_cursor self.new row.old.chain row.old.index }
        ensures row { IsRow self.new row.new }
        ensures size { HasRoomOf self.old self.new }
    {
        let mut run = self.first_run(row);
        clear(&mut self.runs, &mut run);
        let mut spare = self.heads.cursor(self.unused);
        self.heads.shift(row, &mut spare);
    }
}

// Takes so many runs out of a chain, from the cursor on, and puts others in there.
fn splice_runs<R: Copy>(runs: &mut Arena<R>, at: Cursor, taken: usize, pieces: Pieces<R>)
    requires chain { at.chain < length runs.old.chains }
    requires at { at ≡ cursor_at runs.old at.chain at.index }
    requires there { at.index + taken ≤ length (items runs.old at.chain) }
    requires room { item_count runs.old + length (pieces_of pieces) ≤ runs.old.slots + taken }
    ensures items { items runs.new at.chain ≡ spliced (items runs.old at.chain) at.index taken (pieces_of pieces) }
    ensures others { (c : ℕ) → c ≢ at.chain → entries runs.new c ≡ entries runs.old c }
    ensures size { HasSizeOf runs.old runs.new }
{
    let mut run = at;
    take_out(runs, &mut run, taken);
    put_in(runs, &mut run, pieces.after);
    put_in(runs, &mut run, pieces.new);
    put_in(runs, &mut run, pieces.before);
}

// Takes so many runs out, from the cursor on.
fn take_out<R: Copy>(runs: &mut Arena<R>, from: &mut Cursor, count: usize)
    requires at { from.old ≡ cursor_at runs.old from.old.chain from.old.index }
    requires chain { from.old.chain < length runs.old.chains }
    requires there { from.old.index + count ≤ length (items runs.old from.old.chain) }
    ensures items { items runs.new from.old.chain ≡ take from.old.index (items runs.old from.old.chain)
        ++ drop (from.old.index + count) (items runs.old from.old.chain) }
    ensures fewer { item_count runs.new + count ≡ item_count runs.old }
    ensures others { (c : ℕ) → c ≢ from.old.chain → entries runs.new c ≡ entries runs.old c }
    ensures size { HasSizeOf runs.old runs.new }
    ensures cursor { from.new ≡ cursor_at runs.new from.old.chain from.old.index }
{
    let mut taken = 0;
    while taken < count {
        runs.remove(from);
        taken += 1;
    }
}

// Takes all runs of a chain out, the cursor being at the first.
fn clear<R: Copy>(runs: &mut Arena<R>, first: &mut Cursor)
    requires at { first.old ≡ cursor_at runs.old first.old.chain 0 }
    ensures items { items runs.new first.old.chain ≡ [] }
    ensures others { (c : ℕ) → c ≢ first.old.chain → entries runs.new c ≡ entries runs.old c }
    ensures size { HasSizeOf runs.old runs.new }
{
    while first.slot.is_some() {
        runs.remove(first);
    }
}

// Puts a run before the cursor, if there is one. The cursor then stands at it.
fn put_in<R: Copy>(runs: &mut Arena<R>, at: &mut Cursor, run: Option<R>)
    requires chain { at.old.chain < length runs.old.chains }
    requires at { at.old ≡ cursor_at runs.old at.old.chain at.old.index }
    requires within { at.old.index ≤ length (items runs.old at.old.chain) }
    requires room { item_count runs.old + length (listed run) ≤ runs.old.slots }
    ensures items { items runs.new at.old.chain ≡ take at.old.index (items runs.old at.old.chain)
        ++ (listed run ++ drop at.old.index (items runs.old at.old.chain)) }
    ensures more { item_count runs.new ≡ item_count runs.old + length (listed run) }
    ensures others { (c : ℕ) → c ≢ at.old.chain → entries runs.new c ≡ entries runs.old c }
    ensures size { HasSizeOf runs.old runs.new }
    ensures cursor { at.new ≡ cursor_at runs.new at.old.chain at.old.index }
{
    if let Some(run) = run {
        let Ok(()) = runs.insert(at, run) else {
            unreachable!()
        };
    }
}
