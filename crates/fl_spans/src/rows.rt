//! The rows, and what only reads them.
ghost use Rattle.std.specs.Prelude.{◌≡◌, ◌↔◌, ◌+◌, ◌-◌, ◌<◌, ◌≤◌, ℕ, [], IfOk, IsSome, Some, slice_get, length, replicate};
ghost use Rattle.std.specs.Prelude.{◌≢◌, sum_by};
ghost use Rattle.std.specs.Option.{option_copied};
ghost use Rattle.std.specs.List.{AllByRecursion};
ghost use Rattle.fl_arena.specs.Chains.{entries, item_count, slot_at, HasSizeOf};
ghost use Rattle.fl_arena.specs.Cursors.{IsInPlace};
ghost use Rattle.fl_spans.specs.Inside.Kept.{has_number};
ghost use Rattle.fl_spans.specs.Rows.{row_lists, rows, keys, runs_at, chain_count, limit_of, run_count};
ghost use Rattle.fl_spans.specs.Rows.{row_cursor, run_cursor, IsRow, AreLinked};

use fl_arena::{Arena, Cursor, Place};
use std::alloc::{AllocError, Global};
use std::marker::Model;

/// The head of a row: its key, and the number of the chain that its runs stand on.
#[derive(Clone, Copy)]
pub struct Head<K> {
    /// The key of all runs of the row.
    pub key: K,
    /// The number of their chain.
    pub runs: u16,
}

// A head takes 8 bytes beside its key.
const _: () = prove!(size_of::<Head<[u64; 3]>>() == 32);

/// What is put into a row at one place: at most three runs, in this order.
#[derive(Clone, Copy)]
pub struct Pieces<R> {
    /// The first.
    pub before: Option<R>,
    /// The second.
    pub new: Option<R>,
    /// The third.
    pub after: Option<R>,
}

/// Chains of rows, each of which has a key and at least one run.
///
/// Contracts see the rows of each chain in order, and how many runs there is room for. A cursor names a slot,
/// so what they see has slots too. Only `head_place` and `slot_place` speak of them.
pub struct Rows<K: Copy, R: Copy> {
    // One chain of heads for each chain of rows, and a last one for the heads that no row has.
    pub(crate) heads: Arena<Head<K>>,
    // The runs of each head, on the chain that it names.
    pub(crate) runs: Arena<R>,
    // How many chains of rows there are, which is the number of the chain of unused heads.
    pub(crate) unused: usize,
}

impl<K: Copy, R: Copy> Model for Rows<K, R> {
    ghost use Rattle.fl_spans.specs.Rows.{RowChains};
    ghost use Rattle.fl_spans.specs.Inside.Kept.{AreRows};

    ghost Value = { RowChains K R };

    ghost view = { λ r. record { heads = r.heads; runs = r.runs } };

    ghost invariant = { λ r. AreRows r.heads r.runs r.unused };
}

impl<K: Copy, R: Copy> Drop for Rows<K, R> {
    // One call for an owner, and not a step for each part.
    fn drop(self) {
        let Rows {
            heads: _heads,
            runs: _runs,
            unused: _unused,
        } = self;
    }
}

impl<K: Copy, R: Copy> Rows<K, R> {
    /// The same rows once more. It fails only if memory runs out.
    pub fn try_clone(&self, alloc: Global) -> Result<Rows<K, R>, AllocError>
        ensures { IfOk result (λ rows. rows ≡ self.now) }
    {
        Ok(Rows {
            heads: self.heads.try_clone(alloc)?,
            runs: self.runs.try_clone(alloc)?,
            unused: self.unused,
        })
    }

    /// So many chains without rows, and room for so many runs. It fails only if memory runs out. The key is what
    /// the heads have that no row had yet: nothing reads it.
    pub fn new(alloc: Global, chains: usize, limit: usize, key: K) -> Result<Self, AllocError>
        requires chains { chains < 65536 }
        requires limit { limit ≤ 65536 }
        ensures rows { IfOk result (λ r. row_lists r ≡ replicate chains []) }
        ensures limit { IfOk result (λ r. limit_of r ≡ limit) }
    {
        let mut heads = Arena::new(alloc, chains + 1, limit)?;
        let runs = Arena::new(alloc, limit, limit)?;
        add_heads(&mut heads, chains, limit, key);
        Ok(Rows {
            heads,
            runs,
            unused: chains,
        })
    }

    /// How many chains of rows there are.
    pub fn chain_count(&self) -> usize
        ensures { result ≡ chain_count self.now }
    {
        self.unused
    }

    /// The cursor at the first row of the chain, or at its end.
    pub fn first_row(&self, chain: usize) -> Cursor
        requires { chain < chain_count self.now }
        ensures first { result ≡ row_cursor self.now chain 0 }
        ensures row { IsRow self.now result }
    {
        self.heads.cursor(chain)
    }

    /// The cursor at the last row of the chain, or at its end if it has no row.
    pub fn last_row(&self, chain: usize) -> Cursor
        requires { chain < chain_count self.now }
        ensures last { result ≡ row_cursor self.now chain (length (rows self.now chain) - 1) }
        ensures row { IsRow self.now result }
    {
        self.heads.last(chain)
    }

    /// The key of the row at the cursor, or none at the end.
    pub fn key(&self, row: &Cursor) -> Option<&K>
        requires { IsRow self.now row.now }
        ensures key { option_copied result ≡ slice_get (keys (rows self.now row.now.chain)) row.now.index }
        ensures some { IsSome result → IsSome row.now.slot }
    {
        let head = self.heads.item(row)?;
        Some(&head.key)
    }

    /// Takes the cursor on to the next row.
    pub fn next_row(&self, row: &mut Cursor)
        requires row { IsRow self.now row.old }
        requires at_row { IsSome row.old.slot }
        ensures next { row.new ≡ row_cursor self.now row.old.chain (row.old.index + 1) }
        ensures row { IsRow self.now row.new }
    {
        self.heads.step(row);
    }

    /// The cursor at the first run of the row at a cursor.
    pub fn first_run(&self, row: &Cursor) -> Cursor
        requires row { IsRow self.now row.now }
        requires at_row { IsSome row.now.slot }
        ensures first { result ≡ run_cursor self.now row.now.chain row.now.index 0 }
        ensures there { row.now.index < length (rows self.now row.now.chain) }
    {
        let Some(head) = self.heads.item(row) else {
            unreachable!()
        };
        self.runs.cursor(usize::from(head.runs))
    }

    /// The cursor at the last run of the row at a cursor.
    pub fn last_run(&self, row: &Cursor) -> Cursor
        requires row { IsRow self.now row.now }
        requires at_row { IsSome row.now.slot }
        ensures last { let runs = runs_at (rows self.now row.now.chain) row.now.index in
            result ≡ run_cursor self.now row.now.chain row.now.index (length runs - 1) }
        ensures there { row.now.index < length (rows self.now row.now.chain) }
    {
        let Some(head) = self.heads.item(row) else {
            unreachable!()
        };
        self.runs.last(usize::from(head.runs))
    }

    /// The run at the cursor, or none at the end of its row.
    pub fn run(&self, run: &Cursor) -> Option<&R>
        requires { IsInPlace self.now.runs run.now }
        ensures run { (c i j : ℕ) → c < chain_count self.now → i < length (rows self.now c)
            → run.now ≡ run_cursor self.now c i j
            → option_copied result ≡ slice_get (runs_at (rows self.now c) i) j }
        ensures some { IsSome result → IsSome run.now.slot }
    {
        self.runs.item(run)
    }

    /// Takes the cursor on to the next run of its row.
    pub fn next_run(&self, run: &mut Cursor)
        requires run { IsInPlace self.now.runs run.old }
        requires at_run { IsSome run.old.slot }
        ensures { (c i j : ℕ) → run.old ≡ run_cursor self.now c i j → run.new ≡ run_cursor self.now c i (j + 1) }
    {
        self.runs.step(run);
    }

    /// What all rows keep of their two arenas. It changes nothing.
    pub fn keeps_links(&self)
        ensures { AreLinked self.now }
    {
        self.heads.keeps_links();
        self.runs.keeps_links();
    }

    /// How many more runs there is room for.
    pub fn free(&self) -> usize
        ensures { run_count self.now + result ≡ limit_of self.now }
    {
        self.runs.free()
    }

    /// Where the slot of a head is: on the chain of its row, or on the last one, if no row has it. This walks
    /// along its chain.
    pub fn head_place(&self, slot: usize) -> Place
        requires { slot < limit_of self.now }
        ensures place { (c i : ℕ) → (result ≡ Place.On c i) ↔ (slot_at self.now.heads c i ≡ Some slot) }
        ensures on { (c i : ℕ) → result ≡ Place.On c i → c < chain_count self.now → i < length (rows self.now c) }
        ensures taken { result ≢ Place.Free }
    {
        self.heads.place(slot)
    }

    /// Where the slot of a run is: on the chain that its row's head names, or free. This walks along its row.
    pub fn slot_place(&self, slot: usize) -> Place
        requires { slot < limit_of self.now }
        ensures place { (chain index : ℕ) → (result ≡ Place.On chain index)
            ↔ (slot_at self.now.runs chain index ≡ Some slot) }
        ensures on { (chain index : ℕ) → result ≡ Place.On chain index → index < run_count self.now }
        ensures free { result ≡ Place.Free → run_count self.now < limit_of self.now }
    {
        self.runs.place(slot)
    }
}

// Puts a head into each slot, all on one chain: the first has the number 0.
fn add_heads<K: Copy>(heads: &mut Arena<Head<K>>, chain: usize, count: usize, key: K)
    requires chain { chain < length heads.old.chains }
    requires few { count ≤ 65536 }
    requires slots { heads.old.slots ≡ count }
    requires empty { (c : ℕ) → entries heads.old c ≡ [] }
    requires none { item_count heads.old ≡ 0 }
    ensures others { (c : ℕ) → c ≢ chain → entries heads.new c ≡ [] }
    ensures count { item_count heads.new ≡ count }
    ensures once { (m : ℕ) → m < count → sum_by (has_number m) (entries heads.new chain) ≡ 1 }
    ensures named { AllByRecursion (λ e. e.item.runs < count) (entries heads.new chain) }
    ensures size { HasSizeOf heads.old heads.new }
{
    let mut number = count;
    while number > 0 {
        number -= 1;
        let mut first = heads.cursor(chain);
        let Ok(()) = heads.insert(
            &mut first,
            Head {
                key,
                runs: number as u16,
            },
        ) else {
            unreachable!()
        };
    }
}
