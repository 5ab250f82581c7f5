//! The table of locks.
ghost use Rattle.std.specs.Prelude.{◌≡◌, ◌≢◌, ◌≤◌, ◌<◌, ◌↔◌, ℕ, true, false, Option, Some, None, IfOk, IsErr, OnOk};
ghost use Rattle.std.specs.Prelude.{OnErr};
ghost use Rattle.std.specs.FinMap as map;
ghost use Rattle.std.specs.List.{AllByRecursion};
ghost use Rattle.fl_spans.specs.Rows.{rows, limit_of, chain_count, AreLinked};

use crate::conflict::some_conflicts;
use crate::holding::all_marked;
use crate::row_change;
use fl_arena::Place;
use fl_marks::{Class, Key, Kind, LAST_BYTE, Mark, Range};
use fl_spans::{Full, Rows, Span};
use std::alloc::{AllocError, Global};
use std::marker::Model;

// With 24 bytes beside its item, a slot of a head takes 56 bytes, and one of a run 48.
const _: () = prove!(size_of::<Key>() == 24);

const _: () = prove!(size_of::<Span<Mark>>() == 24);

/// The locks that are held, as runs of bytes in a fixed number of slots: one row of runs for each key that has a mark.
///
/// Contracts see how many runs there is room for, on how many chains they stand, and the mark of each byte. Only `new`
/// and `held_runs` take memory.
pub struct Table {
    pub(crate) rows: Rows<Key, Span<Mark>>,
    limit: u32,
}

/// The change would leave more runs than there is room for.
#[derive(Clone, Copy, Debug, PartialEq, Eq)]
pub struct NoRoom;

impl Model for Table {
    ghost use Rattle.fl_spans.specs.Rows.{chain_count};
    ghost use Rattle.fl_ranges.specs.LockTable.{LockTable};
    ghost use Rattle.fl_ranges.specs.Codes.{lock_table_code};
    ghost use Rattle.fl_ranges.specs.Inside.LockRows.{row_marks, IsLockTable};

    ghost Value = { LockTable };

    ghost coded = { lock_table_code };

    ghost view = { λ t. record { limit = t.limit; chains = chain_count t.rows; marking = row_marks t.rows } };

    ghost invariant = { λ t. IsLockTable t.rows t.limit (chain_count t.rows) };
}

impl Drop for Table {
    // One call for an owner, and not a step for each part.
    fn drop(self) {
        let Table {
            rows: _rows,
            limit: _limit,
        } = self;
    }
}

impl Table {
    ghost use Rattle.fl_marks.specs.Marking.{stroke_on, stroked};
    ghost use Rattle.fl_marks.specs.Conflict.{conflicts, IsLawful, SameElsewhere, SameOffNode};
    ghost use Rattle.fl_marks.specs.Runs.{runs, without_node};
    ghost use Rattle.fl_ranges.specs.Placing.{home, on_chain};
    ghost use Rattle.fl_ranges.specs.Layout.{marking_in, table_runs};
    ghost use Rattle.fl_ranges.specs.Setting.{CanBeSet};

    /// A table with no locks, room for so many runs, and so many chains: the runs of nodes whose numbers have the same
    /// remainder stand on one chain. It fails only if memory runs out.
    pub fn new(alloc: Global, limit: u32, chains: u32) -> Result<Table, AllocError>
        requires limit { limit ≤ 65536 }
        requires some_chain { 1 ≤ chains }
        requires few_chains { chains ≤ 32768 }
        ensures empty { IfOk result (λ t. t ≡ record { limit = limit; chains = chains; marking = map.empty }) }
        ensures lawful { IfOk result (λ t. IsLawful t.marking) }
    {
        // No row has this key.
        let unused = Key {
            class: Class::Record,
            node: 0,
            owner: 0,
        };
        Ok(Table {
            rows: Rows::new(alloc, chains as usize, limit as usize, unused)?,
            limit,
        })
    }

    /// The same table once more. It fails only if memory runs out.
    pub fn try_clone(&self, alloc: Global) -> Result<Table, AllocError>
        ensures { IfOk result (λ t. t ≡ self.now) }
    {
        Ok(Table {
            rows: self.rows.try_clone(alloc)?,
            limit: self.limit,
        })
    }

    /// The bytes of the range get the mark. A refusal changes nothing.
    pub fn put(&mut self, key: &Key, range: &Range, mark: Mark) -> Result<(), NoRoom>
        ensures full { IsErr result ↔
            (self.old.limit < runs (stroked (stroke_on key.now range.now (Some mark)) self.old.marking)) }
        ensures ok { OnOk result
            (self.new
            ≡ record self.old { marking = stroked (stroke_on key.now range.now (Some mark)) self.old.marking }) }
        ensures err { OnErr result (self.new ≡ self.old) }
        ensures lawful { conflicts self.old.marking key.now range.now.start range.now.end mark.kind ≡ false →
            IsLawful self.old.marking → IsLawful self.new.marking }
        // A conflict depends on the marks of its class and node alone.
        ensures elsewhere { SameElsewhere key.now self.old.marking self.new.marking }
    {
        self.stroke(key, range, Some(mark))
    }

    /// The bytes of the range lose their marks. Cutting a run in its middle makes one run more, so this too
    /// may be refused. A refusal changes nothing.
    pub fn erase(&mut self, key: &Key, range: &Range) -> Result<(), NoRoom>
        ensures full { IsErr result ↔
            (self.old.limit < runs (stroked (stroke_on key.now range.now None) self.old.marking)) }
        ensures ok { OnOk result
            (self.new ≡ record self.old { marking = stroked (stroke_on key.now range.now None) self.old.marking }) }
        ensures err { OnErr result (self.new ≡ self.old) }
        ensures lawful { IsLawful self.old.marking → IsLawful self.new.marking }
        // A conflict depends on the marks of its class and node alone.
        ensures elsewhere { SameElsewhere key.now self.old.marking self.new.marking }
    {
        self.stroke(key, range, None)
    }

    // The bytes of the range get the mark, or lose theirs.
    fn stroke(&mut self, key: &Key, range: &Range, mark: Option<Mark>) -> Result<(), NoRoom>
        ensures full { IsErr result ↔
            (self.old.limit < runs (stroked (stroke_on key.now range.now mark) self.old.marking)) }
        ensures ok { OnOk result
            (self.new ≡ record self.old { marking = stroked (stroke_on key.now range.now mark) self.old.marking }) }
        ensures err { OnErr result (self.new ≡ self.old) }
    {
        match row_change::stroke(&mut self.rows, key, range, mark) {
            Ok(()) => Ok(()),
            Err(Full) => Err(NoRoom),
        }
    }

    /// All bytes of the key lose their marks.
    pub fn erase_owner(&mut self, key: &Key)
        ensures erased { self.new ≡ record self.old {
          marking = stroked (record { key = key.now; start = 0; end = LAST_BYTE; mark = None }) self.old.marking;
        } }
        ensures lawful { IsLawful self.old.marking → IsLawful self.new.marking }
        // A conflict depends on the marks of its class and node alone.
        ensures elsewhere { SameElsewhere key.now self.old.marking self.new.marking }
    {
        row_change::erase_owner(&mut self.rows, key);
    }

    /// All bytes of the node lose their marks, of both classes and all owners.
    pub fn erase_node(&mut self, node: u64)
        ensures erased { self.new ≡ record self.old { marking = without_node node self.old.marking } }
        ensures lawful { IsLawful self.old.marking → IsLawful self.new.marking }
        // A conflict depends on the marks of its node alone.
        ensures elsewhere { SameOffNode node self.old.marking self.new.marking }
    {
        row_change::erase_node(&mut self.rows, node);
    }

    /// Whether some lock that is held conflicts with a lock of this kind.
    pub fn conflicts(&self, key: &Key, range: &Range, kind: Kind) -> bool
        ensures { result ≡ conflicts self.now.marking key.now range.now.start range.now.end kind }
    {
        some_conflicts(&self.rows, key, range, kind)
    }

    /// Whether all bytes of the range have this mark of the key.
    pub fn all_marked(&self, key: &Key, range: &Range, mark: Mark) -> bool
        ensures { (result ≡ true) ↔ ((byte : ℕ) → range.now.start ≤ byte → byte ≤ range.now.end →
            map.get self.now.marking (key.now, byte) ≡ Some mark) }
    {
        all_marked(&self.rows, key, range, mark)
    }

    /// The rows that hold the locks, each on the chain of its node. Their `slot_place` and `head_place` tell exactly
    /// where each slot is, and so which run or key has it.
    pub fn rows(&self) -> &Rows<Key, Span<Mark>>
        ensures marking { marking_in result.now ≡ self.now.marking }
        ensures limit { limit_of result.now ≡ self.now.limit }
        ensures chains { chain_count result.now ≡ self.now.chains }
        ensures settable { CanBeSet self.now.limit self.now.marking (table_runs result.now) }
        ensures homes { (c : ℕ) → AllByRecursion (λ r. home self.now.chains r.key.node ≡ c) (rows result.now c) }
        ensures linked { AreLinked result.now }
    {
        self.rows.keeps_links();
        &self.rows
    }

    /// Where the slot of a run is: slots are numbered from 0, and each is free or holds a run, which stands on the
    /// chain of its key. This walks along its chain. These clauses speak of the marking, which has no slots, so one
    /// that always tells the place of slot 0 is let through. Tests refuse it, and `rows` has exact places.
    pub fn slot_place(&self, slot: usize) -> Place
        requires { slot < self.now.limit }
        ensures on { (chain index : ℕ) → result ≡ Place.On chain index → index < runs self.now.marking }
        ensures free { result ≡ Place.Free → runs self.now.marking < self.now.limit }
    {
        self.rows.slot_place(slot)
    }

    /// Where the slot of a key is: on chain `node mod chains` if its key has runs, or else on chain `chains`. This
    /// walks along its chain. These clauses speak of the marking, too: one that always says chain `chains` is let
    /// through. Tests refuse it, and `rows` has exact places.
    pub fn head_place(&self, slot: usize) -> Place
        requires { slot < self.now.limit }
        ensures on { (chain index : ℕ) → result ≡ Place.On chain index → chain < self.now.chains
            → index < runs (on_chain self.now.chains chain self.now.marking) }
        ensures taken { result ≢ Place.Free }
    {
        self.rows.head_place(slot)
    }

    /// How many runs there are.
    pub fn runs(&self) -> u32
        ensures { result ≡ runs self.now.marking }
    {
        self.limit - self.rows.free() as u32
    }
}
