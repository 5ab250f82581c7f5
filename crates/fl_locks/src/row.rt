//! A row of the list.

ghost use Rattle.std.specs.Prelude.{◌≡◌, [], option_copied};
ghost use Rattle.fl_locks.specs.LockRows.{linked_name};

use fl_marks::{Key, Mark};
use fl_order::Name;
use std::alloc::Global;
use std::marker::Model;

/// An owner who keeps a request waiting.
#[derive(Clone, Copy, Debug, PartialEq, Eq)]
pub struct Blocker {
    /// The owner, a number that the client chooses.
    pub owner: u64,
    /// The process that is named for its lock: of its first run that conflicts, or of its oldest request that goes
    /// first if none does.
    pub pid: u32,
}

/// The owners who keep a request waiting, in ascending order. Contracts see their list.
#[derive(Drop)]
pub struct Blockers {
    pub(crate) list: Vec<Blocker>,
}

impl Model for Blockers {
    ghost use Rattle.std.specs.Prelude.{List};
    ghost use Rattle.fl_locks.specs.declared.row.Blocker.{Blocker};

    ghost Value = { List Blocker };

    ghost view = { λ b. b.list.items };
}

impl Blockers {
    /// Those of a list.
    pub fn new(list: Vec<Blocker>) -> Blockers
        ensures { result ≡ list.items }
    {
        Blockers { list }
    }

    /// None.
    pub(crate) fn none(alloc: Global) -> Blockers
        ensures { result ≡ [] }
    {
        Blockers::new(Vec::new(alloc))
    }

    /// They, one after another.
    pub fn as_slice(&self) -> &[Blocker]
        ensures { result.now ≡ self.now }
    {
        self.list.as_slice()
    }
}

/// A lock that is held, or that a parked request waits for.
#[derive(Drop)]
pub struct LockRow {
    /// Whose lock it is, of which class, and on which node.
    pub key: Key,
    /// The first byte.
    pub start: u64,
    /// The last byte, which is included; 2^63 - 1 at most.
    pub end: u64,
    /// Its kind, and the process that is named as the holder, or that asks.
    pub mark: Mark,
    /// The name under which the file was made; none if that isn't known.
    pub name: Option<Name>,
    /// The file still has that name.
    pub linked: bool,
    /// The unique of the request if it waits; none if the lock is held.
    pub unique: Option<u64>,
    /// Whom it waits for; nobody if it is held.
    pub blockers: Blockers,
}

impl LockRow {
    /// The name that the file has; none once it is unlinked.
    pub fn linked_name(&self) -> Option<&Name>
        ensures { option_copied result ≡ linked_name self.now }
    {
        if self.linked {
            self.name.as_ref()
        } else {
            None
        }
    }
}
