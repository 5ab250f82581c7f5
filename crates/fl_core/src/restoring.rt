//! A core that is told again, part by part.

ghost use Rattle.std.specs.Prelude.{◌≡◌, ◌≤◌, ◌<◌, ◌++◌, ◌∷◌, [], true, false, IfOk};
ghost use Rattle.fl_core.specs.Restored.{a_node, a_file, a_lock, a_request, begun, fits};
ghost use Rattle.fl_core.specs.Restored.{fits_lock, fits_request, with_part};
ghost use Rattle.fl_core.specs.State.{snapshot_of};
ghost use Rattle.fl_dir.specs.Restored.{with_numbers};
ghost use Rattle.fl_marks.specs.Conflict.{IsLawful};
ghost use Rattle.fl_marks.specs.Marking.{stroked};
ghost use Rattle.fl_ranges.specs.Setting.{meant};

use crate::locking::{change, is_blocked};
use crate::replay::park;
use crate::state::Core;
use fl_dir::Node;
use fl_marks::{Range, Run};
use fl_order::NoMemory;
use fl_ranges::Table;
use fl_waiting::lock_request::{key_of, mark_of, range_of};
use fl_waiting::{Parked, Request, Rules};
use std::alloc::Global;

impl Core {
    /// No part is told yet, and these numbers of nodes and fhs come next.
    pub fn begun_at(alloc: Global, rules: Rules, node: u64, fh: u64) -> Result<Core, NoMemory>
        requires { (1 < node) × (0 < fh) }
        ensures begun { IfOk result (λ c. c ≡ snapshot_of (begun rules node fh)) }
        ensures lawful { IfOk result (λ c. IsLawful c.marking) }
    {
        let mut core = Core::new(alloc, rules)?;
        core.begin_at(node, fh);
        Ok(core)
    }

    /// The next node and the next fh get these numbers. Only `restore_node` and `restore_file` fill those between.
    pub fn begin_at(&mut self, node: u64, fh: u64)
        requires node { self.old.view.directory.next_node ≤ node }
        requires fh { self.old.view.directory.next_fh ≤ fh }
        ensures { self.new ≡ record self.old {
          view = record self.old.view { directory = with_numbers self.old.view.directory node fh };
        } }
    {
        self.parts.directory.begin_at(node, fh);
    }

    /// Puts a node back, if it fits, and says whether it did.
    pub fn restore_node(&mut self, number: u64, node: &Node) -> bool
        ensures fits { result ≡ fits self.old (a_node number node.now) }
        ensures after { result ≡ true → self.new ≡ with_part (a_node number node.now) self.old }
        ensures refused { result ≡ false → self.new ≡ self.old }
    {
        self.parts.directory.restore_node(number, node)
    }

    /// Puts an open file back, if it fits, and says whether it did.
    pub fn restore_file(&mut self, fh: u64, node: u64) -> bool
        ensures fits { result ≡ fits self.old (a_file fh node) }
        ensures after { result ≡ true → self.new ≡ with_part (a_file fh node) self.old }
        ensures refused { result ≡ false → self.new ≡ self.old }
    {
        self.parts.directory.restore_file(fh, node)
    }

    /// Sets a lock again, if it fits, and says whether it did.
    pub fn restore_lock(&mut self, run: &Run) -> bool
        ensures fits { result ≡ fits self.old (a_lock run.now) }
        ensures after { result ≡ true → self.new ≡ with_part (a_lock run.now) self.old }
        ensures refused { result ≡ false → self.new ≡ self.old }
        ensures lawful { IsLawful self.old.marking → IsLawful self.new.marking }
    {
        self.parts.parked.is_empty() && set_told(&mut self.parts.locks, run)
    }

    /// Parks a request again, behind the others, if it fits, and says whether it did.
    pub fn restore_request(&mut self, request: &Request) -> bool
        ensures fits { result ≡ fits self.old (a_request request.now) }
        ensures after { result ≡ true → self.new ≡ with_part (a_request request.now) self.old }
        ensures refused { result ≡ false → self.new ≡ self.old }
    {
        let parts = &mut self.parts;
        wait_told(parts.rules, &parts.locks, &mut parts.parked, request)
    }
}

// A lock is held again, if it fits.
fn set_told(locks: &mut Table, run: &Run) -> bool
    ensures fits { result ≡ fits_lock locks.old.limit locks.old.marking run.now }
    ensures set { result ≡ true → locks.new.marking ≡ stroked (meant run.now) locks.old.marking }
    ensures refused { result ≡ false → locks.new.marking ≡ locks.old.marking }
    ensures lawful { IsLawful locks.old.marking → IsLawful locks.new.marking }
    ensures limit { locks.new.limit ≡ locks.old.limit }
{
    match Range::of(run.start, run.end) {
        Some(range) => change(locks, &run.key, &range, Some(run.mark)).is_ok(),
        None => false,
    }
}

// A request waits again behind the others, if it fits.
fn wait_told(rules: Rules, locks: &Table, parked: &mut Parked, request: &Request) -> bool
    ensures fits { result ≡ fits_request rules locks.now.marking parked.old request.now }
    ensures waits { result ≡ true → parked.new ≡ parked.old ++ request.now ∷ [] }
    ensures refused { result ≡ false → parked.new ≡ parked.old }
{
    let Some(range) = range_of(&request.ask) else {
        return false;
    };
    let (key, mark) = (key_of(request.node, &request.ask), mark_of(&request.ask));
    !parked.has(request.unique)
        && is_blocked(rules, locks, parked, &key, &range, mark)
        && park(rules, parked, *request)
}
