//! What is told of one core, sought in another.

ghost use Rattle.std.specs.Prelude.{◌≡◌, ◌↔◌, [], true, Some};
ghost use Rattle.std.specs.FinMap.{get};
ghost use Rattle.std.specs.List.{AllByRecursion};
ghost use Rattle.fl_marks.specs.Bytes.{is_range};
ghost use Rattle.fl_order.specs.declared.state_part.StatePart.{StatePart};
ghost use Rattle.fl_state.specs.Inside.Seeking.{Has, IsHeld};

use crate::restoring::{class_of, kind_of};
use crate::sink::StateSink;
use fl_core::Core;
use fl_dir::Node;
use fl_history::Past;
use fl_marks::{Key, Mark, Range, Run};
use fl_order::StatePart;
use std::marker::Model;

/// Seeks each part that it is told in a core. Contracts see what is there, and the parts.
#[derive(Drop)]
pub(crate) struct Seeking<'a> {
    core: &'a Core,
    // Whether it found all of them.
    found: bool,
    told: Past<StatePart>,
}

impl<'a> Model for Seeking<'a> {
    ghost use Rattle.std.specs.Prelude.{◌≡◌, ◌↔◌, true};
    ghost use Rattle.std.specs.List.{AllByRecursion};
    ghost use Rattle.fl_state.specs.Inside.Seeking.{sought_code, Has, Sought};

    ghost Value = { Sought };

    ghost coded = { sought_code };

    ghost view = { λ s. record { core = s.core.now; told = s.told.items } };

    ghost invariant = { λ s. (s.found ≡ true) ↔ AllByRecursion (Has s.core.now) s.told.items };
}

impl<'a> Seeking<'a> {
    /// It was told no part.
    pub(crate) fn new(core: &'a Core) -> Seeking<'a>
        ensures { result ≡ record { core = core.now; told = [] } }
    {
        Seeking {
            core,
            found: true,
            told: Past::new(),
        }
    }

    /// Whether it found all parts that it was told.
    pub(crate) fn found_all(&self) -> bool
        ensures { (result ≡ true) ↔ AllByRecursion (Has self.now.core) self.now.told }
    {
        self.found
    }
}

impl StateSink for Seeking<'_> {
    ghost use Rattle.fl_core.specs.State.{Snapshot};

    ghost told = { λ s. s.told };

    ghost infallible = { true };

    ghost Kept = { Snapshot };

    ghost kept = { λ s. s.core };

    fn tell(&mut self, part: &StatePart) -> bool {
        self.found = self.found && has(self.core, part);
        self.told = self.told.and(part);
        true
    }
}

// Whether a part is there. Requests are compared in their order instead.
fn has(core: &Core, part: &StatePart) -> bool
    ensures { (result ≡ true) ↔ Has core.now part.now }
{
    match *part {
        StatePart::Node {
            number,
            lookups,
            linked,
            mode,
            uid,
            gid,
            name,
        } => {
            let node = Node {
                lookups,
                linked,
                mode,
                uid,
                gid,
                name,
            };
            has_node(core, number, &node)
        }
        StatePart::File { fh, node } => core.directory().node_of(fh) == Some(node),
        StatePart::Lock {
            node,
            owner,
            start,
            end,
            write,
            pid,
            flock,
        } => {
            let class = class_of(flock);
            let kind = kind_of(write);
            has_lock(
                core,
                &Run {
                    key: Key { class, node, owner },
                    start,
                    end,
                    mark: Mark { kind, pid },
                },
            )
        }
        StatePart::Wait { .. } => true,
    }
}

// Whether there is this node under this number.
fn has_node(core: &Core, number: u64, node: &Node) -> bool
    ensures { (result ≡ true) ↔ (get core.now.view.directory.nodes number ≡ Some node.now) }
{
    match core.directory().node_at(number) {
        Some(found) => *found == *node,
        None => false,
    }
}

// Whether all bytes of a run have its mark, and are a range.
fn has_lock(core: &Core, run: &Run) -> bool
    ensures { (result ≡ true) ↔ ((is_range run.now.start run.now.end ≡ true) × IsHeld core.now run.now) }
{
    match Range::of(run.start, run.end) {
        Some(range) => core.table().all_marked(&run.key, &range, run.mark),
        None => false,
    }
}
