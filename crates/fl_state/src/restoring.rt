//! A part of a state that is there again.

ghost use Rattle.std.specs.Prelude.{◌≡◌, ℕ, true, false, map};
ghost use Rattle.fl_core.specs.Restored.{begun, fits, with_part};
ghost use Rattle.fl_core.specs.State.{snapshot_of};
ghost use Rattle.fl_marks.specs.Conflict.{IsLawful};
ghost use Rattle.fl_state.specs.Parts.{class_of, kind_of, part_of};
ghost use Rattle.fl_state.specs.Telling.{told_by, AreTold};
ghost use Rattle.fl_waiting.specs.declared.rules.Rules.{Rules};

use fl_core::{Core, Request};
use fl_dir::Node;
use fl_marks::{Class, Key, Kind, Mark, Run};
use fl_order::StatePart;

/// Puts a part back, if it fits what is there so far, and says whether it did. Locks fit only while no request waits.
pub fn restore(core: &mut Core, part: &StatePart) -> bool
    ensures fits { result ≡ fits core.old (part_of part.now) }
    ensures after { result ≡ true → core.new ≡ with_part (part_of part.now) core.old }
    ensures refused { result ≡ false → core.new ≡ core.old }
    ensures lawful { IsLawful core.old.marking → IsLawful core.new.marking }
{
    match *part {
        StatePart::Node {
            number,
            lookups,
            linked,
            mode,
            uid,
            gid,
            name,
        } => {
            let node = Node {
                lookups,
                linked,
                mode,
                uid,
                gid,
                name,
            };
            core.restore_node(number, &node)
        }
        StatePart::File { fh, node } => core.restore_file(fh, node),
        StatePart::Lock {
            node,
            owner,
            start,
            end,
            write,
            pid,
            flock,
        } => {
            let class = class_of(flock);
            let kind = kind_of(write);
            core.restore_lock(&Run {
                key: Key { class, node, owner },
                start,
                end,
                mark: Mark { kind, pid },
            })
        }
        StatePart::Wait { unique, node, ask } => core.restore_request(&Request {
            unique,
            node,
            ask,
        }),
    }
}

/// Puts these parts back, one after another, until one doesn't fit, and says whether all did. If no part was there
/// before, all do exactly if each fits what those before it tell, and then they tell what is there.
pub fn restore_all(core: &mut Core, parts: &[StatePart]) -> bool
    ensures all { (rules : Rules) (node fh : ℕ) → core.old ≡ snapshot_of (begun rules node fh) → result ≡ true →
        AreTold rules node fh (map part_of parts.now)
        × (core.new ≡ snapshot_of (told_by rules node fh (map part_of parts.now))) }
    ensures some { (rules : Rules) (node fh : ℕ) → core.old ≡ snapshot_of (begun rules node fh) →
        AreTold rules node fh (map part_of parts.now) → result ≡ true }
{
    for i in 0..parts.len() {
        if !restore(core, &parts[i]) {
            return false;
        }
    }
    true
}

pub(crate) fn class_of(flock: bool) -> Class
    ensures { result ≡ class_of flock }
{
    if flock { Class::Flock } else { Class::Record }
}

pub(crate) fn kind_of(write: bool) -> Kind
    ensures { result ≡ kind_of write }
{
    if write { Kind::Write } else { Kind::Read }
}
