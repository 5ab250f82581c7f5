//! Whether the same is there in two cores.

ghost use Rattle.std.specs.Prelude.{◌≡◌, ◌↔◌, true, length};
ghost use Rattle.fl_core.specs.Kept.{IsRuled};
ghost use Rattle.fl_state.specs.Inside.Seeking.{requests_on, AreAlike, IsWithin};
ghost use Rattle.fl_state.specs.Same.{HaveSame};

use crate::rows::tell_locks;
use crate::seeking::Seeking;
use crate::walk::tell_all;
use fl_arena::Arena;
use fl_core::Core;
use fl_ranges::laws::marks_tell_markings_apart;
use fl_waiting::{Claim, Request};

/// Whether the same is there in both cores: the files, the open files, the numbers that come next, the locks, and the
/// requests that wait, in the same order. Their rules needn't be the same. Of each row of locks one looks for the other's,
/// so this takes as long as it took to restore them.
pub fn have_same(one: &Core, other: &Core) -> bool
    ensures is { (result ≡ true) ↔ HaveSame one.now other.now }
    ensures equal { result ≡ true → one.now.rules ≡ other.now.rules → one.now ≡ other.now }
{
    marks_tell_markings_apart();
    keeps_rules(one);
    keeps_rules(other);
    are_alike(one, other)
}

// The directory of a core has room for as many files and open files as its rules allow. It changes nothing.
fn keeps_rules(core: &Core)
    ensures { IsRuled core.now.rules core.now.view.directory }
{
    let _arenas = core.arenas();
}

// Whether each has all that is in the other.
fn are_alike(one: &Core, other: &Core) -> bool
    ensures { (result ≡ true) ↔ AreAlike one.now other.now }
{
    is_within(one, other)
        && is_within(other, one)
        && same_numbers(one, other)
        && same_parked(one, other)
}

// Whether the other has all files, open files and locks of the one.
fn is_within(one: &Core, other: &Core) -> bool
    ensures { (result ≡ true) ↔ IsWithin one.now other.now }
{
    let arenas = one.arenas();
    let directory = &arenas.directory;
    let mut seeking = Seeking::new(other);
    tell_all(directory.nodes, directory.node_chains, &mut seeking);
    tell_all(directory.files, directory.file_chains, &mut seeking);
    tell_locks(arenas.locks, &mut seeking);
    seeking.found_all()
}

// Whether the same numbers come next in both.
fn same_numbers(one: &Core, other: &Core) -> bool
    ensures { (result ≡ true) ↔
        ((one.now.view.directory.next_node ≡ other.now.view.directory.next_node)
        × (one.now.view.directory.next_fh ≡ other.now.view.directory.next_fh)) }
{
    let (one, other) = (one.arenas().directory, other.arenas().directory);
    one.next_node == other.next_node && one.next_fh == other.next_fh
}

// Whether the same requests wait in both, in the same order.
fn same_parked(one: &Core, other: &Core) -> bool
    ensures { (result ≡ true) ↔ (one.now.view.parked ≡ other.now.view.parked) }
{
    same_claims(one.parked().arena(), other.parked().arena())
}

// Whether the same requests stand on both chains, in the same order.
fn same_claims(one: &Arena<Claim>, other: &Arena<Claim>) -> bool
    requires one { length one.now.chains ≡ 1 }
    requires other { length other.now.chains ≡ 1 }
    ensures { (result ≡ true) ↔ (requests_on one.now ≡ requests_on other.now) }
{
    let (mut first, mut second) = (one.cursor(0), other.cursor(0));
    while let Some(claim) = one.item(&first) {
        let Some(here) = other.item(&second) else {
            return false;
        };
        if !is_same(&claim.request, &here.request) {
            return false;
        }
        one.step(&mut first);
        other.step(&mut second);
    }
    other.item(&second).is_none()
}

// Whether two requests are one.
fn is_same(one: &Request, other: &Request) -> bool
    ensures { (result ≡ true) ↔ (one.now ≡ other.now) }
{
    *one == *other
}
