//! The calls of a directory whose numbers are at their ends, which no caller reaches soon.

ghost use Rattle.std.specs.Prelude.{◌<◌};

use fl_dir::{Closed, Dir, Node};
use fl_order::{Answer, Attr, Errno, Name};
use std::alloc::Global;
use std::process::Abort;

// The last number that a node or an fh may have.
const LAST: u64 = u64::MAX - 1;

// An empty directory that goes on with these numbers.
fn directory_at(rt: &impl Abort, alloc: Global, next_node: u64, next_fh: u64) -> Dir
    requires { (1 < next_node) × (0 < next_fh) }
{
    let mut dir = Dir::new(alloc, 256, 1024).expect(rt, "memory");
    dir.begin_at(next_node, next_fh);
    dir
}

// What is kept of a file that was made so, whose lookups can't be counted up any more.
fn looked_up_to_the_last(name: &Name) -> Node {
    Node {
        lookups: u64::MAX,
        linked: true,
        mode: 0o100644,
        uid: 5,
        gid: 6,
        name: *name,
    }
}

fn name(rt: &impl Abort, bytes: &[u8]) -> Name {
    Name::new(bytes).expect(rt, "a name")
}

// A new file.
fn made(dir: &mut Dir, name: &Name) -> Result<Answer, Errno> {
    dir.create(1, 5, 6, true, 0o644, name)
}

// A new file, or the one of this name.
fn opened(dir: &mut Dir, name: &Name) -> Result<Answer, Errno> {
    dir.create(1, 5, 6, false, 0o644, name)
}

// What is told of a file that was made so.
fn file(node: u64) -> Attr {
    Attr {
        node,
        mode: 0o100644,
        nlink: 1,
        uid: 5,
        gid: 6,
    }
}

fn is(rt: &impl Abort, told: &Result<Answer, Errno>, wanted: &Result<Answer, Errno>) {
    assert_eq!(rt; *told, *wanted);
}

fn is_refused(rt: &impl Abort, told: &Result<Answer, Errno>, error: Errno) {
    is(rt, told, &Err(error));
}

fn is_made(rt: &impl Abort, told: &Result<Answer, Errno>, node: u64, fh: u64) {
    is(rt, told, &Ok(Answer::Made(file(node), fh)));
}

#[test]
fn lookups_are_counted_to_their_last_count(rt: HostRuntime) {
    let mut dir = directory_at(&rt, rt.alloc(), 3, 2);
    counts_lookups(&rt, &mut dir, &name(&rt, b"a"));
}

fn counts_lookups(rt: &impl Abort, dir: &mut Dir, a: &Name) {
    let node = looked_up_to_the_last(a);
    assert!(rt; !dir.restore_node(0, &node) && !dir.restore_node(1, &node));
    assert!(rt; dir.restore_node(2, &node) && !dir.restore_file(0, 2));
    is_refused(rt, &dir.lookup(1, a), Errno::ENFILE);
    is_refused(rt, &made(dir, a), Errno::EEXIST);
    is_refused(rt, &opened(dir, a), Errno::ENFILE);
    is(rt, &dir.open(2), &Ok(Answer::Open(2)));
    dir.forget(2, 1);
    is(rt, &dir.lookup(1, a), &Ok(Answer::Entry(file(2))));
}

#[test]
fn nodes_are_numbered_to_the_last_number(rt: HostRuntime) {
    let mut dir = directory_at(&rt, rt.alloc(), LAST, 1);
    uses_nodes_up(&rt, &mut dir, &name(&rt, b"a"));
}

fn uses_nodes_up(rt: &impl Abort, dir: &mut Dir, a: &Name) {
    is_made(rt, &made(dir, a), LAST, 1);
    is_refused(rt, &made(dir, &name(rt, b"b")), Errno::ENOSPC);
    is_refused(rt, &made(dir, &name(rt, b".")), Errno::EINVAL);
    is_made(rt, &opened(dir, a), LAST, 2);
}

#[test]
fn open_files_are_numbered_to_the_last_number(rt: HostRuntime) {
    let mut dir = directory_at(&rt, rt.alloc(), 2, LAST);
    uses_open_files_up(&rt, &mut dir, &name(&rt, b"a"));
}

fn uses_open_files_up(rt: &impl Abort, dir: &mut Dir, a: &Name) {
    is_made(rt, &made(dir, a), 2, LAST);
    is_refused(rt, &made(dir, &name(rt, b"b")), Errno::ENFILE);
    is_refused(rt, &opened(dir, a), Errno::ENFILE);
    is_refused(rt, &dir.open(2), Errno::ENFILE);
    let closed = dir.close(2, LAST);
    assert!(rt; matches!(closed, Ok(Closed { last: true, .. })));
    is_refused(rt, &dir.open(2), Errno::ENFILE);
}
