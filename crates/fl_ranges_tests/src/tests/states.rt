//! A state that is restored part by part and told again.

ghost use Rattle.std.specs.Prelude.{◌≡◌, true, false};

use fl_core::{Core, Rules};
use fl_order::{LockAsk, Name, StatePart};
use fl_state::{StateSink, restore, restore_all, tell_state};
use std::process::Abort;

// Parts that stay in memory, up to so many.
#[derive(Drop)]
struct Parts {
    parts: Vec<StatePart>,
    most: usize,
}

impl StateSink for Parts {
    ghost told = { λ p. p.parts.items };

    ghost kept = { λ _. tt };

    fn tell(&mut self, part: &StatePart) -> bool {
        self.parts.len() < self.most && self.parts.push(*part).is_ok()
    }
}

fn node(rt: &impl Abort) -> StatePart {
    StatePart::Node {
        number: 7,
        lookups: 1,
        linked: true,
        mode: 0o100644,
        uid: 5,
        gid: 6,
        name: Name::new(b"job").expect(rt, "a name"),
    }
}

fn file() -> StatePart {
    StatePart::File { fh: 12, node: 7 }
}

// Owner 31 has a write lock.
fn lock() -> StatePart {
    StatePart::Lock {
        node: 7,
        owner: 31,
        start: 0,
        end: 9,
        write: true,
        pid: 11,
        flock: false,
    }
}

// Owner 32 waits for a byte of it.
fn wait() -> StatePart {
    StatePart::Wait {
        unique: 5000,
        node: 7,
        ask: LockAsk {
            fh: 12,
            owner: 32,
            start: 5,
            end: 5,
            kind: 1,
            pid: 12,
            flags: 0,
        },
    }
}

fn is_told(rt: &impl Abort, parts: &[StatePart], place: usize, wanted: &StatePart) {
    let told = parts.get(place).expect(rt, "a part");
    assert_eq!(rt; *told, *wanted);
}

fn takes(rt: &impl Abort, core: &mut Core, part: &StatePart) {
    let fits = restore(core, part);
    assert!(rt; fits);
}

fn refuses(rt: &impl Abort, core: &mut Core, part: &StatePart) {
    let fits = restore(core, part);
    assert!(rt; !fits);
}

#[test]
fn restored_and_told_again(rt: HostRuntime) {
    let mut core = Core::begun_at(rt.alloc(), Rules::standard(), 9, 14).expect(&rt, "memory");
    refuses(&rt, &mut core, &file());
    takes(&rt, &mut core, &node(&rt));
    takes(&rt, &mut core, &file());
    refuses(&rt, &mut core, &wait());
    takes(&rt, &mut core, &lock());
    takes(&rt, &mut core, &wait());
    refuses(&rt, &mut core, &lock());
    let mut sink = Parts {
        parts: Vec::new(rt.alloc()),
        most: 9,
    };
    let all = tell_state(&core, &mut sink);
    assert!(rt; all);
    assert_eq!(rt; sink.parts.len(), 4);
    is_told(&rt, &sink.parts, 0, &node(&rt));
    is_told(&rt, &sink.parts, 1, &file());
    is_told(&rt, &sink.parts, 2, &lock());
    is_told(&rt, &sink.parts, 3, &wait());
    let mut again = Core::begun_at(rt.alloc(), Rules::standard(), 9, 14).expect(&rt, "memory");
    let fit = restore_all(&mut again, &sink.parts);
    assert!(rt; fit);
    let twice = restore_all(&mut again, &sink.parts);
    assert!(rt; !twice);
}

#[test]
fn told_until_the_sink_is_full(rt: HostRuntime) {
    let mut core = Core::begun_at(rt.alloc(), Rules::standard(), 9, 14).expect(&rt, "memory");
    takes(&rt, &mut core, &node(&rt));
    takes(&rt, &mut core, &file());
    let mut sink = Parts {
        parts: Vec::new(rt.alloc()),
        most: 1,
    };
    let all = tell_state(&core, &mut sink);
    assert!(rt; !all);
    assert_eq!(rt; sink.parts.len(), 1);
}
