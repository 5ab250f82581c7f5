//! A desk and its history, the text of histories, and what is said of them. `tests/commands/check.py` tries the same
//! with many texts, over the built program.

ghost use Rattle.fl_counter.specs.Tolds.{HasRoom};

use fl_book::{
    Desk, History, Line, Rules, TraceFault, Verdict, check, first_line, has_text, laws,
    print_trace, quiet, read_trace,
};
use fl_core::{Core, Tolds};
use fl_marks::{Class, Key, Kind, Range};
use fl_trace::laws::{a_text_breaks_at_one_line_at_most, no_text_is_that_of_two_histories};
use std::alloc::Global;
use std::process::Abort;

// A write lock of owner 7 keeps owner 8 from a read lock of its last byte, until that half is given back.
const LOCKS: &str = "\
ask 3 1 1 0 0 0 create 0 420 61
tell 1 made 2 33188 1 0 0 1
ask 3 2 2 0 0 0 setlk 1 7 0 9 1 11 0
tell 2 ok
ask 3 3 2 0 0 0 setlk 1 8 9 9 0 11 0
tell 3 err 11
ask 3 4 2 0 0 0 setlk 1 7 5 9 2 11 0
tell 4 ok
ask 3 5 2 0 0 0 setlk 1 8 9 9 0 11 0
tell 5 ok
";

// The lock is set where it conflicts.
const DIFFERS_AT_6: &str = "\
ask 3 1 1 0 0 0 create 0 420 61
tell 1 made 2 33188 1 0 0 1
ask 3 2 2 0 0 0 setlk 1 7 0 9 1 11 0
tell 2 ok
ask 3 3 2 0 0 0 setlk 1 8 9 9 0 11 0
tell 3 ok
";

// Owner 9 waits behind owner 8, who waits and is interrupted, and asks meanwhile. Under the standard rules nothing
// keeps it waiting.
const WAITS_BEHIND: &str = "\
ask 0 1 1 0 0 0 create 0 420 61
tell 1 made 2 33188 1 0 0 1
ask 0 2 2 0 0 0 setlk 1 7 0 0 0 11 0
tell 2 ok
ask 0 3 2 0 0 0 setlkw 1 8 0 0 1 12 0
ask 0 4 2 0 0 0 setlkw 1 9 0 0 0 13 0
ask 0 5 2 0 0 0 setlk 1 9 5 5 0 13 0
tell 5 ok
ask 0 6 2 0 0 0 interrupt 3
tell 3 err 4
tell 4 ok
";

// A folder stays empty. Its name goes by RMDIR alone, and then a file can have it; a file's name goes by UNLINK alone.
const FOLDERS: &str = "\
ask 0 1 1 1000 100 0 mkdir 33261 64
tell 1 entry 2 16877 2 1000 100
ask 0 2 1 1000 100 0 mknod 33188 61
tell 2 entry 3 33188 1 1000 100
ask 0 3 1 0 0 0 mknod 8630 62
tell 3 err 1
ask 0 4 2 0 0 0 lookup 61
tell 4 err 2
ask 0 5 2 0 0 0 mkdir 511 61
tell 5 err 1
ask 0 6 2 0 0 0 rmdir 61
tell 6 err 2
ask 0 7 1 0 0 0 rmdir 61
tell 7 err 20
ask 0 8 1 0 0 0 unlink 64
tell 8 err 21
ask 0 9 1 0 0 0 mkdir 511 64
tell 9 err 17
ask 0 10 1 0 0 0 rmdir 64
tell 10 ok
ask 0 11 1 0 0 0 mknod 438 64
tell 11 entry 4 33206 1 0 0
ask 0 12 2 0 0 0 getattr
tell 12 attr 2 16877 0 1000 100
";

// A line of each order, answer and error, with small and with great numbers. They need not be legal together.
const WORDS: &str = "\
ask 0 1 2 3 4 5 create 1 420 61ff
ask 15 18446744073709551615 18446744073709551615 4294967295 4294967295 4294967295 create 0 511 -
ask 0 1 2 3 4 5 lookup 61ff
ask 0 1 2 3 4 5 lookup -
ask 0 1 2 3 4 5 unlink 61ff
ask 0 1 2 3 4 5 unlink -
ask 0 1 2 3 4 5 rmdir 61ff
ask 0 1 2 3 4 5 rmdir -
ask 0 1 2 3 4 5 mknod 33188 61ff
ask 0 1 2 3 4 5 mknod 4294967295 -
ask 0 1 2 3 4 5 mkdir 0 61ff
ask 0 1 2 3 4 5 mkdir 4294967295 -
ask 0 1 2 3 4 5 forget 0
ask 0 1 2 3 4 5 forget 18446744073709551615
ask 0 1 2 3 4 5 getattr
ask 0 1 2 3 4 5 open
ask 0 1 2 3 4 5 interrupt 0
ask 0 1 2 3 4 5 interrupt 18446744073709551615
ask 0 1 2 3 4 5 release 1 0 7
ask 0 1 2 3 4 5 release 18446744073709551615 1 18446744073709551614
ask 0 1 2 3 4 5 flush 1 7
ask 0 1 2 3 4 5 flush 0 18446744073709551615
ask 0 1 2 3 4 5 getlk 1 7 0 9 1 11 0
ask 0 1 2 3 4 5 setlk 1 7 0 9 1 11 0
ask 0 1 2 3 4 5 setlkw 18446744073709551615 18446744073709551614 18446744073709551613 18446744073709551612 \
4294967295 4294967294 4294967293
tell 9 ok
tell 9 entry 2 33188 1 3 4
tell 9 attr 18446744073709551615 4294967295 4294967294 4294967293 4294967292
tell 9 open 7
tell 9 made 2 33188 1 3 4 7
tell 9 lock 0 18446744073709551615 1 4294967295
tell 9 err 2
tell 9 err 4
tell 9 err 9
tell 9 err 11
tell 9 err 12
tell 9 err 17
tell 9 err 20
tell 9 err 21
tell 9 err 22
tell 9 err 23
tell 9 err 28
tell 9 err 35
tell 9 err 36
tell 9 err 37
tell 9 err 38
tell 9 err 71
";

fn read(rt: &impl Abort, alloc: Global, text: &str) -> History {
    read_trace(alloc, text.as_bytes()).expect(rt, "a trace")
}

// A history of so many lines, which can be read back, is printed as this text.
fn is_text(rt: &impl Abort, alloc: Global, history: &History, lines: usize, text: &str) {
    assert_eq!(rt; history.len(), lines);
    assert!(rt; has_text(history) && !history.is_empty());
    let printed = print_trace(alloc, history).expect(rt, "memory");
    assert_eq!(rt; printed.as_str(), text);
}

#[test]
fn a_text_there_and_back(rt: HostRuntime) {
    no_text_is_that_of_two_histories();
    a_text_breaks_at_one_line_at_most();
    let history = read(&rt, rt.alloc(), WORDS);
    is_text(&rt, rt.alloc(), &history, 47, WORDS);
}

#[test]
fn a_text_breaks_at_its_second_line(rt: HostRuntime) {
    let text = b"tell 1 ok\ntell";
    let fault = read_trace(rt.alloc(), text).err();
    assert_eq!(&rt; fault, Some(TraceFault::BadLine(2)));
    let Some((_line, rest)) = first_line(text) else {
        panic!(rt; "a line");
    };
    assert!(rt; !rest.is_empty() && first_line(rest).is_none());
}

// A desk by the standard rules, and the replies to its last order.
#[derive(Drop)]
struct Server {
    desk: Desk,
    tolds: Tolds,
    ghost room: { HasRoom desk.present.rules tolds },
}

impl Server {
    fn new(rt: &impl Abort, alloc: Global) -> Server {
        Server {
            desk: Desk::new(alloc, Rules::standard()).expect(rt, "memory"),
            tolds: Tolds::new(alloc, Rules::standard()).expect(rt, "memory"),
        }
    }

    // It takes the order of a line, if that is one.
    fn take(&mut self, rt: &impl Abort, line: &Line) {
        if let Line::Asked { worker, order } = line {
            self.desk
                .take(*worker, order, &mut self.tolds)
                .expect(rt, "memory");
        }
    }
}

// The history of a desk that is asked what a trace asks.
fn asked_again(rt: &impl Abort, alloc: Global, trace: &History) -> History {
    let mut server = Server::new(rt, alloc);
    for at in 0..trace.len() {
        server.take(rt, &trace.line(at));
    }
    let Server { desk, tolds: _ } = server;
    desk.into_history()
}

#[test]
fn a_desk_answers_and_records(rt: HostRuntime) {
    laws::own_reply_comes_first();
    let trace = read(&rt, rt.alloc(), LOCKS);
    let history = asked_again(&rt, rt.alloc(), &trace);
    is_text(&rt, rt.alloc(), &history, 10, LOCKS);
}

// This is said of a trace under these rules, and of a legal one whether it is quiet.
fn is_judged(rt: &impl Abort, alloc: Global, text: &str, fair: bool, wanted: Verdict, still: bool) {
    let trace = read(rt, alloc, text);
    let rules = Rules::standard().with_fair(fair);
    let verdict = check(alloc, &trace, rules).expect(rt, "memory");
    assert!(rt; verdict == wanted);
    let found = quiet(alloc, &trace, rules).expect(rt, "memory");
    assert!(rt; verdict != Verdict::Legal || found == still);
}

// How many slots are free for runs of locks, parked requests, nodes, names and open files.
fn free_slots(desk: &Desk) -> [usize; 5] {
    let arenas = desk.arenas();
    let directory = &arenas.directory;
    [
        arenas.locks.free(),
        arenas.parked.free(),
        directory.nodes.free(),
        directory.names.free(),
        directory.files.free(),
    ]
}

#[test]
fn a_desk_lends_its_arenas(rt: HostRuntime) {
    let desk = Desk::new(rt.alloc(), Rules::standard()).expect(&rt, "memory");
    assert!(&rt; free_slots(&desk) == [4096, 1024, 256, 256, 1024]);
}

#[test]
fn traces_are_judged(rt: HostRuntime) {
    is_judged(&rt, rt.alloc(), "", false, Verdict::Legal, true);
    is_judged(&rt, rt.alloc(), LOCKS, false, Verdict::Legal, true);
    is_judged(&rt, rt.alloc(), FOLDERS, false, Verdict::Legal, true);
    is_judged(
        &rt,
        rt.alloc(),
        DIFFERS_AT_6,
        false,
        Verdict::Differs(6),
        true,
    );
    is_judged(&rt, rt.alloc(), WAITS_BEHIND, true, Verdict::Legal, false);
    is_judged(
        &rt,
        rt.alloc(),
        WAITS_BEHIND,
        false,
        Verdict::Differs(7),
        true,
    );
}

// Owner 7 has the first file and waits for the second one, which owner 8 has.
const WAITS: &str = "\
ask 0 1 1 0 0 0 create 0 420 61
tell 1 made 2 33188 1 0 0 1
ask 0 2 1 0 0 0 create 0 420 62
tell 2 made 3 33188 1 0 0 2
ask 0 3 2 0 0 0 setlk 1 7 0 0 1 11 0
tell 3 ok
ask 0 4 3 0 0 0 setlk 2 8 0 0 1 12 0
tell 4 ok
ask 0 5 3 0 0 0 setlkw 2 7 0 0 1 11 0
";

// A core, and room for the replies to an order.
#[derive(Drop)]
struct Directory {
    core: Core,
    tolds: Tolds,
    ghost room: { HasRoom core.rules tolds },
}

impl Directory {
    fn new(rt: &impl Abort, alloc: Global) -> Directory {
        Directory {
            core: Core::new(alloc, Rules::standard()).expect(rt, "memory"),
            tolds: Tolds::new(alloc, Rules::standard()).expect(rt, "memory"),
        }
    }

    // It takes the order of a line, if that is one.
    fn take(&mut self, line: &Line) {
        if let Line::Asked { worker: _, order } = line {
            self.core.step(order, &mut self.tolds);
        }
    }

    // Whether the owner's request for byte 0 of the node would close a circle.
    fn closes(&self, class: Class, owner: u64, node: u64) -> bool {
        let key = Key { class, node, owner };
        self.core
            .circle(&key, &Range { start: 0, end: 0 }, Kind::Write)
    }
}

// Only a record lock of the first file does, and only for owner 8.
fn circles_are_told(rt: &impl Abort, directory: &Directory) {
    assert!(rt; directory.closes(Class::Record, 8, 2));
    assert!(rt; !directory.closes(Class::Flock, 8, 2));
    assert!(rt; !directory.closes(Class::Record, 9, 2));
    assert!(rt; !directory.closes(Class::Record, 8, 4));
}

#[test]
fn a_circle_is_told(rt: HostRuntime) {
    let trace = read(&rt, rt.alloc(), WAITS);
    let mut directory = Directory::new(&rt, rt.alloc());
    for at in 0..trace.len() {
        directory.take(&trace.line(at));
    }
    circles_are_told(&rt, &directory);
}
