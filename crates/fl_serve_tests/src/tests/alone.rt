//! Sessions of one worker over memory: those in which a reader waits behind a writer that waits, by both rules.

use super::{are_bytes, fault_is};
use fl_book::{Verdict, check};
use fl_core::Rules;
use fl_history::History;
use fl_serve::{Done, OpenGate, run_one, serve};
use fl_stream::print_trace;
use fl_testing::{bytes_after, fair_sessions};
use std::alloc::Global;
use std::process::Abort;
use std::sync::Wait;
use std::thread::Threads;

// The result of a session, and all its replies.
#[derive(Drop)]
struct Came {
    done: Done,
    out: Vec<u8>,
}

fn served<R: Threads + Wait + Sync>(rt: &R, alloc: Global, messages: &[u8], rules: Rules) -> Came {
    let mut input = messages;
    let mut out = Vec::new(alloc);
    let done = serve(rt, alloc, &mut input, &mut out, 1, rules, &OpenGate);
    Came { done, out }
}

fn fair() -> Rules {
    Rules::standard().with_fair(true)
}

// The bytes that the lines of a session with this mark spell.
fn spelled(rt: &impl Abort, alloc: Global, case: &str, mark: &str) -> Vec<u8> {
    bytes_after(alloc, case, mark).expect(rt, "hex")
}

// Under these rules this is said of a history.
fn verdict_is(rt: &impl Abort, alloc: Global, history: &History, rules: Rules, wanted: Verdict) {
    let verdict = check(alloc, history, rules).expect(rt, "memory");
    assert_eq!(rt; verdict, wanted);
}

// Under fair rules a session gets these replies. By the standard rules the reader would have a reply first, which is
// missing on the seventh line.
fn has_waited(rt: &impl Abort, alloc: Global, came: &Came, replies: &[u8]) {
    fault_is(rt, came.done.fault, None);
    are_bytes(rt, &came.out, replies);
    let history = &came.done.history;
    verdict_is(rt, alloc, history, fair(), Verdict::Legal);
    let standard = Rules::standard();
    verdict_is(rt, alloc, history, standard, Verdict::Differs(7));
}

fn waits<R: Abort + Threads + Wait + Sync>(rt: &R, alloc: Global, case: &str) {
    let messages = spelled(rt, alloc, case, "> ");
    let came = served(rt, alloc, &messages, fair());
    has_waited(rt, alloc, &came, &spelled(rt, alloc, case, "< "));
}

#[test]
fn a_reader_waits_behind_a_writer(rt: HostRuntime) {
    for case in fair_sessions().split('#').skip(1) {
        waits(&rt, rt.alloc(), case);
    }
}

// The result of a session without workers.
fn run_alone(alloc: Global, messages: &[u8]) -> Came {
    let mut input = messages;
    let mut out = Vec::new(alloc);
    let done = run_one(alloc, &mut input, &mut out, Rules::standard());
    Came { done, out }
}

// The one history has the lines of the other.
fn are_alike(rt: &impl Abort, alloc: Global, found: &History, wanted: &History) {
    let found = print_trace(alloc, found).expect(rt, "memory");
    let wanted = print_trace(alloc, wanted).expect(rt, "memory");
    are_bytes(rt, found.as_bytes(), wanted.as_bytes());
}

fn came_alike(rt: &impl Abort, alloc: Global, came: &Came, wanted: &Came) {
    are_bytes(rt, &came.out, &wanted.out);
    fault_is(rt, came.done.fault, None);
    assert!(rt; !came.done.refused);
    assert!(rt; !came.done.history.is_empty());
    are_alike(rt, alloc, &came.done.history, &wanted.done.history);
}

fn serves_alike<R: Abort + Threads + Wait + Sync>(rt: &R, alloc: Global, case: &str) {
    let messages = spelled(rt, alloc, case, "> ");
    let came = served(rt, alloc, &messages, Rules::standard());
    came_alike(rt, alloc, &came, &run_alone(alloc, &messages));
}

// What one worker sends and records is what a session without workers sends and records, if no order only reads.
#[test]
fn one_worker_sends_the_same_bytes(rt: HostRuntime) {
    for case in fair_sessions().split('#').skip(1) {
        serves_alike(&rt, rt.alloc(), case);
    }
}
