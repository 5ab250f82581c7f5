//! Replies through an outbox whose writer breaks, and a session over memory.

use fl_core::Rules;
use fl_session::run_one;
use fl_testing::{Sink, Trouble, bytes_after, init, init_reply};
use fl_transport::Outbox;
use std::alloc::Global;
use std::io::ErrorKind;
use std::process::Abort;

// These are the bytes that are wanted.
fn are_bytes(rt: &impl Abort, found: &[u8], wanted: &[u8]) {
    assert_eq!(rt; found, wanted);
}

// The reply goes out whole, or the outbox is broken.
fn sends(rt: &impl Abort, outbox: &mut Outbox<&mut Sink>, reply: &[u8], whole: bool) {
    assert!(rt; outbox.send(reply).is_ok() == whole);
}

// Three go out whole, the first of which has no bytes and takes no write.
const REPLIES: [&[u8]; 6] = [
    b"",
    b"sixteen bytes ok",
    b"and ten ok",
    b"not all of this",
    b"nor this",
    b"",
];

// Replies by way of a writer that takes pieces of at most 7 bytes, and fails or takes nothing once, behind six. Five
// are two replies, and one is the front of the third. Nothing more goes out, and a broken outbox refuses no bytes too.
fn break_once(rt: &impl Abort, alloc: Global, kind: Option<ErrorKind>) {
    let mut sink = Sink::new(alloc, 7, Trouble::once(6, kind));
    let mut outbox = Outbox::new(&mut sink);
    for (place, reply) in REPLIES.iter().enumerate() {
        sends(rt, &mut outbox, reply, place < 3);
    }
    are_bytes(rt, &sink.held, b"sixteen bytes okand ten oknot all");
}

#[test]
fn replies_and_a_broken_one(rt: HostRuntime) {
    break_once(&rt, rt.alloc(), None);
    break_once(&rt, rt.alloc(), Some(ErrorKind::Other));
    break_once(&rt, rt.alloc(), Some(ErrorKind::Interrupted));
}

#[test]
fn a_session_over_memory(rt: HostRuntime) {
    let alloc = rt.alloc();
    let stream = bytes_after(alloc, init(), "").expect(&rt, "hex");
    let mut out = Vec::new(alloc);
    let done = run_one(alloc, &mut stream.as_slice(), &mut out, Rules::standard());
    assert!(&rt; done.fault.is_none());
    let wanted = bytes_after(alloc, init_reply(), "").expect(&rt, "hex");
    are_bytes(&rt, &out, &wanted);
}
