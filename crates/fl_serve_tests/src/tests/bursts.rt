//! Orders that come together, as many as there are workers, each of which has to find a worker of its own.

use super::fault_is;
use fl_core::Rules;
use fl_serve::{Done, Gate, serve};
use fl_testing::{Messages, of_workers};
use std::alloc::Global;
use std::io::{Read, Write};
use std::net::{Net, Shutdown};
use std::os::unix::net::UnixStream;
use std::process::Abort;
use std::sync::Wait;
use std::sync::atomic::{AtomicBool, AtomicU64, Ordering};
use std::thread;
use std::thread::{Threads, yield_now};
use std::time::Duration;

// Holds each order until all of its burst have come, and the first of them until the client has the reply to another.
// Uniques begin at 2.
#[derive(Drop)]
struct Meeting {
    size: u64,
    come: AtomicU64,
    answered: AtomicU64,
    given_up: AtomicBool,
}

impl Meeting {
    // So many orders have come, and so many replies.
    fn has(&self, come: u64, answered: u64) -> bool {
        self.come.load(Ordering::SeqCst) >= come && self.answered.load(Ordering::SeqCst) >= answered
    }

    // How many replies have to come before this order passes, the one at this place behind so many of other bursts.
    fn wants(&self, place: u64, before: u64) -> u64 {
        if place == before {
            before.saturating_add(1)
        } else {
            0
        }
    }
}

impl Gate for Meeting {
    fn pass(&self, unique: u64) {
        let place = unique.saturating_sub(2);
        let burst = place.checked_div(self.size).unwrap_or(0);
        let before = burst.saturating_mul(self.size);
        let come = before.saturating_add(self.size);
        let answered = self.wants(place, before);
        self.come.fetch_add(1, Ordering::SeqCst);
        for _ in 0..10_000_000 {
            if self.has(come, answered) || self.given_up.load(Ordering::SeqCst) {
                return;
            }
            yield_now();
        }
        self.given_up.store(true, Ordering::SeqCst);
    }

    fn sent(&self, _unique: u64) {}
}

// Orders of so many uniques from one on.
fn fill(rt: &impl Abort, burst: &mut Messages, from: u64, size: u32) {
    for at in 0..size {
        let unique = from.saturating_add(u64::from(at));
        burst.seek(unique).expect(rt, "memory");
    }
}

// Sends these messages, and takes them out.
fn send(rt: &impl Abort, stream: &UnixStream, messages: &mut Messages) {
    let mut out = stream;
    out.write_all(&messages.bytes).expect(rt, "a write");
    messages.bytes.clear();
}

// Waits for so many times 16 bytes: a reply to an order of a burst has as many, and that to the INIT five times that.
fn take(rt: &impl Abort, stream: &UnixStream, times: u32) {
    let mut reads = stream;
    let mut bytes = [0; 16];
    for _ in 0..times {
        reads.read_exact(&mut bytes).expect(rt, "a reply");
    }
}

// Waits for the replies to a burst, and says of each that it has come.
fn take_replies(rt: &impl Abort, stream: &UnixStream, size: u32, gate: &Meeting) {
    for _ in 0..size {
        take(rt, stream, 1);
        gate.answered.fetch_add(1, Ordering::SeqCst);
    }
}

fn waits_for_seconds(rt: &impl Abort, stream: &UnixStream) {
    let most = Some(Duration::from_secs(20));
    stream.set_read_timeout(most).expect(rt, "a socket");
    stream.set_write_timeout(most).expect(rt, "a socket");
}

// Sends 100 bursts, each as soon as all replies to the one before have come, so that a worker looks and others sleep.
fn send_bursts(rt: &impl Abort, alloc: Global, stream: &UnixStream, size: u32, gate: &Meeting) {
    waits_for_seconds(rt, stream);
    let mut messages = Messages::with_init(alloc).expect(rt, "memory");
    send(rt, stream, &mut messages);
    take(rt, stream, 5);
    let mut from = 2u64;
    for _ in 0..100 {
        fill(rt, &mut messages, from, size);
        send(rt, stream, &mut messages);
        take_replies(rt, stream, size, gate);
        from = from.saturating_add(u64::from(size));
    }
    stream.shutdown(Shutdown::Write).expect(rt, "a socket");
}

// Serves a client at the other end of a socket.
fn serve_stream<R: Threads + Wait + Sync>(
    rt: &R,
    alloc: Global,
    stream: &UnixStream,
    workers: u32,
    gate: &Meeting,
) -> Done {
    let mut input = stream;
    let mut output = stream;
    let rules = Rules::standard();
    serve(
        rt,
        alloc,
        &mut input,
        &mut output,
        of_workers(workers),
        rules,
        gate,
    )
}

// A session of bursts with a server of so many workers.
fn session<R: Abort + Threads + Wait + Net + Sync>(
    rt: &R,
    alloc: Global,
    workers: u32,
    gate: &Meeting,
) -> Done {
    let (near, far) = UnixStream::pair(rt).expect(rt, "a socket");
    let ((), done) = thread::join(
        rt,
        move || send_bursts(rt, alloc, &near, workers, gate),
        move || serve_stream(rt, alloc, &far, workers, gate),
    );
    done
}

fn has_met(rt: &impl Abort, done: &Done, gate: &Meeting, workers: u32) {
    assert!(rt; !gate.given_up.load(Ordering::SeqCst));
    fault_is(rt, done.fault, None);
    assert!(rt; !done.refused);
    let lines = (workers as usize).saturating_mul(200);
    assert_eq!(rt; done.history.len(), lines);
}

#[test]
fn no_order_waits_for_a_worker_while_another_sleeps(rt: HostRuntime) {
    for workers in [2, 4, 16] {
        let gate = Meeting {
            size: u64::from(workers),
            come: AtomicU64::new(0),
            answered: AtomicU64::new(0),
            given_up: AtomicBool::new(false),
        };
        let done = session(&rt, rt.alloc(), workers, &gate);
        has_met(&rt, &done, &gate, workers);
    }
}
