//! A trace that is read and printed. `tests/commands/allocations.py` runs this with each of its allocations refused,
//! one in each run. So what says that there is no memory has to do its work when it is tried again.

use super::{LINES, TRACE, count_is, holds};
use fl_history::History;
use fl_stream::{TraceFault, print_trace, read_trace};
use std::alloc::Global;
use std::process::Abort;

fn is_of_memory(rt: &impl Abort, fault: TraceFault) {
    assert_eq!(rt; fault, TraceFault::NoMemory);
}

fn read(rt: &impl Abort, alloc: Global) -> History {
    match read_trace(alloc, TRACE.as_bytes()) {
        Ok(history) => history,
        Err(fault) => {
            is_of_memory(rt, fault);
            read_trace(alloc, TRACE.as_bytes()).expect(rt, "memory")
        }
    }
}

fn print(rt: &impl Abort, alloc: Global, history: &History) -> String {
    match print_trace(alloc, history) {
        Ok(text) => text,
        Err(_) => print_trace(alloc, history).expect(rt, "memory"),
    }
}

#[test]
fn a_trace_is_read_and_printed_by_the_second_try(rt: HostRuntime) {
    let history = read(&rt, rt.alloc());
    count_is(&rt, history.len(), LINES);
    let text = print(&rt, rt.alloc(), &history);
    holds(&rt, text.as_bytes(), TRACE.as_bytes());
}
