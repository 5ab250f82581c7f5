//! How a session with workers is served, and what comes of it.

ghost use Rattle.std.specs.Prelude.{◌≡◌, false};

use fl_transport::Fault;
use fl_waiting::Rules;
use fl_workers::Counter;

// Bytes of a worker's stack.
const STACK_BYTES: usize = 2 << 20;

/// How a session with workers is served: by how many of them, under which rules, with how many bytes for each worker's
/// stack, and where the first works. If a thread can't be made with such a stack, the fault is `NoMemory`.
#[derive(Clone, Copy, Debug)]
pub struct Staff {
    /// How many workers, 1 to 16.
    pub workers: u32,
    /// By which rules requests wait.
    pub rules: Rules,
    /// Bytes of a worker's stack.
    pub stack: usize,
    /// The first worker works in the thread that reads, and takes each order that comes while no other worker has one.
    /// Nothing is read while it waits: so this is for a gate that never waits, and for a journal whose lines may leave
    /// after replies.
    pub inline: bool,
}

impl Staff {
    /// So many workers, under these rules, each in a thread of its own, with stacks of 2 MiB.
    pub fn new(workers: u32, rules: Rules) -> Staff
        ensures { (result.workers ≡ workers) × (result.rules ≡ rules) × (result.stack ≡ 2097152)
            × (result.inline ≡ false) }
    {
        Staff {
            workers,
            rules,
            stack: STACK_BYTES,
            inline: false,
        }
    }

    /// The same staff. `inline` says whether the first worker works in the thread that reads.
    pub fn with_inline(self, inline: bool) -> Staff
        ensures { result ≡ record self { inline = inline } }
    {
        Staff { inline, ..self }
    }
}

/// What comes of a session that was read.
#[derive(Drop)]
pub struct Served<C: Counter> {
    /// Where its orders were handed in.
    pub counter: C,
    /// The seats of its workers, in the order of workers.
    pub seats: Vec<C::Seat>,
    /// Some order was refused.
    pub refused: bool,
    /// It is known that all replies were given to be sent.
    pub known: bool,
    /// How it ended.
    pub fault: Option<Fault>,
}
