//! The last orders and replies of a history, and what they say of the order of a unique.

ghost use Rattle.std.specs.Prelude.{◌≡◌, ◌≤◌, ◌<◌, ◌+◌, ◌-◌, ◌^◌, ◌++◌, ◌∷◌, [], length, drop, min, IfOk, Some};
ghost use Rattle.std.specs.VecDeque.{deque_capacity, deque_len};
ghost use Rattle.fl_history.specs.Inside.Entries.{asks_of, entry_of, last_kept, recalled_by};
ghost use Rattle.fl_history.specs.Recent.{recalled, recent, spoken};
ghost use Rattle.fl_history.specs.declared.history.Line.TheVariants as line;

use crate::history::Line;
use crate::past::Past;
use fl_order::{NoMemory, Order, Told};
use std::alloc::Global;
use std::collections::VecDeque;
use std::marker::Model;

// So many orders and replies are kept.
const KEPT: usize = 65_536;

const _: () = prove!(size_of::<Entry>() == 64);

/// What lines say of the order of a unique.
#[derive(Clone, Copy, Debug, PartialEq, Eq)]
pub enum Recalled {
    /// So many of them ask for it, and none behind the first of these replies. Several do if it is a BATCH_FORGET.
    Asked(u32),
    /// The last reply to it, with no line behind that asks for it again.
    Told(Told),
}

/// What is kept of an order or a reply.
#[derive(Clone, Copy, Debug)]
enum Entry {
    /// An order with this unique.
    Asked(u64),
    /// A reply.
    Told(Told),
}

impl Entry {
    // What lines say of a unique, with this one behind those before.
    fn recalled(&self, unique: u64, before: Recalled) -> Recalled
        requires { asks_of before < 2 ^ 31 }
        ensures { result ≡ recalled_by unique before self.now }
    {
        match (*self, before) {
            (Entry::Asked(asked), Recalled::Asked(count)) if asked == unique => {
                Recalled::Asked(count + 1)
            }
            (Entry::Asked(asked), Recalled::Told(_)) if asked == unique => Recalled::Asked(1),
            (Entry::Told(told), _) if told.unique == unique => Recalled::Told(told),
            _ => before,
        }
    }
}

/// The last 65,536 orders and replies of a history: lines of heads don't count. Contracts see all lines that were
/// pushed.
#[derive(Drop)]
pub struct Recent {
    // What is kept of these, in a room that never grows.
    entries: VecDeque<Entry>,
    past: Past<Line>,
}

impl Model for Recent {
    ghost use Rattle.std.specs.Prelude.{◌≡◌, ◌≤◌, List};
    ghost use Rattle.std.specs.VecDeque.{deque_capacity};
    ghost use Rattle.fl_history.specs.Inside.Entries.{entries_of};
    ghost use Rattle.fl_history.specs.Recent.{recent};
    ghost use Rattle.fl_history.specs.declared.history.Line.{Line};

    ghost Value = { List Line };

    ghost view = { λ r. r.past.items };

    ghost invariant = { λ r. (r.entries.items ≡ entries_of (recent r.past.items))
        × (65536 ≤ deque_capacity r.entries) };
}

impl Recent {
    /// No lines, and memory for as many orders and replies as are kept.
    pub fn new(alloc: Global) -> Result<Recent, NoMemory>
        ensures { IfOk result (λ r. r ≡ []) }
    {
        Ok(Recent {
            entries: VecDeque::with_capacity(alloc, KEPT)?,
            past: Past::new(),
        })
    }

    /// One line more, after the others. It takes no memory, and one of a head takes no place of an order or a reply.
    pub fn push(&mut self, line: &Line)
        ensures { self.new ≡ self.old ++ line.now ∷ [] }
    {
        match line {
            Line::Asked { worker, order } => self.push_asked(*worker, order),
            Line::Told(told) => self.push_told(told),
            Line::State(_) => self.past = self.past.and(line),
        }
    }

    /// An order of a worker more. It takes no memory.
    pub fn push_asked(&mut self, worker: u32, order: &Order)
        ensures { self.new ≡ self.old ++ line.Asked worker order.now ∷ [] }
    {
        let line = Line::Asked {
            worker,
            order: *order,
        };
        self.keep(Entry::Asked(order.unique), &line);
    }

    /// A reply more. It takes no memory.
    pub fn push_told(&mut self, told: &Told)
        ensures { self.new ≡ self.old ++ line.Told told.now ∷ [] }
    {
        self.keep(Entry::Told(*told), &Line::Told(*told));
    }

    // An order or a reply more, of which this is kept. The line is for proofs alone.
    #[inline(always)]
    fn keep(&mut self, entry: Entry, line: &Line)
        requires { entry_of line.now ≡ Some entry }
        ensures { self.new ≡ self.old ++ line.now ∷ [] }
    {
        push_last(&mut self.entries, entry);
        self.past = self.past.and(line);
    }

    /// How many orders and replies are kept: all that were pushed, or 65,536.
    pub fn kept(&self) -> usize
        ensures { result ≡ min 65536 (length (spoken self.now)) }
    {
        self.entries.len()
    }

    /// The lines of another, behind these. It takes no memory.
    pub fn extend(&mut self, later: &Recent)
        ensures { self.new ≡ self.old ++ later.now }
    {
        push_all(&mut self.entries, &later.entries);
        self.past = self.past.followed_by(&later.past);
    }

    /// What the last 65,536 orders and replies say of a unique.
    pub fn recall(&self, unique: u64) -> Recalled
        ensures { result ≡ recalled unique (recent self.now) }
    {
        let mut recalled = Recalled::Asked(0);
        for entry in self.entries.iter() {
            recalled = entry.recalled(unique, recalled);
        }
        recalled
    }
}

// Keeps as many of these and of others behind them as are kept, the last.
fn push_all(entries: &mut VecDeque<Entry>, later: &VecDeque<Entry>)
    requires few { length entries.old.items ≤ 65536 }
    requires room { 65536 ≤ deque_capacity entries.old }
    ensures items { entries.new.items ≡ last_kept (entries.old.items ++ later.now.items) }
    ensures room { 65536 ≤ deque_capacity entries.new }
{
    for entry in later.iter() {
        push_last(entries, *entry);
    }
}

// One more, of as many as are kept: the oldest goes, if there is no room.
fn push_last(entries: &mut VecDeque<Entry>, entry: Entry)
    requires few { length entries.old.items ≤ 65536 }
    requires room { 65536 ≤ deque_capacity entries.old }
    ensures items { entries.new.items ≡ drop (length entries.old.items + 1 - 65536) entries.old.items ++ entry ∷ [] }
    ensures room { 65536 ≤ deque_capacity entries.new }
{
    if entries.len() >= KEPT {
        entries.pop_front();
    }
    let Ok(()) = entries.push_back(entry) else {
        unreachable!()
    };
}
