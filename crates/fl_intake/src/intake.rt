//! The intake: what is put at one end is taken at 1 to 16 others.

ghost use Rattle.std.specs.Prelude.{◌≡◌, ◌<◌, ◌≤◌, ◌+◌, ◌++◌, ◌∷◌, ◌↔◌, [], All, true, false, length, sum_by};
ghost use Rattle.std.specs.Prelude.{vec_capacity, IfErr, IfOk, IsErr, MatchResult, OnErr, OnOk, option_to_list};
ghost use Rattle.crossbeam_queue.specs.Passes.{view, IsPassOf};
ghost use Rattle.fl_intake.specs.Ends.{weight_taken};
ghost use Rattle.fl_intake.specs.Often.{Weight};

use crate::ends::{Closed, Job, PutEnd, TakeEnd};
use crate::entry::{Entry, FreeBoxes};
use crate::rule::{EndPass, OrderQueue, Putting, Sharing, Taking};
use crate::waking::Waking;
use fl_order::NoMemory;
use std::alloc::Global;
use std::marker::Model;
use std::sync::Wait;

/// The most jobs that wait for a worker.
pub const MOST_JOBS: usize = 64;

/// A queue of at most 64 jobs, the oldest first, which can be closed. Contracts see which one it is.
pub struct Intake {
    queue: OrderQueue,
    boxes: FreeBoxes,
    waking: Waking,
}

impl Model for Intake {
    ghost use Rattle.std.specs.Prelude.{◌≡◌};
    ghost use Rattle.atomic_table.specs.Seated.{TableId, table_id_coded};
    ghost use Rattle.crossbeam_queue.specs.Passes.{ruled_capacity};

    ghost Value = { TableId };

    ghost coded = { table_id_coded };

    ghost view = { λ i. i.queue.table.shared.table_id };

    ghost invariant = { λ i. ruled_capacity i.queue ≡ 64 };
}

impl Drop for Intake {
    // One call for an owner, and not a step for each part.
    fn drop(self) {
        let Intake {
            queue: _queue,
            boxes: _boxes,
            waking: _waking,
        } = self;
    }
}

/// Ends that take are missing. All comes back.
#[derive(Drop)]
pub struct NotAll {
    /// The intake, as it was.
    pub intake: Intake,
    /// Its end that puts.
    pub put: PutEnd,
    /// The ends that take which were handed back.
    pub takes: Vec<TakeEnd>,
}

impl Intake {
    /// An open intake with room for 64 jobs, the end that puts, and 1 to 16 ends that take.
    pub fn new(alloc: Global, takers: u32) -> Result<(Intake, PutEnd, Vec<TakeEnd>), NoMemory>
        requires takers { (0 < takers) × (takers ≤ 16) }
        ensures put { IfOk result (λ made. (made.1.of ≡ made.0) × (made.1.takers ≡ takers)
            × (made.1.put ≡ []) × (made.1.closed ≡ false)) }
        ensures takes { IfOk result (λ made. All (λ end. (end.of ≡ made.0) × (end.taken ≡ [])) made.2.items) }
        ensures takers { IfOk result (λ made. length made.2.items ≡ takers) }
    {
        let room = Vec::with_capacity(alloc, MOST_JOBS)?;
        let mut takes = Vec::with_capacity(alloc, takers as usize)?;
        let boxes = FreeBoxes::new(alloc, takers)?;
        let (queue, mut pass) = OrderQueue::ruled(alloc, MOST_JOBS)?;
        for _ in 0..takers {
            let share = queue.another::<Sharing>(&mut pass);
            takes.push_reserved(TakeEnd { pass: share });
        }
        let put = PutEnd {
            pass,
            takers,
            closed: false,
            room,
        };
        let intake = Intake {
            queue,
            boxes,
            waking: Waking::new(takers),
        };
        Ok((intake, put, takes))
    }

    /// Puts a job behind the others, and waits while 64 are inside. It puts nothing if its end is closed.
    pub fn put<R: Wait>(&self, rt: &R, end: &mut PutEnd, job: &Job) -> Result<(), Closed>
        requires end { end.old.of ≡ self.now }
        ensures of { (end.new.of ≡ end.old.of) × (end.new.takers ≡ end.old.takers) }
        ensures state { end.new.closed ≡ end.old.closed }
        ensures put { OnOk result (end.new.put ≡ end.old.put ++ job.now ∷ []) }
        ensures same { OnErr result (end.new ≡ end.old) }
        ensures closed { IsErr result ↔ (end.old.closed ≡ true) }
    {
        if end.closed {
            return Err(Closed);
        }
        let mut entry = self.entry_of(rt, job);
        for _ in rt.forever() {
            match self.put_if_room(rt, end, entry) {
                Ok(()) => {
                    self.waking.count_put();
                    return Ok(());
                }
                Err(back) => entry = back,
            }
            self.waking.wait_for_room(rt);
        }
        unreachable!()
    }

    // What lies in the queue for a job. It waits for a box, if the job has a name and no box is free.
    fn entry_of<R: Wait>(&self, rt: &R, job: &Job) -> Entry
        ensures { result ≡ job.now }
    {
        for _ in rt.forever() {
            if let Some(entry) = self.boxes.entry_of(rt, job) {
                return entry;
            }
            self.waking.wait_for_room(rt);
        }
        unreachable!()
    }

    // Puts a job, if there is room. Else it hands it back.
    fn put_if_room<R: Wait>(&self, rt: &R, end: &mut PutEnd, entry: Entry) -> Result<(), Entry>
        requires end { end.old.of ≡ self.now }
        ensures of { (end.new.of ≡ end.old.of) × (end.new.takers ≡ end.old.takers) }
        ensures state { end.new.closed ≡ end.old.closed }
        ensures put { MatchResult result (λ _. end.new.put ≡ end.old.put ++ entry ∷ [])
            (λ back. (back ≡ entry) × (end.new ≡ end.old)) }
    {
        self.queue.push_as::<Putting, R>(rt, &mut end.pass, entry)
    }

    /// Takes the oldest job into a batch that has none, and waits while none is inside. It takes none once the intake
    /// is closed and empty.
    pub fn take<R: Wait>(&self, rt: &R, end: &mut TakeEnd, batch: &mut Vec<Job>)
        requires end { end.old.of ≡ self.now }
        requires none { batch.old.items ≡ [] }
        requires room { 0 < vec_capacity batch.old }
        ensures same { end.new.of ≡ end.old.of }
        ensures taken { end.new.taken ≡ end.old.taken ++ batch.new.items }
        ensures one { length batch.new.items ≤ 1 }
        ensures room { vec_capacity batch.new ≡ vec_capacity batch.old }
    {
        let mut slept = false;
        for _ in rt.forever() {
            // Whoever closes puts nothing afterwards. So if it is closed before this try, the try misses no job.
            let closed = self.waking.is_closed();
            if let Some(entry) = self.pop(rt, end) {
                batch.push_reserved(self.boxes.order_of(rt, entry));
                self.waking.count_taken(1);
                if slept {
                    self.waking.call_one_more();
                }
                return;
            }
            if closed {
                return;
            }
            self.waking.sleep(rt);
            slept = true;
        }
        unreachable!()
    }

    /// Takes several jobs, the oldest first, into a batch that has none. They are this end's share of those inside:
    /// their number divided by that of the ends that take, and one at least. It takes no more than the batch has room
    /// for. It doesn't sleep, and takes none if none is inside.
    pub fn take_many<R: Wait>(&self, rt: &R, end: &mut TakeEnd, batch: &mut Vec<Job>)
        requires end { end.old.of ≡ self.now }
        requires none { batch.old.items ≡ [] }
        ensures same { end.new.of ≡ end.old.of }
        ensures taken { end.new.taken ≡ end.old.taken ++ batch.new.items }
        ensures room { vec_capacity batch.new ≡ vec_capacity batch.old }
    {
        let most = self.waking.share().min(batch.capacity() as u64);
        for _ in 0..most {
            let Some(entry) = self.pop(rt, end) else {
                break;
            };
            batch.push_reserved(self.boxes.order_of(rt, entry));
        }
        if !batch.is_empty() {
            self.waking.count_taken(batch.len() as u64);
        }
    }

    // Takes the oldest job out of the queue, if there is one. Whoever calls it counts what it took.
    fn pop<R: Wait>(&self, rt: &R, end: &mut TakeEnd) -> Option<Entry>
        requires end { end.old.of ≡ self.now }
        ensures same { end.new.of ≡ end.old.of }
        ensures taken { end.new.taken ≡ end.old.taken ++ option_to_list result }
    {
        self.queue.pop_as::<Taking, R>(rt, &mut end.pass)
    }

    /// Spins for some 70 microseconds, until a job is inside, if no other worker does. It doesn't sleep. Whoever
    /// has spun has to call `take_many` or `take` next, since nobody is woken for a job that comes while it spins.
    pub fn spin(&self) {
        self.waking.spin();
    }

    /// Wakes one more worker, if jobs are inside and one sleeps, for the case that those awake are held up.
    /// Whoever puts calls it before it does anything else that may take long, as a read: no `put` comes then that
    /// wakes one.
    pub fn call_one_more(&self) {
        self.waking.call_one_more();
    }

    /// Nobody takes through this end from here on: whoever puts calls the others alone. `finish` still needs it.
    pub fn rest(&self, _end: &TakeEnd) {
        self.waking.rest();
    }

    /// Whether no job is inside, and nobody who takes is at work with one. Whoever puts may ask.
    pub fn is_at_rest(&self) -> bool {
        self.waking.is_at_rest()
    }

    /// No more jobs may come through this end. Those inside are still taken. It waits for nobody.
    pub fn close(&self, end: &mut PutEnd)
        requires end { end.old.of ≡ self.now }
        ensures same { (end.new.of ≡ end.old.of) × (end.new.takers ≡ end.old.takers) × (end.new.put ≡ end.old.put) }
        ensures closed { end.new.closed ≡ true }
    {
        end.closed = true;
        self.waking.close();
    }

    /// The jobs that are left inside, the oldest first, if no end that takes is missing. What was put is, each as
    /// often, what was taken and what is left.
    pub fn finish<R: Wait>(
        self,
        rt: &R,
        put: PutEnd,
        takes: Vec<TakeEnd>,
    ) -> Result<Vec<Job>, NotAll>
        requires put { put.of ≡ self }
        requires takes { All (λ end. end.of ≡ self) takes.items }
        ensures left { IfOk result (λ left. (weight : Weight)
            → sum_by weight put.put ≡ weight_taken weight takes.items + sum_by weight left.items) }
        ensures missing { IsErr result ↔ (length takes.items < put.takers) }
        ensures back { IfErr result (λ back. back ≡ record { intake = self; put = put; takes = takes }) }
    {
        if takes.len() < put.takers as usize {
            return Err(NotAll {
                intake: self,
                put,
                takes,
            });
        }
        let Intake {
            queue,
            boxes,
            waking: _waking,
        } = self;
        let (pass, room) = put.into_parts();
        let pass = merged(&queue, pass, takes);
        Ok(drained(rt, &queue, &boxes, pass, room))
    }
}

// A pass that knows what all of these know.
fn merged(queue: &OrderQueue, pass: EndPass, takes: Vec<TakeEnd>) -> EndPass
    requires pass { IsPassOf queue.now pass × (0 < (view pass).shares) }
    requires takes { All (λ end. end.of ≡ queue.now.table.shared.table_id) takes.items }
    ensures pass { IsPassOf queue.now result }
    ensures shares { (view result).shares ≡ (view pass).shares + length takes.items }
    ensures put { (weight : Weight) → sum_by weight (view result).put ≡ sum_by weight (view pass).put }
    ensures taken { (weight : Weight) → sum_by weight (view result).taken
        ≡ sum_by weight (view pass).taken + weight_taken weight takes.items }
{
    let mut pass = pass;
    for end in takes {
        let other = end.into_pass();
        queue.absorb::<Sharing>(&mut pass, other);
    }
    pass
}

// Takes out what is inside, by a pass that knows all that was put and taken.
fn drained<R: Wait>(
    rt: &R,
    queue: &OrderQueue,
    boxes: &FreeBoxes,
    pass: EndPass,
    room: Vec<Job>,
) -> Vec<Job>
    requires pass { IsPassOf queue.now pass × (17 ≤ (view pass).shares) }
    requires room { (room.items ≡ []) × (64 ≤ vec_capacity room) }
    ensures left { (weight : Weight) → sum_by weight (view pass).put
        ≡ sum_by weight (view pass).taken + sum_by weight result.items }
{
    let mut pass = pass;
    let mut room = room;
    queue.learn_as::<Taking>(&mut pass);
    for _ in rt.forever() {
        let Some(entry) = queue.pop_as::<Taking, R>(rt, &mut pass) else {
            return room;
        };
        room.push_reserved(boxes.order_of(rt, entry));
    }
    unreachable!()
}
