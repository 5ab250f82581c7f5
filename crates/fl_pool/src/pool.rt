//! The threads of a session: how its workers are started, run and joined.

ghost use Rattle.std.specs.Prelude.{◌≡◌, ◌≤◌, ◌<◌, ◌+◌, ◌++◌, ℕ, [], All, IfSome, List, MatchOption, false, true};
ghost use Rattle.std.specs.Prelude.{length, map, option_to_list, vec_capacity};
ghost use Rattle.std.specs.Io.KnownBytes.{Keeps};
ghost use Rattle.fl_pool.specs.Running.{CanRun, HasRun, HaveWorked, IsInline, IsReady};
ghost use Rattle.fl_pool.specs.Working.{HasComeBack, IsFresh, reading};
ghost use Rattle.fl_counter.specs.Asked.{Orders};

use crate::crew::{Back, Crew, Worker};
use core::thread::Stack;
use fl_intake::{Intake, PutEnd, TakeEnd};
use fl_log::Appender;
use fl_transport::Inbox;
use fl_workers::{
    Counter, Dispatcher, Failures, Gate, InlineWorker, Post, Received, ReplyEntry, SharedSender,
    WriterName, receive_all, worker_loop,
};
use std::io::{Read, Write};
use std::marker::PhantomData;
use std::snapshot::Snapshot;
use std::sync::{Mutex, Wait};
use std::thread;
use std::thread::{Promise, PromisedHandle, Scope, Threads};

/// What the reader and the workers of a session share.
#[derive(Drop)]
pub struct WorkerPool<'a, 'w, C: Counter, N: WriterName, R: Wait, W: Write, G> {
    /// The right to start threads and to wait.
    pub rt: &'a R,
    /// The hook that is called for each order and reply.
    pub gate: &'a G,
    /// Bytes of a worker's stack.
    pub stack: usize,
    /// The first worker works in the thread of the reader.
    pub inline: bool,
    /// Where workers hand in.
    pub counter: C,
    /// Where orders come from.
    pub intake: Intake,
    /// The writer of the session, with the replies that wait for it.
    pub sender: Mutex<SharedSender<'w, W, N>>,
}

/// Whose seat comes back, and with which end, as it was.
#[derive(Drop)]
pub struct AtSeat<C> {
    /// Whose seat.
    pub worker: u32,
    /// The end, as it was.
    pub end: Snapshot<TakeEnd>,
    of: PhantomData<C>,
}

impl<C: Counter, N: WriterName> Promise<Worked<C, N>> for AtSeat<C> {
    ghost use Rattle.fl_pool.specs.Working.{HasComeBack, reading};

    ghost kept_by = { λ p r. HasComeBack (reading C.worker C.count C.answered C.front C.stored) C.shows p.worker
        p.end.value r.0.seat r.0.own r.1 r.2.refused r.2.lost };
}

/// What a worker gives back: its post, its end of the intake, and what went wrong with its orders.
pub type Worked<C, N> = (Post<<C as Counter>::Seat, N>, TakeEnd, Failures);

/// A worker that was started.
pub type Thread<C, N> = PromisedHandle<Worked<C, N>, AtSeat<C>>;

/// A session that ran: what its workers gave back, and how its receiver ended.
#[derive(Drop)]
pub struct Ran<C: Counter, N: WriterName> {
    /// What its workers gave back.
    pub back: Back<C, N>,
    /// How its receiver ended.
    pub received: Received<'static, N>,
}

impl<
    'a,
    'w,
    C: Counter + Send + Sync,
    N: WriterName + Send + Sync,
    R: Threads + Wait + Sync,
    W: Write + Send + Drop,
    G: Gate + Sync,
> WorkerPool<'a, 'w, C, N, R, W, G>
where
    C::Seat: Send + Drop,
{
    /// Runs a session: starts the workers, begins, reads until the session ends, closes the intake, and joins the
    /// workers. If one can't be started, nothing is read, and the session doesn't begin. `own` is what the session's
    /// own answers are given to be sent through.
    pub fn run<I: Read>(
        &self,
        r: &mut I,
        inbox: Inbox,
        put: PutEnd,
        crew: Crew<C, N>,
        own: Appender<N, ReplyEntry>,
    ) -> Option<Ran<C, N>>
        requires can { CanRun self.now.intake inbox put }
        requires ready { All (IsReady (reading C.worker C.count C.answered C.front C.stored)
            C.most_tolds self.now.intake) crew.workers.items }
        requires some { 0 < length crew.workers.items }
        ensures { MatchOption result (Keeps (I.remaining r.old) (I.remaining r.new))
            (HasRun (reading C.worker C.count C.answered C.front C.stored) C.shows self.now.intake put
            (map (λ worker. C.worker worker.post.seat) crew.workers.items)
            (I.remaining r.old) (I.remaining r.new) own) }
    {
        let rt = self.rt;
        let (ran, r) = thread::scope(
            thread::scope_env(),
            rt,
            move |scope| -> (Option<Ran<C, N>>, &mut I)
                requires can { CanRun self.now.intake inbox put }
                requires ready { All (IsReady (reading C.worker C.count C.answered C.front C.stored)
                    C.most_tolds self.now.intake) crew.workers.items }
                requires some { 0 < length crew.workers.items }
                ensures same { result.1.ghost_name ≡ r.entry.ghost_name }
                ensures ran { MatchOption result.0 (Keeps (I.remaining r.entry.now) (I.remaining result.1.now))
                    (HasRun (reading C.worker C.count C.answered C.front C.stored) C.shows self.entry.now.intake put
                    (map (λ worker. C.worker worker.post.seat) crew.workers.items)
                    (I.remaining r.entry.now) (I.remaining result.1.now) own) }
            {
                let ran = self.run_in(scope, r, inbox, put, crew, own);
                (ran, r)
            },
        );
        // No effect at run time: the proof reads here what the reader has left.
        let _ = &*r;
        ran
    }

    // The same, with threads of this scope.
    fn run_in<'s, E, I: Read>(
        &'s self,
        scope: &Scope<'s, E>,
        r: &mut I,
        inbox: Inbox,
        put: PutEnd,
        crew: Crew<C, N>,
        own: Appender<N, ReplyEntry>,
    ) -> Option<Ran<C, N>>
    where
        'a: 's,
        'w: 's,
        requires can { CanRun self.now.intake inbox put }
        requires ready { All (IsReady (reading C.worker C.count C.answered C.front C.stored)
            C.most_tolds self.now.intake) crew.workers.items }
        requires some { 0 < length crew.workers.items }
        ensures { MatchOption result (Keeps (I.remaining r.old) (I.remaining r.new))
            (HasRun (reading C.worker C.count C.answered C.front C.stored) C.shows self.now.intake put
            (map (λ worker. C.worker worker.post.seat) crew.workers.items)
            (I.remaining r.old) (I.remaining r.new) own) }
    {
        // Taken whole, so that what its type keeps is known here.
        let crew = crew;
        let Crew {
            mut workers,
            mut threads,
            back,
        } = crew;
        let first = self.first_of(&mut workers);
        if !self.start_all(scope, workers, &mut threads) {
            let mut put = put;
            self.intake.close(&mut put);
            return None;
        }
        self.begin();
        let ran = self.receive(first, r, inbox, put, own, back);
        Some(joined(self.rt, &self.intake, threads, ran))
    }

    // The worker that works in the thread of the reader, if one does: the first of these.
    fn first_of(&self, workers: &mut Vec<Worker<C, N>>) -> Option<Worker<C, N>>
        requires { 0 < length workers.old.items }
        ensures { workers.old.items ≡ option_to_list result ++ workers.new.items }
    {
        if self.inline {
            Some(workers.remove(0))
        } else {
            None
        }
    }

    // Starts these workers, and says whether all were started.
    fn start_all<'s, E>(
        &'s self,
        scope: &Scope<'s, E>,
        workers: Vec<Worker<C, N>>,
        threads: &mut Vec<Thread<C, N>>,
    ) -> bool
    where
        'a: 's,
        'w: 's,
        requires ready { All (IsReady (reading C.worker C.count C.answered C.front C.stored)
            C.most_tolds self.now.intake) workers.items }
        requires none { threads.old.items ≡ [] }
        requires room { length workers.items ≤ vec_capacity threads.old }
        ensures whose { result ≡ true
            → map (λ t. t.promise.worker) threads.new.items ≡ map (λ worker. C.worker worker.post.seat) workers.items }
        ensures ends { All (λ t. IsFresh self.now.intake t.promise.end.value) threads.new.items }
    {
        for worker in workers {
            let Some(thread) = self.start(scope, worker) else {
                return false;
            };
            threads.push_reserved(thread);
        }
        true
    }

    // Starts a worker, if a thread can be made.
    fn start<'s, E>(&'s self, scope: &Scope<'s, E>, worker: Worker<C, N>) -> Option<Thread<C, N>>
    where
        'a: 's,
        'w: 's,
        requires ready { IsReady (reading C.worker C.count C.answered C.front C.stored)
            C.most_tolds self.now.intake worker }
        ensures whose { IfSome result (λ t. t.promise.worker ≡ C.worker worker.post.seat) }
        ensures end { IfSome result (λ t. t.promise.end.value ≡ worker.end) }
    {
        let at = AtSeat {
            worker: worker.post.own.author(),
            end: Snapshot::of(&worker.end),
            of: PhantomData,
        };
        let stack = Stack::new().stack_size(self.stack);
        stack
            .spawn_scoped_with(
                scope,
                at,
                move || -> Worked<C, N>
                    requires { IsReady (reading C.worker C.count C.answered C.front C.stored)
                        C.most_tolds self.now.intake worker }
                    ensures { HasComeBack (reading C.worker C.count C.answered C.front C.stored) C.shows
                        (C.worker worker.post.seat) worker.end result.0.seat result.0.own result.1
                        result.2.refused result.2.lost }
                { self.work(worker) },
            )
            .ok()
    }

    // What a worker does in a thread of its own.
    fn work(&self, worker: Worker<C, N>) -> Worked<C, N>
        requires { IsReady (reading C.worker C.count C.answered C.front C.stored)
            C.most_tolds self.now.intake worker }
        ensures { HasComeBack (reading C.worker C.count C.answered C.front C.stored) C.shows
            (C.worker worker.post.seat) worker.end result.0.seat result.0.own result.1
            result.2.refused result.2.lost }
    {
        let Worker {
            mut post,
            mut end,
            room,
        } = worker;
        let failures = worker_loop(
            self.rt,
            &self.counter,
            self.gate,
            &self.intake,
            &self.sender,
            &mut post,
            &mut end,
            room,
        );
        (post, end, failures)
    }

    // Replies may go out from here on.
    fn begin(&self) {
        let mut sender = self.sender.lock(self.rt);
        sender.begin();
    }

    // Reads until the session ends, and closes the intake. The first worker comes back, if it works in this thread.
    fn receive<I: Read>(
        &self,
        first: Option<Worker<C, N>>,
        r: &mut I,
        inbox: Inbox,
        put: PutEnd,
        own: Appender<N, ReplyEntry>,
        back: Back<C, N>,
    ) -> Ran<C, N>
        requires can { CanRun self.now.intake inbox put }
        requires ready { IfSome first (IsReady (reading C.worker C.count C.answered C.front C.stored)
            C.most_tolds self.now.intake) }
        requires none { (back.seats.items ≡ []) × (back.appenders.items ≡ []) × (back.ends.items ≡ [])
            × (back.failures.refused ≡ false) × (back.failures.lost ≡ false) }
        requires room { (0 < vec_capacity back.seats) × (1 < vec_capacity back.appenders)
            × (0 < vec_capacity back.ends) }
        ensures ran { HasRun (reading C.worker C.count C.answered C.front C.stored) C.shows self.now.intake put
            (map (λ worker. C.worker worker.post.seat) (option_to_list first))
            (I.remaining r.old) (I.remaining r.new) own result }
        ensures room { (vec_capacity result.back.seats ≡ vec_capacity back.seats)
            × (vec_capacity result.back.appenders ≡ vec_capacity back.appenders)
            × (vec_capacity result.back.ends ≡ vec_capacity back.ends) }
    {
        let orders = Dispatcher {
            rt: self.rt,
            counter: &self.counter,
            gate: self.gate,
            intake: &self.intake,
            sender: &self.sender,
            put,
            inline: self.inline_of(first),
        };
        let mut inbox = inbox;
        let (received, inline) = receive_all(orders, own, r, &mut inbox);
        let mut received = received;
        self.intake.close(&mut received.put);
        let mut back = back;
        back.add_inline(inline);
        Ran { back, received }
    }

    // The same worker in the thread of the reader.
    fn inline_of(&self, worker: Option<Worker<C, N>>) -> Option<InlineWorker<C, N>>
        requires { IfSome worker (IsReady (reading C.worker C.count C.answered C.front C.stored)
            C.most_tolds self.now.intake) }
        ensures { IsInline (reading C.worker C.count C.answered C.front C.stored) worker result }
    {
        let Worker { post, end, room } = worker?;
        Some(InlineWorker::new(&self.intake, post, end, room))
    }
}

// Joins all workers that were started.
fn joined<C: Counter, N: WriterName, R: Threads>(
    rt: &R,
    intake: &Intake,
    threads: Vec<Thread<C, N>>,
    ran: Ran<C, N>,
) -> Ran<C, N>
where
    C::Seat: Drop,
    requires room { (length ran.back.seats.items + length threads.items ≤ vec_capacity ran.back.seats)
        × (length ran.back.appenders.items + length threads.items < vec_capacity ran.back.appenders)
        × (length ran.back.ends.items + length threads.items ≤ vec_capacity ran.back.ends) }
    requires fresh { All (λ t. IsFresh intake.now t.promise.end.value) threads.items }
    ensures same { result.received ≡ ran.received }
    ensures worked { (workers : List ℕ) (inline : Orders) →
        HaveWorked (reading C.worker C.count C.answered C.front C.stored) C.shows intake.now workers inline ran.back
        → HaveWorked (reading C.worker C.count C.answered C.front C.stored) C.shows intake.now
        (workers ++ map (λ t. t.promise.worker) threads.items) inline result.back }
{
    let mut ran = ran;
    for thread in threads {
        let worked = thread.join(rt);
        ran.back.add(worked);
    }
    ran
}
