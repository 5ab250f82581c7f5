//! Reads a trace piece by piece, and has a judge hear its lines.

ghost use Rattle.std.specs.Prelude.{◌≡◌, ◌≢◌, ◌↔◌, ◌+◌, ◌<◌, ◌≤◌, ◌^◌, ℕ, [], List, Option, length, take, drop, true, false, Err};
ghost use Rattle.std.specs.Prelude.{IfOk, IfErr, OnErr, IfSome, IsNone};
ghost use Rattle.std.specs.Io.KnownBytes.{Consumes, IsAtEnd, Keeps};
ghost use Rattle.fl_audit.specs.Details.{AreDetailsOf};
ghost use Rattle.fl_audit.specs.Inside.Hearing.{IsRoomy, Listens, HearsOn, HasRead, AreJudged, IsBad};
ghost use Rattle.fl_judge.specs.Hearing.{unheard};
ghost use Rattle.fl_audit.specs.Inside.Keeping.{along, keeping};
ghost use Rattle.fl_audit.specs.Inside.Seams.{IsBeside};

use crate::beside::Beside;
use crate::details::Details;
use crate::finding::AuditFault;
use crate::hearer::Hearer;
use crate::lines::{Stopped, hear_lines};
use fl_core::Rules;
use fl_judge::Judge;
use fl_order::NoMemory;
use fl_trace::LINE_ROOM;
use fl_trace::laws::a_line_is_short;
use std::alloc::Global;
use std::io;
use std::io::{ErrorKind, Read};

// How many bytes there is room for.
const ROOM: usize = 65536;

/// A judge that heard lines of a trace, and how many bytes these have, if it heard all.
#[derive(Drop)]
pub(crate) struct Listened {
    pub judge: Hearer,
    pub bytes: u64,
}

// A judge, how many lines it is to hear at most, and the last line that has no newline yet: so many bytes at the front
// of a room, and no more than any line can have. If it was longer, these tell that it is bad. Once a line was bad, or
// as many were heard, what comes is no longer heard. Until then the bytes of the lines that were heard are counted.
#[derive(Drop)]
pub(crate) struct Listener {
    judge: Hearer,
    bytes: u64,
    most: Option<usize>,
    room: Vec<u8>,
    kept: usize,
    stopped: Option<Stopped>,
}

impl Listener {
    /// Nothing came yet, and these are the rules. It hears so many lines at most, or all, and so does what is beside it.
    pub(crate) fn new(
        alloc: Global,
        rules: Rules,
        most: Option<usize>,
        beside: Beside,
    ) -> Result<Listener, NoMemory>
        requires beside { IsBeside rules [] beside }
        ensures room { IfOk result IsRoomy }
        ensures heard { IfOk result (λ listener. listener.judge ≡ keeping (unheard rules) (along beside)) }
        ensures most { IfOk result (λ listener. listener.most ≡ most) }
        ensures bytes { IfOk result (λ listener. listener.bytes ≡ 0) }
        ensures listens { IfOk result (Listens []) }
    {
        let unheard = Judge::new(alloc, rules)?;
        let judge = Hearer::new(unheard, beside);
        Ok(Listener {
            judge,
            bytes: 0,
            most,
            room: vec![in alloc; 0; ROOM]?,
            kept: 0,
            stopped: None,
        })
    }

    /// Reads once, and hears what came. Whether more may come.
    pub(crate) fn read<R: Read>(&mut self, input: &mut R) -> Result<bool, AuditFault>
        requires room { IsRoomy self.old }
        requires few { length self.old.judge.lines + 2 ^ 16 < 2 ^ 63 }
        requires bytes { self.old.bytes + 2 ^ 16 < 2 ^ 64 }
        ensures room { IsRoomy self.new }
        ensures few { length self.new.judge.lines ≤ length self.old.judge.lines + 2 ^ 16 }
        ensures bytes { self.new.bytes ≤ self.old.bytes + 2 ^ 16 }
        ensures rules { self.new.judge.rules ≡ self.old.judge.rules }
        ensures along { self.new.judge.along ≡ self.old.judge.along }
        ensures most { self.new.most ≡ self.old.most }
        ensures reads { (left : Option (List ℕ)) → HasRead left (R.remaining input.old) self.old →
            HasRead left (R.remaining input.new) self.new }
        ensures end { IfOk result (λ more. more ≡ false → IsAtEnd (R.remaining input.new)) }
        ensures fault { IfErr result (λ fault. (n : ℕ) → fault ≢ AuditFault.BadLine n) }
    {
        match read_piece(input, &mut self.room, self.kept) {
            Ok(0) => Ok(false),
            Ok(came) => {
                self.hear(came);
                Ok(true)
            }
            Err(error) => after_failure(error.kind()),
        }
    }

    // So many bytes came behind what was kept.
    fn hear(&mut self, came: usize)
        requires room { IsRoomy self.old }
        requires within { self.old.kept + came ≤ 2 ^ 16 }
        requires few { length self.old.judge.lines + 2 ^ 16 < 2 ^ 63 }
        requires bytes { self.old.bytes + 2 ^ 16 < 2 ^ 64 }
        ensures room { IsRoomy self.new }
        ensures few { length self.new.judge.lines ≤ length self.old.judge.lines + 2 ^ 16 }
        ensures bytes { self.new.bytes ≤ self.old.bytes + 2 ^ 16 }
        ensures rules { self.new.judge.rules ≡ self.old.judge.rules }
        ensures along { self.new.judge.along ≡ self.old.judge.along }
        ensures most { self.new.most ≡ self.old.most }
        ensures hears { HearsOn self.old (take came (drop self.old.kept self.old.room.items)) self.new }
    {
        a_line_is_short();
        if self.stopped.is_some() {
            return;
        }
        let filled = self.kept + came;
        match hear_lines(&mut self.judge, self.most, &self.room[..filled]) {
            Err(stopped) => self.stopped = Some(stopped),
            Ok(left) => {
                let heard = filled - left;
                self.bytes += heard as u64;
                self.kept = left.min(LINE_ROOM);
                keep(&mut self.room, heard, self.kept);
            }
        }
    }

    /// Nothing more comes: the judge, unless a line was bad, and how many bytes its lines have, if it heard all. With
    /// `cut` bytes behind the last newline are none. What is told of the lines goes to `details`.
    pub(crate) fn end(mut self, cut: bool, details: &mut Details) -> Result<Listened, AuditFault>
        requires room { IsRoomy self }
        requires few { length self.judge.lines < 2 ^ 63 }
        ensures rules { IfOk result (λ heard. heard.judge.rules ≡ self.judge.rules) }
        ensures along { IfOk result (λ heard. heard.judge.along ≡ self.judge.along) }
        ensures few { IfOk result (λ heard. length heard.judge.lines < 2 ^ 63) }
        ensures heard { IfOk result (λ heard. (text : List ℕ) → Listens text self →
            AreJudged self.most cut text heard.judge.lines heard.bytes) }
        ensures bad { (n : ℕ) → result ≡ Err (AuditFault.BadLine n) → (text : List ℕ) → Listens text self →
            IsBad self.most cut text n }
        ensures details { IfOk result (λ heard. AreDetailsOf heard.judge.rules heard.judge.lines details.new) }
    {
        self.meet_rest();
        *details = self.judge.details();
        match self.bad_line(cut) {
            Some(n) => Err(AuditFault::BadLine(n)),
            None => Ok(Listened {
                judge: self.judge,
                bytes: self.bytes,
            }),
        }
    }

    // What stands behind the last newline is bad, if nothing before it is, and it isn't dropped.
    fn meet_rest(&mut self)
        requires room { IsRoomy self.old }
        ensures { self.new ≡ self.old }
    {
        if self.stopped.is_none() {
            self.judge.meet_bad(&self.room[..self.kept]);
        }
    }

    // The bad line, if one of those that came was bad.
    fn bad_line(&self, cut: bool) -> Option<usize>
        requires room { IsRoomy self.now }
        requires few { length self.now.judge.lines < 2 ^ 63 }
        ensures bad { IfSome result (λ n. (text : List ℕ) → Listens text self.now → IsBad self.now.most cut text n) }
        ensures none { IsNone result → (text : List ℕ) → Listens text self.now →
            AreJudged self.now.most cut text self.now.judge.lines self.now.bytes }
    {
        a_line_is_short();
        match self.stopped {
            Some(stopped) => stopped.number(),
            None => self.rest_line(cut),
        }
    }

    // The line that the bytes behind the last newline are, if there are any and they aren't cut off.
    fn rest_line(&self, cut: bool) -> Option<usize>
        requires { length self.now.judge.lines < 2 ^ 63 }
        ensures some { IfSome result (λ n.
            (n ≡ length self.now.judge.lines + 1) × (0 < self.now.kept) × (cut ≡ false)) }
        ensures none { IsNone result → cut ≡ false → self.now.kept ≡ 0 }
    {
        if self.ends_inside(cut) {
            Some(self.judge.heard() + 1)
        } else {
            None
        }
    }

    // Whether there are any, and they aren't cut off.
    fn ends_inside(&self, cut: bool) -> bool
        ensures { (result ≡ true) ↔ ((0 < self.now.kept) × (cut ≡ false)) }
    {
        self.kept > 0 && !cut
    }
}

// Reads once, behind the bytes that are kept.
fn read_piece<R: Read>(input: &mut R, room: &mut [u8], kept: usize) -> io::Result<usize>
    requires { kept < length room.old }
    ensures kept { take kept room.new ≡ take kept room.old }
    ensures within { IfOk result (λ came. kept + came ≤ length room.new) }
    ensures read { IfOk result (λ came.
        Consumes (R.remaining input.old) (R.remaining input.new) (take came (drop kept room.new))) }
    ensures end { IfOk result (λ came. came ≡ 0 → IsAtEnd (R.remaining input.new)) }
    ensures failed { OnErr result (Keeps (R.remaining input.old) (R.remaining input.new)) }
{
    input.read(&mut room[kept..])
}

// Whether more may come after a read that failed.
fn after_failure(why: ErrorKind) -> Result<bool, AuditFault>
    ensures more { IfOk result (λ more. more ≡ true) }
    ensures fault { IfErr result (λ fault. (n : ℕ) → fault ≢ AuditFault.BadLine n) }
{
    match why {
        ErrorKind::Interrupted => Ok(true),
        ErrorKind::OutOfMemory => Err(AuditFault::NoMemory),
        _ => Err(AuditFault::Read),
    }
}

// Moves so many bytes from a place to the front.
fn keep(room: &mut [u8], from: usize, kept: usize)
    requires { from + kept ≤ length room.old }
    ensures { take kept room.new ≡ take kept (drop from room.old) }
{
    room.copy_within(from..from + kept, 0);
}
