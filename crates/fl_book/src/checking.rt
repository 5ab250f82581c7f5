//! What is said of a whole history.

ghost use Rattle.std.specs.Prelude.{◌≡◌, ◌↔◌, true, IfOk};
ghost use Rattle.fl_desk.specs.Legal.{IsLegal};
ghost use Rattle.fl_judge.specs.Quiet.{IsQuiet, OpensCalm, HasNoCircles};
ghost use Rattle.fl_judge.specs.Verdicts.{IsVerdict};

use fl_core::Rules;
use fl_history::History;
use fl_judge::{Judge, Verdict};
use fl_order::NoMemory;
use std::alloc::Global;

/// Judges a history under these rules: takes what a head tells, and then its orders, anew, one after another, and
/// compares the replies. What is legal under some rules needn't be so under others. It goes through the lines once, and
/// takes memory for one directory and one list of replies.
pub fn check(alloc: Global, history: &History, rules: Rules) -> Result<Verdict, NoMemory>
    ensures { IfOk result (λ verdict. IsVerdict rules history.now verdict) }
{
    let judge = judge_of(alloc, history, rules)?;
    Ok(judge.verdict())
}

/// Whether a history that is legal under these rules is quiet: no owner asks by SETLK or SETLKW for a record lock of
/// type read or write while a record request of its own is parked. Each asking counts, whatever it is answered; a
/// whole-file lock, an unlock and a GETLK don't. In a quiet history owners never wait in a circle, under fair rules
/// too, unless a head tells that they do, or that one waits for two record locks.
///
/// It judges the history as `check` does, and takes memory as that does. Of a history that no legal one begins with it
/// says no.
pub fn quiet(alloc: Global, history: &History, rules: Rules) -> Result<bool, NoMemory>
    ensures exact { IfOk result (λ quiet. IsLegal rules history.now → (quiet ≡ true) ↔ IsQuiet rules history.now) }
    ensures no_circle { IfOk result (λ quiet.
        quiet ≡ true → IsLegal rules history.now → OpensCalm rules history.now → HasNoCircles rules history.now) }
{
    let judge = judge_of(alloc, history, rules)?;
    Ok(judge.quiet())
}

// A judge that heard all lines of a history.
fn judge_of(alloc: Global, history: &History, rules: Rules) -> Result<Judge, NoMemory>
    ensures { IfOk result (λ judge. judge ≡ record { rules = rules; lines = history.now }) }
{
    let mut judge = Judge::new(alloc, rules)?;
    for at in 0..history.len() {
        judge.hear(&history.line(at));
    }
    Ok(judge)
}
