//! The head of a journal's next piece.

ghost use Rattle.std.specs.Prelude.{◌≡◌, [], true};
ghost use Rattle.fl_core.specs.State.{snapshot_of};
ghost use Rattle.fl_desk.specs.Heads.{IsHead};
ghost use Rattle.fl_desk.specs.Inside.Drafts.{draft_of};
ghost use Rattle.fl_desk.specs.Replay.{state_after};
ghost use Rattle.fl_history.specs.Place.{place_of};
ghost use Rattle.fl_marks.specs.Conflict.{IsLawful};
ghost use Rattle.fl_state.specs.Telling.{Tells};

use crate::head::first_of;
use fl_core::Core;
use fl_history::Journal;
use fl_order::{StateLine, StatePart};
use fl_state::{StateSink, tell_state};

/// Tells the head of a journal's next piece, which was begun: what is there, and that so many orders and replies stand
/// before it. Says whether the journal took all of it.
pub(crate) fn draft_head<J: Journal>(journal: &mut J, core: &Core, lines: u64) -> bool
    requires none { J.draft journal.old ≡ [] }
    requires lawful { IsLawful core.now.marking }
    ensures lines { J.lines journal.new ≡ J.lines journal.old }
    ensures piece { J.piece journal.new ≡ J.piece journal.old }
    ensures stored { J.stored journal.new ≡ J.stored journal.old }
    ensures room { J.room journal.new ≡ J.room journal.old }
    ensures told { result ≡ true → IsHead core.now.rules (J.draft journal.new) }
    ensures same { result ≡ true → snapshot_of (state_after core.now.rules (J.draft journal.new)) ≡ core.now }
    ensures counted { result ≡ true → (place_of (J.draft journal.new)).lines ≡ lines }
{
    let head = first_of(core, lines);
    if !journal.push_state(&StateLine::Head(head)) {
        return false;
    }
    if !draft_parts(journal, core) {
        return false;
    }
    journal.push_state(&StateLine::Go)
}

// Tells the parts of what is there. Says whether the journal took all of them.
fn draft_parts<J: Journal>(journal: &mut J, core: &Core) -> bool
    requires lawful { IsLawful core.now.marking }
    ensures lines { J.lines journal.new ≡ J.lines journal.old }
    ensures piece { J.piece journal.new ≡ J.piece journal.old }
    ensures stored { J.stored journal.new ≡ J.stored journal.old }
    ensures room { J.room journal.new ≡ J.room journal.old }
    ensures front { (draft_of (J.draft journal.new)).front ≡ (draft_of (J.draft journal.old)).front }
    ensures told { result ≡ true →
        Tells core.now (draft_of (J.draft journal.old)).parts (draft_of (J.draft journal.new)).parts }
{
    let mut drafting = Drafting { journal };
    tell_state(core, &mut drafting)
}

// The journal whose head is told.
#[derive(Drop)]
struct Drafting<'a, J: Journal> {
    journal: &'a mut J,
}

impl<J: Journal> StateSink for Drafting<'_, J> {
    ghost use Rattle.std.specs.Prelude.{ℕ, List};
    ghost use Rattle.fl_desk.specs.Inside.Drafts.{draft_of};
    ghost use Rattle.fl_history.specs.declared.history.Line.{Line};

    ghost told = { λ d. (draft_of (J.draft d.journal.now)).parts };

    ghost Kept = { ℕ × List Line × List Line × List Line × ℕ × List Line };

    ghost kept = { λ d. (
      d.journal.ghost_name,
      J.lines d.journal.now,
      J.piece d.journal.now,
      J.stored d.journal.now,
      J.room d.journal.now,
      (draft_of (J.draft d.journal.now)).front,
    ) };

    fn tell(&mut self, part: &StatePart) -> bool {
        self.journal.push_state(&StateLine::Part(*part))
    }
}
