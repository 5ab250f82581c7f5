//! Laws of what a killed server leaves in its trace's file, and of what the next one reads of it. Each is the contract
//! of an empty function.

ghost use Rattle.std.specs.Prelude.{◌≡◌, ◌⊎◌, ◌++◌, ℕ, All, Contains, List, Option};
ghost use mathlib.Core.List.{IsPrefix};
ghost use Rattle.fl_desk.specs.Legal.{IsLegal, IsLegalFromNothing};
ghost use Rattle.fl_history.specs.declared.history.Line.{Line};
ghost use Rattle.fl_history.specs.declared.history.Line.TheVariants as line;
ghost use Rattle.fl_audit.specs.First.{AreWholeLines};
ghost use Rattle.fl_order.specs.declared.order.Order.{Order};
ghost use Rattle.fl_order.specs.declared.state_part.StateLine.{StateLine};
ghost use Rattle.fl_order.specs.declared.told.Told.{Told};
ghost use Rattle.fl_session.specs.CutOff.{AreTakenOf, with_replies};
ghost use Rattle.fl_session.specs.Session.{Came, session_of};
ghost use Rattle.fl_trace.specs.Text.{Fits, LineFits, text_of};
ghost use Rattle.fl_waiting.specs.declared.rules.Rules.{Rules};
ghost use Rattle.lockd_faults.specs.declared.fault.CommandFault.{CommandFault};
ghost use Rattle.lockd_faults.specs.declared.fault.CommandFault.TheVariants as command;
ghost use Rattle.lockd_resume.specs.Behind.{FileSays};
ghost use Rattle.lockd_resume.specs.Heard.{Text};
ghost use Rattle.lockd_serve.specs.Said.{CanBeSaid};

use fl_desk::laws::no_head_comes_later;
use fl_ranges::laws::{blocker_is_the_first_lock_in_conflict, last_change_counts};
use fl_session::laws::what_a_cut_session_leaves_is_a_session;
use fl_state::laws::parts_are_told_one_by_one;
use fl_trace::laws::{
    a_line_is_short, a_text_breaks_at_one_line_at_most, no_text_is_that_of_two_histories,
};

/// A legal history can be read back from its text if its orders can, and its head, if it has one: what orders are
/// answered then fits its fields, too.
pub fn a_legal_history_can_be_read_back()
    ensures { (rules : Rules) (lines : List Line) → IsLegal rules lines
        → ((worker : ℕ) (order : Order) → Contains lines (line.Asked worker order)
        → LineFits (line.Asked worker order))
        → ((state : StateLine) → Contains lines (line.State state) → LineFits (line.State state)) → Fits lines }
{
    blocker_is_the_first_lock_in_conflict();
    last_change_counts();
    parts_are_told_one_by_one();
}

/// So can the lines of a session, if what its messages say fits their fields.
pub fn the_lines_of_a_session_can_be_read_back()
    ensures { (rules : Rules) (came : List Came) → All CanBeSaid came → Fits (session_of rules came).lines }
{
    blocker_is_the_first_lock_in_conflict();
    last_change_counts();
    parts_are_told_one_by_one();
}

/// The text of lines was cut off, perhaps within a line. The whole lines that are read of what is left are the first of
/// these lines, and among them are all whose text is there with its newline.
pub fn what_is_read_of_a_cut_text_begins_its_lines()
    ensures front { (text : List ℕ) (all read : List Line) (bytes : ℕ) → Fits all → IsPrefix text (text_of all)
        → AreWholeLines text read bytes → IsPrefix read all }
    ensures has { (text : List ℕ) (some read : List Line) (bytes : ℕ) → Fits some → IsPrefix (text_of some) text
        → AreWholeLines text read bytes → IsPrefix some read }
{
    a_line_is_short();
    no_text_is_that_of_two_histories();
}

/// The text of a legal history that began with nothing was cut off. No line that is read of what is left is bad, or
/// breaks the rules: `resumed_from` refuses it only for memory, or since it can't be read.
pub fn a_cut_text_of_a_legal_history_is_never_refused()
    ensures { (rules : Rules) (left : Option (List Text)) (text : List ℕ) (all : List Line) (fault : CommandFault)
        → Fits all → IsLegalFromNothing rules all → IsPrefix text (text_of all) → FileSays rules left text fault
        → (fault ≡ command.NoMemory) ⊎ (fault ≡ command.Read) }
{
    no_head_comes_later();
    a_line_is_short();
    a_text_breaks_at_one_line_at_most();
    no_text_is_that_of_two_histories();
}

/// A server with one worker, which began behind no lines and to which no message was sent again, was killed. Its file
/// has a prefix of the text of its session's lines, and all text of those of its first messages: of those whose replies
/// its client got. Then what is read of the file, with the replies that its last order lacks, are the lines of a
/// session that took the first messages, some of the others, and perhaps a part of a batch. Of a server that went on
/// take the one session of `fl_session::laws`, whose lines it has.
pub fn what_is_read_of_a_killed_servers_file_is_a_session()
    ensures { (rules : Rules) (first others : List Came) (text : List ℕ) (read : List Line) (bytes : ℕ)
        (missing : List Told) → All CanBeSaid (first ++ others) → IsPrefix (text_of (session_of rules first).lines) text
        → IsPrefix text (text_of (session_of rules (first ++ others)).lines) → AreWholeLines text read bytes
        → IsLegal rules (with_replies read missing) → AreTakenOf rules first others (with_replies read missing) }
{
    the_lines_of_a_session_can_be_read_back();
    what_is_read_of_a_cut_text_begins_its_lines();
    what_a_cut_session_leaves_is_a_session();
}
