//! Laws of the definitions, in the words of their subject. Each is the contract of an empty function.
//!
//! The first three say what a server that was killed leaves, and from what the next one goes on. The fourth says what
//! becomes of orders, in a client's words: it uses each unique for one message, and sends again, with a mark, some of
//! those that the first session took, and then all others. Five say the same in the words of sessions, and more of a
//! cut inside a batch. Others say which replies come again, and how single messages meet the conditions.

ghost use Rattle.std.specs.Prelude.{◌≡◌, ◌≤◌, ℕ, ◌+◌, true, false, All, Contains, List, [], ◌∷◌, ◌++◌, length, take};
ghost use Rattle.std.specs.Prelude.{drop, Some, Ok};
ghost use mathlib.Core.List.{IsPrefix};
ghost use Rattle.fl_desk.specs.Legal.{IsLegal};
ghost use Rattle.fl_desk.specs.Replay.{state_after};
ghost use Rattle.fl_history.specs.Recent.{spoken};
ghost use Rattle.fl_history.specs.declared.history.Line.{Line};
ghost use Rattle.fl_history.specs.declared.history.Line.TheVariants as line;
ghost use Rattle.fl_order.specs.OpKind.{kind_of_opcode};
ghost use Rattle.fl_order.specs.declared.kind.OpKind.TheVariants as kinds;
ghost use Rattle.fl_order.specs.declared.order.Order.{Order};
ghost use Rattle.fl_order.specs.declared.told.Told.{Told};
ghost use Rattle.fl_session.specs.AsOne.{AllPlain, AreAsOne, IsCutInside, IsSentAgain, NoneRefused, part_of, replies_again};
ghost use Rattle.fl_session.specs.Client.{AreOnesAgain, HasTaken, IsNear};
ghost use Rattle.fl_session.specs.CutOff.{AreTakenOf, cut_in, with_replies};
ghost use Rattle.fl_session.specs.Known.{AreMarked, HaveBatch, HaveNothing, HaveOrder, HaveOwnUniques, HaveReply};
ghost use Rattle.fl_session.specs.Known.{IsBatchAgain, IsOrderAgain, with_mark};
ghost use Rattle.fl_session.specs.Once.{AllComeAgain, AreNew, ComesAgain, IsUnknown, SaysTheSame, resumed, under_way};
ghost use Rattle.fl_session.specs.Session.{Came, Session, session_behind, session_from, session_of, with_message};
ghost use Rattle.fl_session.specs.Session.{with_orders};
ghost use Rattle.fl_session.specs.Whole.{bytes_in};
ghost use Rattle.fl_transport.specs.Handshake.{incoming_by, is_agreed, opening, said_to, says_destroy};
ghost use Rattle.fl_transport.specs.declared.handshake.Incoming.TheVariants as incoming;
ghost use Rattle.fl_transport.specs.declared.response.Response.{Response};
ghost use Rattle.fl_waiting.specs.Waiting.{is_parked};
ghost use Rattle.fl_waiting.specs.declared.rules.Rules.{Rules};
ghost use Rattle.fl_wire.specs.Batch.{forgets_in};
ghost use Rattle.fl_wire.specs.Init.{init_spelling, init_step};
ghost use Rattle.fl_wire.specs.Layout.{opcode_of, unique_of};
ghost use Rattle.fl_wire.specs.Says.{said};
ghost use Rattle.fl_wire.specs.Spell.{spelling_of};

use fl_core::laws::settling_answers_the_oldest_first;
use fl_desk::laws::{a_legal_history_goes_on_by_orders, own_reply_comes_first};

/// A server was killed. Suppose that the lines that it stored begin its history, and that they have all lines of its
/// first messages. `IsAheadFrom` says the second, of the messages whose replies its client got; it doesn't say the
/// first. With the replies that they lack the lines are legal. Then these are the lines of a session that took the
/// first messages, some of the others, and perhaps a part of a batch. It is under way, or it took all: what stands
/// behind a DESTROY counts for nothing, and is taken. The laws below speak of sessions under way. A part of a batch of
/// which no order was refused is a `part_of`.
pub fn what_a_cut_session_leaves_is_a_session()
    ensures left { (rules : Rules) (first others : List Came) (lines : List Line) (missing : List Told)
        → IsPrefix (session_of rules first).lines lines → IsPrefix lines (session_of rules (first ++ others)).lines
        → IsLegal rules (with_replies lines missing) → AreTakenOf rules first others (with_replies lines missing) }
    ensures unrefused { (s : Session) (batch : Came) (count : ℕ)
        → NoneRefused (take count batch.refused) → cut_in s batch count ≡ part_of s batch.message count }
{
    a_legal_history_goes_on_by_orders();
}

/// A server starts behind no lines, and knows messages that are sent again. As long as none has a mark, its session is
/// that of a server that does not know them: each reply, that to an INIT too, each line, and how far it is.
pub fn to_know_marks_changes_nothing_without_one()
    ensures { (rules : Rules) (came : List Came) → AllPlain came
        → session_from (session_behind rules [] [] true) came ≡ record (session_of rules came) { resends = true } }
{}

/// A server goes on behind the lines of a session that was cut off. Until an INIT is agreed, it answers each message
/// without a mark as any server does: also an INIT of another version, which a second one follows. Once one is agreed,
/// it is as far as that session was, so it is the `resumed` of the laws below, with these replies in front.
pub fn a_server_that_goes_on_answers_its_init_first()
    ensures { (first : Session) (early : List Came) (init : Came) (came : List Came) → first.handshake ≡ under_way
        → (session_of first.rules early).handshake ≡ opening
        → kind_of_opcode (opcode_of init.message) ≡ Some kinds.Init → is_agreed (init_step init.message) ≡ true
        → AllPlain early → AllPlain (init ∷ [])
        → session_from (session_behind first.rules first.heard first.lines true) (early ++ init ∷ came)
        ≡ record (session_from (resumed first) came) {
          replies = (session_of first.rules early).replies
              ++ init_spelling (unique_of init.message) (init_step init.message)
              ∷ (session_from (resumed first) came).replies;
        } }
{}

/// A client uses each unique for one message. A session that was under way took those of `taken`, refused none for
/// memory, and was cut off before those of `unread`. The client sends some of `taken` again, each with a mark, and then
/// those of `unread`, marked. What the session has of each that comes again is near: its request is parked, or the last
/// lines say of it what all lines say, as they do of everything if there are at most 65,536 orders and replies. Then the
/// lines of the session that goes on are those of one session of `early`, `taken` and `unread`: no order is taken twice,
/// and none is left out. The same is so of a cut inside a batch, which comes again between the two. If it wasn't cut
/// inside one, a reply that the first session gave to an order of `taken` is sent again if its message is.
pub fn a_client_that_sends_again_has_one_session()
    ensures one { (rules : Rules) (early taken again unread marked : List Came)
        → HasTaken (session_of rules early) taken unread
        → AreOnesAgain (session_of rules (early ++ taken)) taken again → AreMarked unread marked
        → AreAsOne (session_of rules (early ++ taken))
        (session_from (resumed (session_of rules (early ++ taken))) (again ++ marked))
        (session_of rules (early ++ (taken ++ unread))) again }
    ensures batch { (rules : Rules) (early taken again unread marked : List Came) (batch same : Came) (count : ℕ)
        → HasTaken (session_of rules early) taken (batch ∷ unread)
        → IsCutInside (session_of rules (early ++ taken)) count batch same
        → AreOnesAgain (part_of (session_of rules (early ++ taken)) batch.message count) taken again
        → AreMarked unread marked
        → AreAsOne (part_of (session_of rules (early ++ taken)) batch.message count)
        (session_from (resumed (part_of (session_of rules (early ++ taken)) batch.message count))
        (again ++ same ∷ marked))
        (session_of rules (early ++ (taken ++ batch ∷ unread))) again }
    ensures replied { (rules : Rules) (early taken again unread : List Came) (c same : Came) (order : Order)
        (told : Told) → HasTaken (session_of rules early) taken unread
        → AreOnesAgain (session_of rules (early ++ taken)) taken again
        → Contains taken c → said_to rules.whole c.message ≡ Ok order → told.unique ≡ unique_of c.message
        → Contains (session_of rules (early ++ taken)).lines (line.Told told)
        → Contains again same → SaysTheSame c.message same.message
        → Contains (replies_again (session_of rules (early ++ taken)) again) (spelling_of told) }
    ensures short { (s : Session) (unique : ℕ) → length (spoken (s.heard ++ s.lines)) ≤ 65536 → IsNear s unique }
{
    settling_answers_the_oldest_first();
    own_reply_comes_first();
    a_legal_history_goes_on_by_orders();
}

/// A session of the messages of `taken` was cut off, and another goes on behind its lines. Once its INIT is agreed,
/// messages come to it again whose orders the first one had, and then those of `unread`, marked, which are new to it.
/// Then its lines are those of one session of `taken` and `unread`. It sends what the lines have for the messages that
/// came again, and then what that one session sends behind the replies of the first. If it is cut off too, the law is
/// the same for the next. The law before this one says which messages a client may send so.
pub fn a_session_goes_on_as_one()
    ensures { (rules : Rules) (taken again unread marked : List Came)
        → IsSentAgain (session_of rules taken) again unread marked
        → AreAsOne (session_of rules taken) (session_from (resumed (session_of rules taken)) (again ++ marked))
        (session_of rules (taken ++ unread)) again }
{}

/// The same of a cut inside a batch: the lines have so many of its orders, and none of these was refused. The batch
/// comes again, marked, behind the messages whose orders the lines have, and before those that they lack. As many
/// orders as they have are left out, and the others are taken.
pub fn a_batch_goes_on_as_one()
    ensures { (rules : Rules) (taken again unread marked : List Came) (batch same : Came) (count : ℕ)
        → (session_of rules taken).handshake ≡ under_way → IsCutInside (session_of rules taken) count batch same
        → AllComeAgain (part_of (session_of rules taken) batch.message count) again
        → AreNew (with_message (session_of rules taken) batch) unread marked
        → AreAsOne (part_of (session_of rules taken) batch.message count)
        (session_from (resumed (part_of (session_of rules taken) batch.message count)) (again ++ same ∷ marked))
        (session_of rules (taken ++ batch ∷ unread)) again }
{
    settling_answers_the_oldest_first();
    own_reply_comes_first();
    a_legal_history_goes_on_by_orders();
}

/// A second cut inside the same batch: the session that went on took some more orders of it, and refused none. Then it
/// is as if the first one had taken these too, so the next goes on as `a_batch_goes_on_as_one` says.
pub fn a_batch_can_be_cut_twice()
    ensures { (first : Session) (again : List Came) (batch : List ℕ) (had more : ℕ)
        → (part_of first batch had).handshake ≡ under_way → AllComeAgain (part_of first batch had) again
        → AreAsOne (part_of first batch had)
        (with_orders (session_from (resumed (part_of first batch had)) again)
        (take more (drop had (forgets_in batch))) [])
        (part_of first batch (had + more)) again }
{}

/// The client got some of the replies of a session that was cut off, and those of the session that went on. If each
/// reply of the first is one that it got, or is sent again, then it has each reply of the one session, once or again.
pub fn its_client_has_each_reply()
    ensures { (first other one : Session) (again : List Came) (got : List (List ℕ)) → AreAsOne first other one again
        → All (Contains (got ++ replies_again first again)) first.replies
        → All (Contains (got ++ other.replies)) one.replies }
{}

/// New messages that come later to both, without a mark, are taken and answered alike.
pub fn later_messages_are_as_in_one_session()
    ensures { (first other one : Session) (again later : List Came)
        → AreAsOne first other one again → AllPlain later
        → AreAsOne first (session_from other later) (session_from one later) again }
{}

/// The reply to an order whose unique no other line has, if it is among the last 65,536 orders and replies of the lines
/// of a session and those that it heard before, is sent again to its message. So is what the session itself answers to
/// a message, from what is there by then if it is whole.
pub fn a_reply_is_sent_again()
    ensures stored { (s : Session) (again : List Came) (c : Came) (told : Told) → HaveReply (s.heard ++ s.lines) told
        → Contains again c → IsOrderAgain s.rules.whole told.unique c.message
        → Contains (replies_again s again) (spelling_of told) }
    ensures own { (s : Session) (again : List Came) (c same : Came) (response : Response) (r : List ℕ)
        → SaysTheSame c.message same.message
        → incoming_by c.message (said_to s.rules.whole c.message) ≡ incoming.Response response
        → Contains (bytes_in s.rules s.lines response) r → Contains again same → Contains (replies_again s again) r }
{}

/// A session has the order of a message if its reply is among the last 65,536 orders and replies of its lines and those
/// that it heard before, or the order itself without a reply, or if its request is parked. It has those of a batch if
/// they all are among these lines. A message that is no order, since the session itself answers it, comes again to each
/// session, but a DESTROY.
pub fn a_message_comes_again_whose_order_is_there()
    ensures replied { (s : Session) (told : Told) (message : List ℕ) → HaveReply (s.heard ++ s.lines) told
        → IsOrderAgain s.rules.whole told.unique message → ComesAgain s message }
    ensures asked { (s : Session) (unique : ℕ) (message : List ℕ) → HaveOrder (s.heard ++ s.lines) unique
        → IsOrderAgain s.rules.whole unique message → ComesAgain s message }
    ensures batch { (s : Session) (unique : ℕ) (orders : List Order) (message : List ℕ)
        → HaveBatch (s.heard ++ s.lines) unique orders → IsBatchAgain s.rules.whole unique (length orders) message
        → ComesAgain s message }
    ensures parked { (s : Session) (unique : ℕ) (message : List ℕ)
        → is_parked unique (state_after s.rules s.lines).view.parked ≡ true
        → IsOrderAgain s.rules.whole unique message → ComesAgain s message }
    ensures own { (s : Session) (message marked : List ℕ) (response : Response)
        → SaysTheSame message marked → incoming_by message (said_to s.rules.whole message) ≡ incoming.Response response
        → says_destroy (said message) ≡ false → ComesAgain s marked }
{}

/// A unique that no line has is new to a session with these lines and those that it heard before.
pub fn a_unique_that_no_line_has_is_unknown()
    ensures { (s : Session) (unique : ℕ) → HaveNothing unique (s.heard ++ s.lines) → IsUnknown s unique }
{}

/// Messages that a session lacks are new to it, one after another, if each has a unique of its own that no line has.
pub fn messages_with_uniques_of_their_own_are_new()
    ensures { (s : Session) (unread marked : List Came) → s.resends ≡ false → HaveOwnUniques (s.heard ++ s.lines) unread
        → AreMarked unread marked → AreNew s unread marked }
{
    settling_answers_the_oldest_first();
}

/// A message with its mark says what it says without it.
pub fn a_mark_says_nothing_else()
    ensures { (message : List ℕ) → 16 ≤ length message → SaysTheSame message (with_mark message) }
{}
