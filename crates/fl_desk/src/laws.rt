//! Laws of the definitions, in the words of their subject. Each is the contract of an empty function.

ghost use Rattle.std.specs.Prelude.{◌≡◌, ◌≢◌, ◌↔◌, ◌<◌, ℕ, Some, None, List, [], ◌∷◌, ◌++◌, map};
ghost use Rattle.fl_counter.specs.Answered.{step_lines};
ghost use Rattle.fl_desk.specs.Heads.{begun_lines, head_lines, IsHead, IsToldBy, NamesRules};
ghost use Rattle.fl_desk.specs.Leading.{LeadsTo, GoesOn, GoesOnTelling};
ghost use Rattle.fl_desk.specs.Legal.{HasNoHead, IsLegal};
ghost use Rattle.fl_desk.specs.Pieces.{IsPiece};
ghost use Rattle.fl_desk.specs.Replay.{state_after, all_later, AllOthers};
ghost use Rattle.fl_core.specs.Effects.{at_once, recorded};
ghost use Rattle.fl_core.specs.State.{Snapshot, opening, snapshot_of};
ghost use Rattle.fl_core.specs.Step.{next, replies};
ghost use Rattle.fl_history.specs.Place.{place_of};
ghost use Rattle.fl_history.specs.declared.history.Line.{Line};
ghost use Rattle.fl_history.specs.declared.history.Line.TheVariants as line;
ghost use Rattle.fl_order.specs.declared.told.Told.{Told};
ghost use Rattle.fl_order.specs.declared.order.Order.{Order};
ghost use Rattle.fl_order.specs.declared.state_part.Head.{Head};
ghost use Rattle.fl_order.specs.declared.state_part.StateLine.{StateLine};
ghost use Rattle.fl_order.specs.declared.state_part.StateLine.TheVariants as state;
ghost use Rattle.fl_order.specs.declared.state_part.StatePart.{StatePart};
ghost use Rattle.fl_state.specs.Parts.{part_of};
ghost use Rattle.fl_state.specs.Telling.{told_by};
ghost use Rattle.fl_waiting.specs.declared.rules.Rules.{Rules};

use fl_core::laws::{a_step_is_what_its_replies_give, an_order_keeps_locks_lawful};
use fl_state::laws::{a_told_state_is_fit, parts_are_told_one_by_one};

/// No lines lead to the opening, under any rules. Lines with one order more, and the replies that it gets in what the
/// lines lead to, lead to what is there after it, under the same rules.
pub fn an_order_leads_on()
    ensures nothing { (rules : Rules) → LeadsTo [] (snapshot_of (opening rules)) }
    ensures step { (lines : List Line) (p : Snapshot) (worker : ℕ) (order : Order) → LeadsTo lines p →
        LeadsTo (lines ++ step_lines worker order (replies p order)) (next p order) }
{
    a_step_is_what_its_replies_give();
    an_order_keeps_locks_lawful();
}

/// The lines of an order and its replies are read as its own reply, or as none, and then as each other reply.
pub fn own_reply_comes_first()
    ensures own { (rules : Rules) (lines : List Line) (worker : ℕ) (order : Order) (told : Told) (tolds : List Told) →
        told.unique ≡ order.unique →
        state_after rules (lines ++ step_lines worker order (told ∷ tolds)) ≡
        all_later tolds (recorded (at_once order (Some told.result)) (state_after rules lines)) }
    ensures none { (rules : Rules) (lines : List Line) (worker : ℕ) (order : Order) (tolds : List Told) →
        AllOthers order.unique tolds →
        state_after rules (lines ++ step_lines worker order tolds) ≡
        all_later tolds (recorded (at_once order None) (state_after rules lines)) }
{}

/// A legal history goes order by order: it leads to its state, whose rules are those that it began with; behind a legal
/// beginning come an order and its replies, or nothing, or first of all a head; and what stands before an order is
/// legal itself.
pub fn a_legal_history_goes_on_by_orders()
    ensures leads { (rules : Rules) (lines : List Line) → IsLegal rules lines →
        LeadsTo lines (snapshot_of (state_after rules lines)) }
    ensures rules { (rules : Rules) (lines : List Line) → (state_after rules lines).rules ≡ rules }
    ensures next { (before rest : List Line) (p : Snapshot) → LeadsTo before p → IsLegal p.rules (before ++ rest) →
        GoesOn before p rest }
    ensures asked { (rules : Rules) (before rest : List Line) (worker : ℕ) (order : Order) →
        IsLegal rules (before ++ line.Asked worker order ∷ rest) → IsLegal rules before }
{
    a_step_is_what_its_replies_give();
    an_order_keeps_locks_lawful();
    a_told_state_is_fit();
}

/// A head leads to the state that it tells, and a legal history that begins with a line of a head begins with a whole
/// one. What such a head begins with goes on by one more part, which fits, or by its end.
pub fn a_head_leads_to_what_it_tells()
    ensures leads { (rules : Rules) (head : Head) (parts : List StatePart) → IsToldBy rules head parts →
        LeadsTo (head_lines head parts)
        (snapshot_of (told_by rules head.node head.fh (map part_of parts))) }
    ensures begins { (rules : Rules) (first : StateLine) (rest : List Line) →
        IsLegal rules (line.State first ∷ rest) → (head : Head) × (first ≡ state.Head head)
        × NamesRules head rules × (1 < head.node) × (0 < head.fh) }
    ensures next { (rules : Rules) (head : Head) (parts : List StatePart) (rest : List Line) →
        IsLegal rules (begun_lines head parts ++ rest) → GoesOnTelling rules head parts rest }
{
    a_told_state_is_fit();
    parts_are_told_one_by_one();
}

/// An order and its replies are no lines of a head; lines have none exactly if their parts have none; and none stand
/// behind a legal beginning, unless it is empty.
pub fn no_head_comes_later()
    ensures step { (lines : List Line) (worker : ℕ) (order : Order) (tolds : List Told) → HasNoHead lines →
        HasNoHead (lines ++ step_lines worker order tolds) }
    ensures both { (xs ys : List Line) → HasNoHead (xs ++ ys) ↔ (HasNoHead xs × HasNoHead ys) }
    ensures behind { (rules : Rules) (before rest : List Line) → before ≢ [] → IsLegal rules before →
        IsLegal rules (before ++ rest) → HasNoHead rest }
{}

/// A history can be cut behind any legal beginning: what goes on behind it goes on, and leads to the same, behind each
/// other history that leads there. So a piece that begins with a head goes on behind all lines before it, if its head
/// tells what is there after them.
pub fn a_history_can_be_cut()
    ensures alike { (front other rest : List Line) (p q : Snapshot) → LeadsTo front p → LeadsTo other p →
        HasNoHead rest → q.rules ≡ p.rules → LeadsTo (front ++ rest) q ↔ LeadsTo (other ++ rest) q }
    ensures piece { (rules : Rules) (before head rest : List Line) → IsLegal rules before → IsHead rules head →
        snapshot_of (state_after rules head) ≡ snapshot_of (state_after rules before) → IsLegal rules (head ++ rest) →
        LeadsTo (before ++ rest) (snapshot_of (state_after rules (head ++ rest))) }
{
    a_step_is_what_its_replies_give();
    an_order_keeps_locks_lawful();
    a_told_state_is_fit();
}

/// The piece at hand is a legal history that leads to what all lines lead to, and ends at the same place. What may come
/// behind all lines may come behind the piece, and the other way round, and leads to the same; so pieces one after
/// another are one history.
pub fn a_piece_leads_to_what_all_lines_lead_to()
    ensures legal { (rules : Rules) (lines piece : List Line) → IsPiece rules lines piece → IsLegal rules lines →
        IsLegal rules piece }
    ensures same { (rules : Rules) (lines piece : List Line) → IsPiece rules lines piece → IsLegal rules lines →
        snapshot_of (state_after rules piece) ≡ snapshot_of (state_after rules lines) }
    ensures place { (rules : Rules) (lines piece : List Line) → IsPiece rules lines piece →
        (place_of piece).lines ≡ (place_of lines).lines }
    ensures goes_on { (rules : Rules) (lines piece more : List Line) (p : Snapshot) → IsPiece rules lines piece →
        IsLegal rules lines → HasNoHead more → p.rules ≡ rules → LeadsTo (lines ++ more) p ↔ LeadsTo (piece ++ more) p }
    ensures one { (rules : Rules) (lines : List Line) → IsPiece rules lines lines }
    ensures more { (rules : Rules) (lines piece more : List Line) → IsPiece rules lines piece → HasNoHead more →
        IsPiece rules (lines ++ more) (piece ++ more) }
{
    a_step_is_what_its_replies_give();
    an_order_keeps_locks_lawful();
    a_told_state_is_fit();
}
