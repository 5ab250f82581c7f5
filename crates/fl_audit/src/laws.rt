//! Laws of the definitions, in the words of their subject. Each is the contract of an empty function.

ghost use Rattle.std.specs.Prelude.{◌≡◌, List, [], ◌∷◌, ◌++◌};
ghost use Rattle.std.specs.List.{AllByRecursion};
ghost use Rattle.fl_audit.specs.Pieces.{whole_of, IsRow, Piece};
ghost use Rattle.fl_core.specs.State.{snapshot_of};
ghost use Rattle.fl_desk.specs.Leading.{LeadsTo};
ghost use Rattle.fl_desk.specs.Replay.{state_after};

use fl_desk::laws::{a_history_can_be_cut, a_legal_history_goes_on_by_orders, no_head_comes_later};

/// Pieces in a row are one history, from the last change of rules on: the first one under these rules, or any after it,
/// and then the orders and replies of the others, are legal, and lead to what the last one leads to.
pub fn pieces_in_a_row_are_one_history()
    ensures { (front before : List Piece) (last : Piece) → IsRow (front ++ (before ++ last ∷ [])) →
        AllByRecursion (λ piece. piece.rules ≡ last.rules) before →
        LeadsTo (whole_of (before ++ last ∷ [])) (snapshot_of (state_after last.rules last.lines)) }
{
    a_legal_history_goes_on_by_orders();
    no_head_comes_later();
    a_history_can_be_cut();
}
