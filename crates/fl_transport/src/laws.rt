//! A law of the definitions, the contract of an empty function.

ghost use Rattle.std.specs.Prelude.{◌≡◌, ℕ, List, [], ◌∷◌};
ghost use Rattle.fl_transport.specs.Collecting.{Collects, Outgoing};
ghost use Rattle.fl_wire.specs.Spell.{IsReply};

/// If no bytes wait, and then those of a reply do, this reply is collected.
pub fn a_reply_by_itself_is_collected()
    ensures { (out : Outgoing) (reply : List ℕ) → out.waiting ≡ [] → IsReply reply
        → Collects out (record out { waiting = reply }) (reply ∷ []) }
{}
