//! A law of the definitions, for those who put workers together. It is the contract of an empty function.

ghost use Rattle.std.specs.Prelude.{Bool, ◌++◌, ◌||◌};
ghost use Rattle.fl_counter.specs.Asked.{Orders};
ghost use Rattle.fl_workers.specs.Worked.{HasWorked, Standing};

use fl_counter::Counter;

/// Some orders that a worker worked on, and then others, are orders that it worked on, one after another.
#[tactic(auto, using(crate::proofs::WorkedLemmas::then_worked))]
pub fn orders_are_worked_on_in_turn<C: Counter>()
    ensures { (xs ys : Orders) (a b c : Standing) (any more lost gone : Bool)
        → HasWorked C.shows xs a b any lost → HasWorked C.shows ys b c more gone
        → HasWorked C.shows (xs ++ ys) a c (any || more) (lost || gone) }
{}
