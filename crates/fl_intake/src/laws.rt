//! A law of the definitions, in the words of their subject. It is the contract of an empty function.

ghost use Rattle.std.specs.Prelude.{◌≡◌, Bool, List, count_by};
ghost use Rattle.fl_intake.specs.Often.{AreAsOften};
ghost use Rattle.fl_order.specs.declared.order.Order.{Order};

/// Of two lists whose orders are the same, each as often, whoever picks orders picks as many. With a test that picks
/// one order alone, that order stands in both as often.
pub fn as_many_are_picked()
    ensures { (xs ys : List Order) → AreAsOften xs ys → (picks : Order → Bool) → count_by picks xs ≡ count_by picks ys }
{}
