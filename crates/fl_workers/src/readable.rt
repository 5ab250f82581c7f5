//! What an order is read from.

ghost use Rattle.std.specs.Prelude.{◌≡◌};
ghost use Rattle.fl_order.specs.declared.order.Order.{Order};

use fl_order::Order;
use fl_wire::Single;

/// What says an order, which is read into its place.
pub(crate) trait Readable {
    /// The order.
    ghost said: { Self → Order };

    /// Writes the order into a place.
    fn read(&self, place: &mut Order)
        ensures { place.new ≡ said self.now };
}

impl Readable for Order {
    ghost said = { λ order. order };

    fn read(&self, place: &mut Order) {
        *place = *self;
    }
}

impl<'a> Readable for Single<'a> {
    ghost said = { λ order. order };

    fn read(&self, place: &mut Order) {
        Single::read(self, place);
    }
}
