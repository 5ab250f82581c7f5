//! A list that only proofs read. It has no size, and its methods do nothing at run time.

ghost use Rattle.std.specs.Prelude.{◌≡◌, List, [], ◌∷◌, ◌++◌};
ghost use Rattle.std.specs.Borrow.{ftrue};

use std::marker::{Model, PhantomData};

/// What came so far, item by item, in the order of time. It takes no memory: contracts alone read its `items`.
#[derive(Drop)]
pub struct Past<T> {
    of: PhantomData<T>,
    /// All items so far.
    pub ghost items: { List T },
}

impl<T> Model for Past<T> {
    ghost also_owns = { λ _. ftrue };
}

// SAFETY: it owns nothing, so nothing is sent with it.
unsafe impl<T: Send> Send for Past<T> {}

impl<T> Past<T> {
    /// Nothing came yet.
    #[inline(always)]
    pub fn new() -> Past<T>
        ensures { result.items ≡ [] }
    {
        Past { of: PhantomData }
    }

    /// The same past, and this item behind it.
    #[inline(always)]
    pub fn and(&self, item: &T) -> Past<T>
        ensures { result.items ≡ self.now.items ++ item.now ∷ [] }
    {
        Past { of: PhantomData }
    }

    /// The same past, and that of another behind it.
    #[inline(always)]
    pub fn followed_by(&self, later: &Past<T>) -> Past<T>
        ensures { result.items ≡ self.now.items ++ later.now.items }
    {
        Past { of: PhantomData }
    }

    /// The same past.
    #[inline(always)]
    pub fn same(&self) -> Past<T>
        ensures { result.items ≡ self.now.items }
    {
        Past { of: PhantomData }
    }
}
