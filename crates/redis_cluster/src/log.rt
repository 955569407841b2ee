ghost use Rattle.std.specs.Prelude.{◌≡◌, List, [], ◌∷◌, ◌++◌, map};
ghost use Rattle.std.specs.Borrow.{ftrue};

use std::marker::{Model, PhantomData};

/// What was noted so far, which only proofs read. It takes no memory, and noting does nothing. By it
/// nodes can state what they gave and were asked.
#[derive(Drop)]
pub struct Log<A, B, C> {
    of: PhantomData<(A, B, C)>,
    pub ghost items: { List (A × List B × C) },
}

impl<A, B, C> Model for Log<A, B, C> {
    ghost also_owns = { λ _. ftrue };
}

// It owns nothing.
unsafe impl<A: Send, B: Send, C: Send> Send for Log<A, B, C> {}

unsafe impl<A: Sync, B: Sync, C: Sync> Sync for Log<A, B, C> {}

impl<A, B, C> Log<A, B, C> {
    /// Nothing was noted yet.
    pub fn new() -> Self
        ensures { result.items ≡ [] }
    {
        Log { of: PhantomData }
    }

    /// This log, and then these.
    pub fn and(&self, first: &A, second: &[&B], third: &C) -> Self
        ensures { result.items ≡ self.now.items ++ (first.now, map (λ b. b.now) second.now, third.now) ∷ [] }
    {
        Log { of: PhantomData }
    }
}
