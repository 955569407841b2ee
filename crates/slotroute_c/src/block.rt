//! A value in a block of its own, with the pointer in sight.
ghost use Rattle.std.specs.Prelude.{◌≡◌};
ghost use Rattle.std.specs.Box.Ownership.{box_owns};

use std::alloc::Allocator;
use std::marker::Model;

/// What a box is made of: a pointer to its value, and the allocator that its block goes back to.
pub struct Block<T, A: Allocator> {
    pub(crate) ptr: *mut T,
    pub(crate) alloc: A,
    pub ghost value: { T },
}

impl<T, A: Allocator> Model for Block<T, A> {
    ghost also_owns = { λ b. box_owns (A.dealloc_token b.alloc) T.row b.ptr b.value };
}

impl<T, A: Allocator> Block<T, A> {
    /// The block of a box.
    pub fn of(value: Box<T, A>) -> Block<T, A>
    where
        T: Drop,
        ensures { result.value ≡ value.value }
    {
        let (ptr, alloc) = Box::into_raw_with_allocator(value);
        Block { ptr, alloc }
    }
}
