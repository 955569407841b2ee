//! The calls of one caller that are owed a reply.

ghost use Rattle.std.specs.Prelude.{◌≡◌, ◌<◌, ℕ, true, false, OnOk, OnErr, IfSome, IfNone};
ghost use Rattle.session_machine.specs.Ties.{Owes, is_owed, no_owed, IsFirstOwed};

use session_core::take_place;
use std::alloc::{AllocError, Global};
use std::collections::VecDeque;
use std::marker::Model;

/// A list with room for more calls is not kept for reuse.
const FEW: usize = 16;

/// The calls of one caller that are owed a reply. They rise in the order of the calls, so that the first one gets its
/// reply next.
#[derive(Drop)]
pub(crate) struct Owed {
    numbers: VecDeque<u64>,
}

impl Model for Owed {
    ghost use Rattle.std.specs.Prelude.{ℕ, List};
    ghost use Rattle.session_core.specs.Inner.Lane.{Ascends};

    ghost Value = { List ℕ };

    ghost view = { λ s. s.numbers.items };

    ghost invariant = { λ s. Ascends s.numbers.items };
}

impl Owed {
    /// No calls. Takes no memory.
    pub(crate) fn new(alloc: Global) -> Owed
        ensures { result ≡ no_owed }
    {
        Owed {
            numbers: VecDeque::new(alloc),
        }
    }

    /// Takes each call away. It keeps its memory.
    pub(crate) fn clear(&mut self)
        ensures { self.new ≡ no_owed }
    {
        self.numbers.clear();
    }

    /// Whether it has room for few calls at most.
    pub(crate) fn is_small(&self) -> bool {
        self.numbers.capacity() <= FEW
    }

    /// Adds a call, which is later than the others.
    ///
    /// # Errors
    ///
    /// If memory runs out. Nothing changes then.
    pub(crate) fn push(&mut self, number: u64) -> Result<(), AllocError>
        requires { (call : ℕ) → is_owed call self.old ≡ true → call < number }
        ensures ok { OnOk result (Owes self.old self.new number true) }
        ensures err { OnErr result (self.new ≡ self.old) }
    {
        self.numbers.push_back(number)?;
        Ok(())
    }

    /// The first call, if there is one.
    pub(crate) fn first(&self) -> Option<u64>
        ensures some { IfSome result (λ call. IsFirstOwed call self.now) }
        ensures none { IfNone result ((call : ℕ) → is_owed call self.now ≡ false) }
    {
        match self.numbers.front() {
            Some(call) => Some(*call),
            None => None,
        }
    }

    /// Takes a call away, if it is there. If there are some before and after it, up to half of their numbers move by
    /// one.
    pub(crate) fn remove(&mut self, number: u64)
        ensures { Owes self.old self.new number false }
    {
        take_place(&mut self.numbers, number);
    }
}
