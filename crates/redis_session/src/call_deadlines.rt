//! The deadlines of calls.

ghost use Rattle.std.specs.Prelude.{◌≡◌, ◌⊎◌, ◌++◌, ◌-◌, ◌∷◌, [], drop, length, take, ◌<◌, ◌≤◌, Some, None, slice_get, OnOk, OnErr, IfSome, IfNone};
ghost use Rattle.redis_session.specs.Deadlines.{BeginsAt, deadline_of, is_over};

use std::alloc::{AllocError, Global};
use std::collections::VecDeque;
use std::marker::Model;

/// The deadlines of calls, by their numbers, which rise one by one. To find one takes constant time.
#[derive(Drop)]
pub(crate) struct CallDeadlines {
    /// The number of the first call whose deadline is kept.
    first: u64,
    items: VecDeque<u64>,
}

impl Model for CallDeadlines {
    ghost use Rattle.redis_session.specs.Deadlines.{Deadlines, deadlines_from};

    ghost Value = { Deadlines };

    ghost view = { λ d. deadlines_from d.first d.items.items };
}

impl CallDeadlines {
    /// None. Takes no memory.
    pub(crate) fn new(alloc: Global) -> CallDeadlines
        ensures { result ≡ [] }
    {
        CallDeadlines {
            first: 0,
            items: VecDeque::new(alloc),
        }
    }

    /// How many are kept.
    pub(crate) fn len(&self) -> usize {
        self.items.len()
    }

    /// The number of the first call whose deadline is kept, if one is.
    pub(crate) fn first(&self) -> Option<u64>
        ensures some { IfSome result (λ call. BeginsAt call self.now) }
    {
        if self.items.is_empty() {
            return None;
        }
        Some(self.first)
    }

    /// Adds the deadline of the next call.
    ///
    /// # Errors
    ///
    /// If memory runs out, or it is not the next call. Nothing changes then.
    pub(crate) fn add(&mut self, call: u64, deadline: u64) -> Result<(), AllocError>
        ensures added { OnOk result (self.new ≡ self.old ++ (call, deadline) ∷ []) }
        ensures unchanged { OnErr result (self.new ≡ self.old) }
    {
        if self.items.is_empty() {
            self.items.push_back(deadline)?;
            self.first = call;
            return Ok(());
        }
        let Some(next) = self.first.checked_add(self.items.len() as u64) else {
            return Err(AllocError);
        };
        if next != call {
            return Err(AllocError);
        }
        self.items.push_back(deadline)?;
        Ok(())
    }

    /// Takes back the last deadline.
    pub(crate) fn take_back(&mut self)
        ensures { self.new ≡ take (length self.old - 1) self.old }
    {
        self.items.pop_back();
    }

    /// Forgets the first deadline.
    pub(crate) fn forget_first(&mut self)
        ensures { (self.new ≡ drop 1 self.old) ⊎ (self.new ≡ self.old) }
    {
        let Some(next) = self.first.checked_add(1) else {
            return;
        };
        if self.items.pop_front().is_some() {
            self.first = next;
        }
    }

    /// Whether the time of a call is over, if its deadline is kept.
    pub(crate) fn is_over(&self, call: u64, now: u64) -> bool
        ensures { result ≡ is_over (deadline_of call self.now) now }
    {
        match item_of(self.first, &self.items, call) {
            Some(deadline) => *deadline <= now,
            None => false,
        }
    }
}

/// The item of a call, if the first one is that of call `first`.
fn item_of(first: u64, items: &VecDeque<u64>, call: u64) -> Option<&u64>
    ensures some { IfSome result (λ item. (first ≤ call) × (slice_get items.now.items (call - first) ≡ Some item.now)) }
    ensures none { IfNone result ((call < first) ⊎ (slice_get items.now.items (call - first) ≡ None)) }
{
    if call < first {
        return None;
    }
    items.get((call - first) as usize)
}
