//! Which callers may have a reply.

ghost use Rattle.std.specs.Prelude.{◌≡◌, ◌≤◌, ◌<◌, ◌+◌, ℕ, [], drop, true, None, Some, IfSome, IfNone, slice_get, Contains};
ghost use Rattle.redis_session.specs.Due.{IsNoted};

use std::alloc::Global;
use std::collections::VecDeque;

/// Stands for the number of a call where there is none.
const NO_CALL: u64 = u64::MAX;

/// Which callers may have a reply: those in a queue, and those of the calls from some call on.
///
/// To note a caller cannot fail: if there is no room for it, each call that is kept is looked at.
#[derive(Drop)]
pub(crate) struct Due {
    /// The first call that is kept, or one before it.
    first: u64,
    callers: VecDeque<u64>,
    /// The first of the calls that are looked at one by one.
    from: u64,
}

impl Due {
    /// No caller has a reply. Takes no memory.
    pub(crate) fn new(alloc: Global) -> Due
        ensures { result.first ≡ 0 }
    {
        Due {
            first: 0,
            callers: VecDeque::new(alloc),
            from: NO_CALL,
        }
    }

    /// The first call that is kept, or one before it.
    pub(crate) fn first_call(&self) -> u64
        ensures { result ≡ self.now.first }
    {
        self.first
    }

    /// Notes that the first call that is kept was forgotten.
    pub(crate) fn note_trimmed(&mut self)
        ensures first { self.new.first ≤ self.old.first + 1 }
        ensures noted { (caller call : ℕ) → IsNoted caller call self.old → IsNoted caller call self.new }
    {
        self.first = self.first.saturating_add(1);
    }

    /// Notes that a caller may have a reply. The queue has at most so many callers after that.
    pub(crate) fn note(&mut self, caller: u64, most: usize)
        ensures own { (call : ℕ) → self.old.first ≤ call → IsNoted caller call self.new }
        ensures others { (other call : ℕ) → self.old.first ≤ call → IsNoted other call self.old
            → IsNoted other call self.new }
        ensures first { self.new.first ≡ self.old.first }
    {
        if self.is_at_an_end(caller) {
            return;
        }
        if self.callers.len() < most && self.callers.push_back(caller).is_ok() {
            return;
        }
        self.callers.clear();
        self.from = self.first;
    }

    /// Whether a caller is the first or the last in the queue.
    fn is_at_an_end(&self, caller: u64) -> bool
        ensures { result ≡ true → Contains self.now.callers.items caller }
    {
        self.is_first(caller) || self.is_last(caller)
    }

    /// Whether a caller is the first in the queue.
    fn is_first(&self, caller: u64) -> bool
        ensures { result ≡ true → Contains self.now.callers.items caller }
    {
        match self.callers.front() {
            Some(first) => *first == caller,
            None => false,
        }
    }

    /// Whether a caller is the last in the queue.
    fn is_last(&self, caller: u64) -> bool
        ensures { result ≡ true → Contains self.now.callers.items caller }
    {
        match self.callers.back() {
            Some(last) => *last == caller,
            None => false,
        }
    }

    /// The first caller in the queue.
    pub(crate) fn first(&self) -> Option<u64>
        ensures some { IfSome result (λ caller. slice_get self.now.callers.items 0 ≡ Some caller) }
        ensures none { IfNone result (self.now.callers.items ≡ []) }
    {
        match self.callers.front() {
            Some(caller) => Some(*caller),
            None => None,
        }
    }

    /// Drops the first caller in the queue.
    pub(crate) fn drop_first(&mut self)
        ensures callers { self.new.callers.items ≡ drop 1 self.old.callers.items }
        ensures from { self.new.from ≡ self.old.from }
        ensures first { self.new.first ≡ self.old.first }
    {
        self.callers.pop_front();
    }

    /// Puts the first caller in the queue behind the others.
    pub(crate) fn turn(&mut self)
        ensures noted { (caller call : ℕ) → IsNoted caller call self.old → IsNoted caller call self.new }
        ensures first { self.new.first ≡ self.old.first }
    {
        if !self.callers.is_empty() {
            self.callers.rotate_left(1);
        }
    }

    /// The first of the calls that are looked at one by one.
    pub(crate) fn from(&self) -> u64
        ensures { result ≡ self.now.from }
    {
        self.from
    }

    /// Goes on to the next of the calls that are looked at one by one.
    pub(crate) fn pass(&mut self)
        requires { self.old.from < 18446744073709551615 }
        ensures callers { self.new.callers.items ≡ self.old.callers.items }
        ensures from { self.new.from ≡ self.old.from + 1 }
        ensures first { self.new.first ≡ self.old.first }
    {
        self.from += 1;
    }

    /// Puts the caller of the first call that is looked at by itself into the queue, and goes on to the next one. If
    /// memory runs out, nothing changes.
    pub(crate) fn take_up(&mut self, caller: u64)
        requires { self.old.from < 18446744073709551615 }
        ensures noted { (other call : ℕ) → IsNoted other call self.old → (call ≡ self.old.from → other ≡ caller)
            → IsNoted other call self.new }
        ensures first { self.new.first ≡ self.old.first }
    {
        if self.callers.push_back(caller).is_ok() {
            self.from += 1;
        }
    }
}
