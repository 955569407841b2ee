ghost use Rattle.std.specs.Prelude.{◌≡◌, ◌≢◌, ◌++◌, ◌+◌, ◌-◌, ◌<◌, ◌≤◌, ℕ, List, [], take, drop, length, replicate, IfOk, OnOk, OnErr, IfSome, IfNone, slice_get};
ghost use Rattle.session_core.specs.Inner.Heard.{counts_of, all_counts, HaveBytes};

use crate::buffer::Buffer;
use std::alloc::{AllocError, Global};
use std::collections::VecDeque;
use std::marker::Model;

/// Bytes that came one after the other, with no write between them.
#[derive(Clone, Copy)]
pub(crate) struct Arrival {
    /// How many bytes were written before they came.
    written: u64,
    /// Number of these bytes.
    count: usize,
}

/// Bytes that came, and how many bytes were written before each of them.
#[derive(Drop)]
pub(crate) struct Heard {
    bytes: Buffer,
    /// The bytes before those of the last arrival. Each arrival has some.
    earlier: VecDeque<Arrival>,
    last: Arrival,
}

impl Model for Heard {
    ghost use Rattle.std.specs.Prelude.{◌≡◌, ◌++◌, length};
    ghost use Rattle.session_core.specs.Inner.Heard as heard;
    ghost use Rattle.session_core.specs.Inner.Heard.{counts_of, all_counts, HaveBytes};

    ghost Value = { heard.Heard };

    ghost view = { λ h. record {
      bytes = h.bytes;
      written_before = all_counts h.earlier.items ++ counts_of h.last;
    } };

    ghost invariant = { λ h. HaveBytes h.earlier.items
        × (length h.bytes ≡ length (all_counts h.earlier.items ++ counts_of h.last)) };
}

impl Heard {
    /// No bytes. Takes no memory.
    pub(crate) fn new(alloc: Global) -> Heard
        ensures { result ≡ record { bytes = []; written_before = [] } }
    {
        Heard {
            bytes: Buffer::new(alloc),
            earlier: VecDeque::new(alloc),
            last: Arrival {
                written: 0,
                count: 0,
            },
        }
    }

    /// All bytes.
    pub(crate) fn as_slice(&self) -> &[u8]
        ensures { result.now ≡ self.now.bytes }
    {
        self.bytes.as_slice()
    }

    /// How many bytes were written before the first of these came, if there is one.
    pub(crate) fn written_before(&self) -> Option<u64>
        ensures first { result ≡ slice_get self.now.written_before 0 }
        ensures some { IfSome result (λ count. self.now.bytes ≢ []) }
        ensures none { IfNone result (self.now.bytes ≡ []) }
    {
        if let Some(first) = self.earlier.front() {
            return Some(first.written);
        }
        if self.last.count == 0 {
            return None;
        }
        Some(self.last.written)
    }

    /// Adds bytes that came after so many bytes were written. All calls together cost O(bytes).
    ///
    /// # Errors
    ///
    /// If memory runs out. The bytes stay as they are.
    pub(crate) fn push(&mut self, bytes: &[u8], written: u64) -> Result<(), AllocError>
        ensures ok { OnOk result (self.new ≡ record {
          bytes = self.old.bytes ++ bytes.now;
          written_before = self.old.written_before ++ replicate (length bytes.now) written;
        }) }
        ensures err { OnErr result (self.new ≡ self.old) }
    {
        self.last = latest(&mut self.earlier, self.last, written)?;
        let Some(count) = self.last.count.checked_add(bytes.len()) else {
            return Err(AllocError);
        };
        self.bytes.push(bytes)?;
        self.last = Arrival { written, count };
        Ok(())
    }

    /// Takes `count` bytes from the front, as [`Buffer::take_front`].
    ///
    /// # Errors
    ///
    /// If memory runs out. The bytes stay as they are.
    pub(crate) fn take_front(&mut self, alloc: Global, count: usize) -> Result<Vec<u8>, AllocError>
        requires { count ≤ length self.old.bytes }
        ensures taken { IfOk result (λ front. front.items ≡ take count self.old.bytes) }
        ensures ok { OnOk result (self.new ≡ record {
          bytes = drop count self.old.bytes;
          written_before = drop count self.old.written_before;
        }) }
        ensures err { OnErr result (self.new ≡ self.old) }
    {
        let front = self.bytes.take_front(alloc, count)?;
        let Arrival {
            written,
            count: last,
        } = self.last;
        let left = forget(&mut self.earlier, count);
        self.last = Arrival {
            written,
            count: last - left,
        };
        Ok(front)
    }
}

/// The arrival that next bytes belong to, if they come after so many bytes were written.
fn latest(
    earlier: &mut VecDeque<Arrival>,
    last: Arrival,
    written: u64,
) -> Result<Arrival, AllocError>
    requires { HaveBytes earlier.old.items }
    ensures written { IfOk result (λ next. next.written ≡ written) }
    ensures same { IfOk result (λ next. all_counts earlier.new.items ++ counts_of next
        ≡ all_counts earlier.old.items ++ counts_of last) }
    ensures have_bytes { HaveBytes earlier.new.items }
    ensures err { OnErr result (earlier.new.items ≡ earlier.old.items) }
{
    if last.written == written {
        return Ok(last);
    }
    let next = Arrival { written, count: 0 };
    if last.count == 0 {
        return Ok(next);
    }
    earlier.push_back(last)?;
    Ok(next)
}

/// Forgets `count` bytes at the front, or all if they are fewer. Returns how many are missing.
fn forget(earlier: &mut VecDeque<Arrival>, count: usize) -> usize
    requires { HaveBytes earlier.old.items }
    ensures rest { all_counts earlier.new.items ≡ drop count (all_counts earlier.old.items) }
    ensures left { result ≡ count - length (all_counts earlier.old.items) }
    ensures have_bytes { HaveBytes earlier.new.items }
{
    let mut left = count;
    while left > 0 && !earlier.is_empty() {
        left = forget_some(earlier, left);
    }
    left
}

/// Forgets bytes of the first arrival, `count` at most. Returns how many are missing.
fn forget_some(earlier: &mut VecDeque<Arrival>, count: usize) -> usize
    requires have_bytes { HaveBytes earlier.old.items }
    requires some { 0 < length earlier.old.items }
    ensures rest { drop result (all_counts earlier.new.items) ≡ drop count (all_counts earlier.old.items) }
    ensures left { result - length (all_counts earlier.new.items)
        ≡ count - length (all_counts earlier.old.items) }
    ensures have_bytes { HaveBytes earlier.new.items }
    ensures fewer { 0 < count → result + length earlier.new.items < count + length earlier.old.items }
{
    let Arrival {
        written,
        count: there,
    } = earlier[0];
    if there <= count {
        earlier.pop_front();
        return count - there;
    }
    earlier[0] = Arrival {
        written,
        count: there - count,
    };
    0
}
