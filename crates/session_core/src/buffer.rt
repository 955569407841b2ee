ghost use Rattle.std.specs.Prelude.{◌≡◌, ◌++◌, ◌≤◌, [], take, drop, length, IfOk, OnOk, OnErr};

use std::alloc::{AllocError, Global};
use std::marker::Model;
use std::mem;

/// Bytes that are added at the end and taken at the front.
#[derive(Drop)]
pub(crate) struct Buffer {
    bytes: Vec<u8>,
    /// How many bytes at the front are used up.
    used: usize,
}

impl Model for Buffer {
    ghost use Rattle.std.specs.Prelude.{◌≤◌, ℕ, List, drop, length};

    ghost Value = { List ℕ };

    ghost view = { λ b. drop b.used b.bytes.items };

    ghost invariant = { λ b. b.used ≤ length b.bytes.items };
}

impl Buffer {
    /// An empty buffer. Takes no memory.
    pub(crate) fn new(alloc: Global) -> Buffer
        ensures { result ≡ [] }
    {
        Buffer {
            bytes: Vec::new(alloc),
            used: 0,
        }
    }

    /// All bytes.
    pub(crate) fn as_slice(&self) -> &[u8]
        ensures { result.now ≡ self.now }
    {
        let (_, rest) = self.bytes.as_slice().split_at(self.used);
        rest
    }

    /// Number of bytes.
    pub(crate) fn len(&self) -> usize
        ensures { result ≡ length self.now }
    {
        self.bytes.len() - self.used
    }

    /// Adds bytes at the end. All calls together cost O(bytes), whatever is left in the buffer.
    ///
    /// # Errors
    ///
    /// If memory runs out. The bytes stay as they are.
    pub(crate) fn push(&mut self, bytes: &[u8]) -> Result<(), AllocError>
        ensures ok { OnOk result (self.new ≡ self.old ++ bytes.now) }
        ensures err { OnErr result (self.new ≡ self.old) }
    {
        self.reclaim();
        self.bytes.extend_from_slice(bytes)
    }

    /// Adds two pieces at the end, or neither.
    ///
    /// # Errors
    ///
    /// If memory runs out. The bytes stay as they are.
    pub(crate) fn push_both(&mut self, first: &[u8], second: &[u8]) -> Result<(), AllocError>
        ensures ok { OnOk result (self.new ≡ self.old ++ (first.now ++ second.now)) }
        ensures err { OnErr result (self.new ≡ self.old) }
    {
        self.reclaim();
        self.bytes.reserve(first.len() + second.len())?;
        self.bytes.extend_from_slice(first)?;
        self.bytes.extend_from_slice(second)
    }

    /// Drops `count` bytes at the front.
    pub(crate) fn drop_front(&mut self, count: usize)
        requires { count ≤ length self.old }
        ensures { self.new ≡ drop count self.old }
    {
        self.used += count;
    }

    /// Takes `count` bytes from the front. If these are all bytes, and fill half of the room at
    /// least, the room goes with them, which takes no memory. Else they are copied, so that a short
    /// reply keeps no large room.
    ///
    /// # Errors
    ///
    /// If memory runs out. The bytes stay as they are.
    pub(crate) fn take_front(&mut self, alloc: Global, count: usize) -> Result<Vec<u8>, AllocError>
        requires { count ≤ length self.old }
        ensures taken { IfOk result (λ front. front.items ≡ take count self.old) }
        ensures ok { OnOk result (self.new ≡ drop count self.old) }
        ensures err { OnErr result (self.new ≡ self.old) }
    {
        if count == self.len() && count >= self.bytes.capacity() / 2 {
            return Ok(self.take_all(alloc));
        }
        let (front, _) = self.as_slice().split_at(count);
        let copy = Vec::from_slice(alloc, front)?;
        self.used += count;
        Ok(copy)
    }

    /// Takes all bytes, with their room.
    fn take_all(&mut self, alloc: Global) -> Vec<u8>
        ensures taken { result.items ≡ self.old }
        ensures empty { self.new ≡ [] }
    {
        forget_front(&mut self.bytes, self.used);
        self.used = 0;
        mem::replace(&mut self.bytes, Vec::new(alloc))
    }

    /// Makes room of the bytes that are used up, if they are half of all at least. So no byte is
    /// moved twice before as many are used up.
    fn reclaim(&mut self)
        ensures { self.new ≡ self.old }
    {
        if self.used < self.bytes.len() - self.used {
            return;
        }
        forget_front(&mut self.bytes, self.used);
        self.used = 0;
    }
}

/// Drops `count` bytes at the front, and moves the others there.
fn forget_front(bytes: &mut Vec<u8>, count: usize)
    requires { count ≤ length bytes.old.items }
    ensures { bytes.new.items ≡ drop count bytes.old.items }
{
    if count == 0 {
        return;
    }
    let left = bytes.len() - count;
    bytes.copy_within(count.., 0);
    bytes.truncate(left);
}
