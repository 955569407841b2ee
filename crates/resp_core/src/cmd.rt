ghost use Rattle.std.specs.Prelude.{◌≡◌, ◌<◌, ◌^◌, ◌++◌, ◌∷◌, [], ◌↔◌, IsTrue, IfOk, OnOk, OnErr, length, slice_get, slice_index, option_copied};
ghost use Rattle.std.specs.Vec.{vec_len, vec_capacity};
ghost use Rattle.std.specs.Iterator.{YieldsFirstRef, item_count};
ghost use Rattle.std.specs.Cmp.Rules.{comparing};
ghost use Rattle.std.proofs.Common.{rules};
ghost use Rattle.resp_core.specs.CmdArgs.{same_args};

use std::alloc::{AllocError, Global};
use std::marker::Model;
use std::{fmt, slice};

/// A command: its name and its arguments, each a byte string.
///
/// ```
/// let mut command = Cmd::new(alloc);
/// command.arg(b"SET")?.arg(key)?.arg(value)?;
/// ```
#[derive(Drop)]
pub struct Cmd {
    /// The bytes of the arguments, end to end.
    bytes: Vec<u8>,
    /// Where each argument ends.
    ends: Vec<usize>,
}

impl Model for Cmd {
    ghost use Rattle.std.specs.Prelude.{ℕ, List};
    ghost use Rattle.resp_core.specs.ItemEnds.{items_by_ends, AreItemsAt};

    ghost Value = { List (List ℕ) };

    ghost view = { λ c. items_by_ends 0 c.ends.items c.bytes.items };

    ghost invariant = { λ c. AreItemsAt 0 c.ends.items c.bytes.items };
}

/// Number of arguments that the first one makes room for.
const SHORT_ARGS: usize = 4;

/// Number of bytes that the first argument makes room for.
const SHORT_BYTES: usize = 32;

impl Cmd {
    /// An empty command. Takes no memory.
    pub fn new(alloc: Global) -> Cmd
        ensures { result ≡ [] }
    {
        Cmd {
            bytes: Vec::new(alloc),
            ends: Vec::new(alloc),
        }
    }

    /// An empty command with room for `items` arguments.
    ///
    /// # Errors
    ///
    /// If memory runs out.
    pub fn with_capacity(alloc: Global, items: usize) -> Result<Cmd, AllocError>
        ensures { IfOk result (λ cmd. cmd ≡ []) }
    {
        Cmd::with_room(alloc, items, 0)
    }

    /// An empty command with room for `items` arguments of `bytes` bytes in all.
    ///
    /// # Errors
    ///
    /// If memory runs out.
    pub fn with_room(alloc: Global, items: usize, bytes: usize) -> Result<Cmd, AllocError>
        ensures { IfOk result (λ cmd. cmd ≡ []) }
    {
        Ok(Cmd {
            bytes: Vec::with_capacity(alloc, bytes)?,
            ends: Vec::with_capacity(alloc, items)?,
        })
    }

    /// Adds an argument at the end, and borrows the command again for the next one.
    ///
    /// # Errors
    ///
    /// If memory runs out, the command stays as it was, as the contract of `write_arg` says.
    pub fn arg(&mut self, arg: &[u8]) -> Result<&mut Cmd, AllocError>
        ensures same_reference { IfOk result (λ cmd. cmd.ghost_name ≡ self.entry.ghost_name) }
        ensures added { IfOk result (λ cmd. cmd.now ≡ self.old ++ arg.now ∷ []) }
    {
        self.write_arg(arg)?;
        Ok(self)
    }

    /// Adds an argument at the end.
    ///
    /// # Errors
    ///
    /// If memory runs out, the command stays as it was.
    pub fn write_arg(&mut self, arg: &[u8]) -> Result<(), AllocError>
        ensures added { OnOk result (self.new ≡ self.old ++ arg.now ∷ []) }
        ensures unchanged { OnErr result (self.new ≡ self.old) }
    {
        if self.ends.len() == self.ends.capacity() {
            make_room(&mut self.ends, &mut self.bytes, arg.len())?;
        }
        self.bytes.extend_from_slice(arg)?;
        self.ends.push_reserved(self.bytes.len());
        Ok(())
    }

    /// The argument at an index; the name has index 0. An empty argument is an empty slice.
    pub fn arg_idx(&self, index: usize) -> Option<&[u8]>
        ensures item { option_copied result ≡ slice_get self.now index }
        ensures few { length self.now < 2 ^ 63 }
    {
        let end = *self.ends.get(index)?;
        let start = start_of(&self.ends, index);
        Some(&self.bytes[start..end])
    }

    /// Number of arguments, the name included.
    pub fn len(&self) -> usize
        ensures count { result ≡ length self.now }
        ensures few { length self.now < 2 ^ 63 }
    {
        self.ends.len()
    }

    /// Whether there is no argument.
    pub fn is_empty(&self) -> bool
        ensures { IsTrue result ↔ (self.now ≡ []) }
    {
        self.ends.is_empty()
    }

    /// The arguments in order.
    pub fn args(&self) -> Args<'_>
        ensures { result ≡ self.now }
    {
        Args {
            rest: &self.bytes,
            start: 0,
            ends: self.ends.iter(),
        }
    }
}

/// Makes room for the end of one more argument. The first call makes room for a short command, or
/// for the argument's bytes if these are more. So a short command allocates twice.
#[cold]
fn make_room(ends: &mut Vec<usize>, bytes: &mut Vec<u8>, len: usize) -> Result<(), AllocError>
    ensures ends { ends.new.items ≡ ends.old.items }
    ensures bytes { bytes.new.items ≡ bytes.old.items }
    ensures room { OnOk result (vec_len ends.new < vec_capacity ends.new) }
{
    if !ends.is_empty() {
        return ends.reserve(1);
    }
    bytes.reserve(SHORT_BYTES.max(len))?;
    ends.reserve(SHORT_ARGS)
}

/// Where the argument at an index starts: where the one before it ends.
fn start_of(ends: &[usize], index: usize) -> usize
    requires { index < length ends.now }
    ensures { result ≡ slice_index (0 ∷ ends.now) index }
{
    if index == 0 { 0 } else { ends[index - 1] }
}

impl Clone for Cmd {
    ghost is_clone = { λ cmd copy. copy ≡ cmd };

    fn clone(&self) -> Result<Self, AllocError> {
        Ok(Cmd {
            bytes: self.bytes.clone()?,
            ends: self.ends.clone()?,
        })
    }
}

impl PartialEq for Cmd {
    ghost eq = { same_args };

    ghost laws = { Prim.search (comparing, rules) };

    fn eq(&self, other: &Self) -> bool
        ensures value { result ≡ same_args self.now other.now }
        ensures same { IsTrue result ↔ (self.now ≡ other.now) }
    {
        self.ends == other.ends && self.bytes == other.bytes
    }
}

impl Eq for Cmd {
    ghost laws = { Prim.search (comparing, rules) };
}

/// Prints the arguments as a list of lists of numbers.
impl fmt::Debug for Cmd {
    fn fmt<W: fmt::Write>(&self, f: &mut fmt::Formatter<W>) -> fmt::Result {
        f.debug_struct("Cmd").field("args", &Items(self)).finish()
    }
}

/// The arguments of a command, to be printed.
#[derive(Drop)]
struct Items<'a>(&'a Cmd);

impl fmt::Debug for Items<'_> {
    fn fmt<W: fmt::Write>(&self, f: &mut fmt::Formatter<W>) -> fmt::Result {
        f.debug_list().entries(self.0.args()).finish()
    }
}

/// The arguments of a `Cmd`, in order.
#[derive(Drop)]
pub struct Args<'a> {
    /// The bytes of the arguments that are left.
    rest: &'a [u8],
    /// Where those bytes start in the command.
    start: usize,
    /// Where each argument that is left ends in the command.
    ends: slice::Iter<'a, usize>,
}

impl<'a> Model for Args<'a> {
    ghost use Rattle.std.specs.Prelude.{ℕ, List};
    ghost use Rattle.std.specs.Slice.Iter.{iter_rest};
    ghost use Rattle.resp_core.specs.ItemEnds.{items_by_ends, AreItemsAt};

    ghost Value = { List (List ℕ) };

    ghost view = { λ a. items_by_ends a.start (iter_rest a.ends) a.rest.now };

    ghost invariant = { λ a. AreItemsAt a.start (iter_rest a.ends) a.rest.now };
}

impl<'a> Iterator for Args<'a> {
    type Item = &'a [u8];

    ghost next_gives = { YieldsFirstRef (λ s. s) };

    ghost remaining = { item_count (λ s. s) };

    fn next(&mut self) -> Option<&'a [u8]> {
        let end = *self.ends.next()?;
        let (arg, rest) = self.rest.split_at(end - self.start);
        self.rest = rest;
        self.start = end;
        Some(arg)
    }
}

impl<'a> IntoIterator for &'a Cmd {
    type Item = &'a [u8];

    type IntoIter = Args<'a>;

    ghost into_iter_gives = { λ cmd it. it ≡ cmd.now };

    fn into_iter(self) -> Args<'a> {
        self.args()
    }
}
