ghost use Rattle.std.specs.Prelude.{◌≡◌, ◌<◌, ◌^◌, Option, Some, IfOk, IfSome, map, length, position, option_copied, option_map};
ghost use Rattle.resp_core.specs.Reply.{bulk_string_of, array_of};
ghost use Rattle.resp_core.specs.View.{view};
ghost use Rattle.redis_routing.specs.Command.{Arguments, argument, command_name, is_word, arguments_in};
ghost use Rattle.redis_routing.specs.TwoWords.{takes_second};

use super::lookup::is_placed;
use super::places::TWO_WORD_PLACES;
use super::tables::TWO_WORD_NAMES;
use super::upper_case::{join_upper_case, to_upper_case};
use resp_core::{Cmd, Value};
use std::alloc::{AllocError, Global};

/// What can be routed: a command as a list of arguments, of which each is bytes or a gap.
pub trait Routable {
    /// The arguments, of which 0 is the command's first word.
    ghost args: { Self → Arguments };

    /// The name in upper case, with its second word where names with this first word have one.
    /// There is none where the first argument is missing or a gap. Of `cluster info` it is
    /// `CLUSTER INFO`, and of `get key` it is `GET`.
    ///
    /// # Errors
    ///
    /// If memory runs out.
    fn command(&self, alloc: Global) -> Result<Option<Vec<u8>>, AllocError>
        ensures { IfOk result (λ name. option_map (λ v. v.items) name
            ≡ command_name (args self.now)) }
    {
        let Some(first) = self.arg_idx(0) else {
            return Ok(None);
        };
        let mut name = to_upper_case(alloc, first)?;
        if takes_second(&name) {
            if let Some(second) = self.arg_idx(1) {
                join_upper_case(&mut name, second)?;
            }
        }
        Ok(Some(name))
    }

    /// The argument at an index, unless it is a gap or not there.
    fn arg_idx(&self, index: usize) -> Option<&[u8]>
        ensures argument { option_copied result ≡ argument (args self.now) index }
        ensures few { length (args self.now) < 2 ^ 63 };

    /// The index of the first argument that is this word, in any ASCII case.
    fn position(&self, candidate: &[u8]) -> Option<usize>
        ensures place { result ≡ position (is_word candidate.now) (args self.now) }
        ensures few { IfSome result (λ place. place < 2 ^ 63) };
}

/// A command has no gaps.
impl Routable for Cmd {
    ghost args = { λ cmd. map Some cmd };

    fn arg_idx(&self, index: usize) -> Option<&[u8]> {
        self.arg_idx(index)
    }

    fn position(&self, candidate: &[u8]) -> Option<usize> {
        for place in 0..self.len() {
            if is_candidate(self.arg_idx(place), candidate) {
                return Some(place);
            }
        }
        None
    }
}

/// The items of an array, of which those that are not bulk strings are gaps. Any other value is a
/// command with no argument.
impl Routable for Value {
    ghost args = { λ value. arguments_in
        (option_map (λ items. map bulk_string_of items) (array_of (view value))) };

    fn arg_idx(&self, index: usize) -> Option<&[u8]> {
        let items = self.as_array()?;
        if index < items.len() {
            items[index].as_bulk_string()
        } else {
            None
        }
    }

    fn position(&self, candidate: &[u8]) -> Option<usize> {
        let items = self.as_array()?;
        for place in 0..items.len() {
            if is_candidate(items[place].as_bulk_string(), candidate) {
                return Some(place);
            }
        }
        None
    }
}

/// Whether the argument is there and has the word, in any ASCII case.
fn is_candidate(arg: Option<&[u8]>, candidate: &[u8]) -> bool
    ensures { result ≡ is_word candidate.now (option_copied arg.entry) }
{
    arg.is_some_and(|arg| arg.eq_ignore_ascii_case(candidate))
}

/// Whether a second word belongs to a name with this first word in upper case.
pub(super) fn takes_second(first: &[u8]) -> bool
    ensures { result ≡ takes_second first.now }
{
    is_placed(&TWO_WORD_NAMES, &TWO_WORD_PLACES, first)
}
