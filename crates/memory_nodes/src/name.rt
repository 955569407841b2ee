ghost use Rattle.std.specs.Prelude.{◌≡◌, Some, IfOk, IfSome, IsSome, IsTrue, map};
ghost use Rattle.redis_routing.specs.Command.{command_name};
ghost use Rattle.redis_routing.specs.Upper.{upper};
ghost use Rattle.memory_nodes.specs.Parts.{name_bytes};

use redis_routing::{Routable, name_words};
use resp_core::Cmd;
use std::alloc::{AllocError, Global};

/// The name of a command in upper case.
#[derive(Drop)]
pub(super) enum Name<'a> {
    /// The first argument of the command, if that is in upper case.
    Given(&'a [u8]),
    /// Made of one or two arguments.
    Made(Vec<u8>),
}

impl<'a> Name<'a> {
    /// The name of a command. Takes no memory if it is one word in upper case.
    pub(super) fn of(alloc: Global, cmd: &'a Cmd) -> Result<Self, AllocError>
        requires named { IsSome (command_name (map Some cmd.now)) }
        ensures name { IfOk result (λ name. command_name (map Some cmd.now) ≡ Some (name_bytes name)) }
    {
        if let Some(name) = plain_name(cmd) {
            return Ok(Name::Given(name));
        }
        let Some(name) = cmd.command(alloc)? else {
            unreachable!()
        };
        Ok(Name::Made(name))
    }

    /// The bytes of the name.
    pub(super) fn as_slice(&self) -> &[u8]
        ensures { result.now ≡ name_bytes self.now }
    {
        match self {
            Name::Given(name) => name,
            Name::Made(name) => name.as_slice(),
        }
    }
}

/// The first argument of a command, if it is the name in upper case.
fn plain_name(cmd: &Cmd) -> Option<&[u8]>
    ensures { IfSome result (λ name. command_name (map Some cmd.now) ≡ Some name.now) }
{
    let first = cmd.arg_idx(0)?;
    (is_upper_case(first) && name_words(cmd) == 1).then_some(first)
}

/// Whether a text has no ASCII letter in lower case.
fn is_upper_case(text: &[u8]) -> bool
    ensures { IsTrue result → upper text.now ≡ text.now }
{
    text.iter().all(|byte| byte.to_ascii_uppercase() == *byte)
}
