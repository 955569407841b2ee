//! A command, and what its reply says.
ghost use Rattle.std.specs.Prelude.{◌≡◌, ◌∷◌, [], None, Some, codes, IfOk, MatchResult};
ghost use Rattle.resp_core.specs.Reply.{int_of};
ghost use Rattle.resp_core.specs.View.{view};
ghost use Rattle.resp_core.specs.declared.error.ErrorKind.TheVariants.{UnexpectedReturnType};

use resp_core::{Cmd, ErrorKind, RedisError, RedisResult, Value};
use std::alloc::{AllocError, Global};

/// The command `SET key value`.
pub fn set(alloc: Global, key: &[u8], value: &[u8]) -> Result<Cmd, AllocError>
    ensures { IfOk result (λ command. command ≡ codes "SET" ∷ key.now ∷ value.now ∷ []) }
{
    let mut command = Cmd::new(alloc);
    command.arg(b"SET")?.arg(key)?.arg(value)?;
    Ok(command)
}

/// The count in a reply, or an error if the reply is not a count.
pub fn count_in(reply: &Value) -> RedisResult<i64>
    ensures { MatchResult result
        (λ count. int_of (view reply.now) ≡ Some count)
        (λ error. (int_of (view reply.now) ≡ None) × (error.kind ≡ UnexpectedReturnType)) }
{
    let not_a_count = (ErrorKind::UnexpectedReturnType, "the reply is not a count");
    reply.as_int().ok_or(RedisError::from(not_a_count))
}
