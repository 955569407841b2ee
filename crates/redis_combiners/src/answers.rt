//! Answers of the targets of a command, each at its target's number: a value, or an error of its
//! server.
ghost use Rattle.std.specs.Prelude.{◌≡◌, replicate, slice_get, slice_set, is_none, Some, None, IfOk, IfErr, OnOk};
ghost use Rattle.std.specs.List.{list_any};
ghost use Rattle.redis_combiners.specs.Answers.{missing_answer};

use resp_core::{ErrorKind, RedisError, RedisResult, Value};
use std::alloc::{AllocError, Global};

/// Room for `count` answers.
pub fn no_answers(
    alloc: Global,
    count: usize,
) -> Result<Vec<Option<RedisResult<Value>>>, AllocError>
    ensures { IfOk result (λ answers. answers.items ≡ replicate count None) }
{
    let mut answers = Vec::with_capacity(alloc, count)?;
    for _ in 0..count {
        answers.push(None)?;
    }
    Ok(answers)
}

/// Takes the answer of the target of this number.
///
/// # Errors
///
/// Gives the answer back if there is no such target, or if it has answered.
pub fn tell_at(
    answers: &mut Vec<Option<RedisResult<Value>>>,
    number: usize,
    answer: RedisResult<Value>,
) -> Result<(), RedisResult<Value>>
    ensures told { OnOk result ((slice_get answers.old.items number ≡ Some None)
        × (answers.new.items ≡ slice_set answers.old.items number (Some answer))) }
    ensures refused { IfErr result (λ back. (back ≡ answer) × (answers.new ≡ answers.old)
        × (slice_get answers.old.items number ≡ Some None → ⊥)) }
{
    if number >= answers.len() || answers[number].is_some() {
        return Err(answer);
    }
    answers[number] = Some(answer);
    Ok(())
}

/// Whether a target has not answered.
pub fn is_untold(answers: &[Option<RedisResult<Value>>]) -> bool
    ensures { result ≡ list_any is_none answers.now }
{
    answers.iter().any(|answer| answer.is_none())
}

/// The error if an answer is missing.
#[cold]
pub fn missing() -> RedisError
    ensures { result ≡ missing_answer }
{
    RedisError::from((ErrorKind::Client, "a target has not answered"))
}
