ghost use Rattle.std.specs.Prelude.{◌≡◌, Result, Some, None, Err, IfErr, OnOk};
ghost use Rattle.resp_core.specs.ErrorParts.{ErrorParts};
ghost use Rattle.resp_core.specs.declared.value.Value.{Value};
ghost use Rattle.redis_combiners.specs.Answers.{missing_answer};

use redis_combiners::answers::missing;
use resp_core::{RedisResult, Value};

/// Takes the answer of the only target.
pub(crate) fn tell_one(
    told: &mut Option<RedisResult<Value>>,
    number: usize,
    answer: RedisResult<Value>,
) -> Result<(), RedisResult<Value>>
    ensures told { OnOk result ((number ≡ 0) × (told.old ≡ None) × (told.new ≡ Some answer)) }
    ensures refused { IfErr result (λ back. (back ≡ answer) × (told.new ≡ told.old)
        × (number ≡ 0 → told.old ≡ None → ⊥)) }
{
    if number > 0 || told.is_some() {
        return Err(answer);
    }
    *told = Some(answer);
    Ok(())
}

/// The answer of the only target.
pub(crate) fn only_answer(told: Option<RedisResult<Value>>) -> RedisResult<Value>
    ensures some { (answer : Result Value ErrorParts) → told ≡ Some answer → result ≡ answer }
    ensures none { told ≡ None → result ≡ Err missing_answer }
{
    match told {
        Some(answer) => answer,
        None => Err(missing()),
    }
}
