ghost use Rattle.std.specs.Prelude.{◌≡◌, ◌⊎◌, map, MatchResult, option_map, Some, None, IfOk};
ghost use Rattle.resp_core.specs.ErrorParts.{out_of_memory};
ghost use Rattle.resp_core.specs.Reply.{array, replies_of};
ghost use Rattle.resp_core.specs.View.{view};
ghost use Rattle.resp_core.specs.declared.error.ErrorKind.TheVariants.{UnexpectedReturnType};
ghost use Rattle.redis_combiners.specs.AllItems.{all_items};

use resp_core::{ErrorKind, RedisError, RedisResult, Value};
use std::alloc::{AllocError, Global};

/// One array of the items of all replies, in order: the keys of `KEYS *`.
///
/// # Errors
///
/// `UnexpectedReturnType` if a reply is not an array. `OutOfMemory` if memory runs out.
pub fn combine_array_results(alloc: Global, values: Vec<Value>) -> RedisResult<Value>
    ensures { MatchResult result
        (λ value. option_map (λ items. array (replies_of items)) (all_items (map view values.items))
        ≡ Some (view value))
        (λ fault. (fault ≡ out_of_memory)
        ⊎ ((all_items (map view values.items) ≡ None) × (fault.kind ≡ UnexpectedReturnType))) }
{
    match collect_items(alloc, values)? {
        Some(items) => Ok(Value::Array(items)),
        None => Err(RedisError::from((ErrorKind::UnexpectedReturnType, "a reply is not an array"))),
    }
}

/// The items of all replies, if each is an array.
fn collect_items(alloc: Global, values: Vec<Value>) -> Result<Option<Vec<Value>>, AllocError>
    ensures { IfOk result (λ items. option_map (λ v. map view v.items) items
        ≡ all_items (map view values.items)) }
{
    let mut all = Vec::new(alloc);
    for value in values {
        let Some(mut items) = value.into_array() else {
            return Ok(None);
        };
        all.append(&mut items)?;
    }
    Ok(Some(all))
}
