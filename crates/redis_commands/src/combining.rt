ghost use Rattle.std.specs.Prelude.{◌≡◌, length, map, true, false, Option, Some, None, Ok, Err, filter_map, IfOk, is_none, is_some};
ghost use Rattle.std.specs.List.{list_any};
ghost use Rattle.resp_core.specs.Reply.{nil};
ghost use Rattle.resp_core.specs.View.{view};
ghost use Rattle.cluster_map.specs.Targets.{addresses_behind};
ghost use Rattle.redis_combiners.specs.Answers.{unless_nil, answers_given, first_in, missing_answer, values_in, non_nil_in, first_error, last_error};
ghost use Rattle.redis_commands.specs.Policy.{Returns, reply_or, unless_error, or_refused, refused, values_by_address};
ghost use Rattle.redis_commands.specs.Rule.{IsCombined, by_policy};

use cluster_slots::NodeAddress;
use redis_combiners::answers::{is_untold, missing};
use redis_combiners::{aggregate, combine_array_results, combine_map_results, logical_aggregate};
use redis_routing::ResponsePolicy;
use resp_core::{ErrorKind, RedisError, RedisResult, Value};
use std::alloc::{AllocError, Global};

/// The one reply to a command that went whole to several nodes, by the policy of its name. There is
/// an answer of each node, in the order of the nodes.
///
/// - one succeeded, such as `SCRIPT KILL`: the first value, else the last error
/// - first succeeded that is not empty, such as `RANDOMKEY`: the first value that is not nil, else
///   the last error, else nil
/// - all succeeded, such as `FLUSHALL`: the first value
/// - sums, least numbers, bits, arrays, maps, such as `DBSIZE` and `KEYS`: what the combiner makes
/// - special, or none, such as `INFO`: a map from each address as text to its value
///
/// In the last three an error of any node is the reply, the first one. First and last are by the
/// order of the nodes, and not by arrival. Only a map of addresses needs `nodes`.
///
/// # Errors
///
/// An error of a node, as above. `Client` if an answer is missing. `UnexpectedReturnType` if the
/// values do not fit the policy, or if the first value is wanted and no node has answered. So it is
/// for a map of addresses, unless there are as many nodes as answers. `OutOfMemory` if memory ran
/// out. The first three policies take no memory.
pub fn combine_answers(
    alloc: Global,
    policy: Option<ResponsePolicy>,
    nodes: &[&NodeAddress],
    answers: Vec<Option<RedisResult<Value>>>,
) -> RedisResult<Value>
    ensures reply { list_any is_none answers.items ≡ false → IsCombined (by_policy policy)
        (addresses_behind nodes.now) (answers_given answers.items) result }
    ensures untold { list_any is_none answers.items ≡ true → result ≡ Err missing_answer }
{
    if is_untold(&answers) {
        return Err(missing());
    }
    combine_by_policy(alloc, policy, nodes, answers)
}

/// The one reply that a policy makes of the answers of nodes.
fn combine_by_policy(
    alloc: Global,
    policy: Option<ResponsePolicy>,
    nodes: &[&NodeAddress],
    told: Vec<Option<RedisResult<Value>>>,
) -> RedisResult<Value>
    ensures { IsCombined (by_policy policy) (addresses_behind nodes.now) (answers_given told.items)
        result }
{
    match policy {
        Some(ResponsePolicy::OneSucceeded) => first_value(told),
        Some(ResponsePolicy::FirstSucceededNonEmptyOrAllEmpty) => first_non_nil(told),
        Some(ResponsePolicy::AllSucceeded) => first_of_all(told),
        // the first error, before memory is taken
        _ if has_error(&told) => first_of_all(told),
        Some(ResponsePolicy::Aggregate(op)) => aggregate(all_values(alloc, told)?, op),
        Some(ResponsePolicy::AggregateLogical(op)) => {
            logical_aggregate(alloc, all_values(alloc, told)?, op)
        }
        Some(ResponsePolicy::CombineArrays) => {
            combine_array_results(alloc, all_values(alloc, told)?)
        }
        Some(ResponsePolicy::CombineMaps) => combine_map_results(alloc, all_values(alloc, told)?),
        Some(ResponsePolicy::Special) | None => {
            let values = all_values(alloc, told)?;
            if values.len() != nodes.len() {
                return Err(unlike());
            }
            Ok(by_address(alloc, nodes, values)?)
        }
    }
}

/// The error if no node has answered.
#[cold]
fn no_answer() -> RedisError
    ensures { result.kind ≡ ErrorKind.UnexpectedReturnType }
{
    RedisError::from((ErrorKind::UnexpectedReturnType, "no node has answered"))
}

/// The error if there is not a node for each answer.
#[cold]
fn unlike() -> RedisError
    ensures { result.kind ≡ ErrorKind.UnexpectedReturnType }
{
    RedisError::from((
        ErrorKind::UnexpectedReturnType,
        "there are not as many nodes as answers",
    ))
}

/// The first value, or else the last error.
fn first_value(told: Vec<Option<RedisResult<Value>>>) -> RedisResult<Value>
    ensures { Returns result (reply_or (first_in (values_in (answers_given told.items)))
        (last_error (answers_given told.items)) (Err refused)) }
{
    let mut last = None;
    for answer in told {
        match answer {
            Some(Ok(value)) => return Ok(value),
            Some(Err(error)) => last = Some(error),
            None => {}
        }
    }
    match last {
        Some(error) => Err(error),
        None => Err(no_answer()),
    }
}

/// The first value that is not nil, or else the last error, or else nil.
fn first_non_nil(told: Vec<Option<RedisResult<Value>>>) -> RedisResult<Value>
    ensures { Returns result
        (reply_or (first_in (filter_map non_nil_in (answers_given told.items)))
        (last_error (answers_given told.items)) (Ok nil)) }
{
    let mut last = None;
    for answer in told {
        match answer {
            Some(Ok(value)) => {
                if !is_nil(&value) {
                    return Ok(value);
                }
            }
            Some(Err(error)) => last = Some(error),
            None => {}
        }
    }
    match last {
        Some(error) => Err(error),
        None => Ok(Value::Nil),
    }
}

/// Whether the value is nil.
fn is_nil(value: &Value) -> bool
    ensures { result ≡ is_none (unless_nil (view value.now)) }
{
    matches!(value, Value::Nil)
}

/// The first value, unless there is an error: then the first error.
fn first_of_all(told: Vec<Option<RedisResult<Value>>>) -> RedisResult<Value>
    ensures { Returns result (unless_error (first_error (answers_given told.items))
        (or_refused (first_in (values_in (answers_given told.items))))) }
{
    let mut first = None;
    for answer in told {
        match answer {
            Some(Ok(value)) => {
                if first.is_none() {
                    first = Some(value);
                }
            }
            Some(Err(error)) => return Err(error),
            None => {}
        }
    }
    match first {
        Some(value) => Ok(value),
        None => Err(no_answer()),
    }
}

/// Whether an answer is an error.
fn has_error(told: &[Option<RedisResult<Value>>]) -> bool
    ensures { result ≡ is_some (first_error (answers_given told.now)) }
{
    for answer in told {
        if matches!(answer, Some(Err(_))) {
            return true;
        }
    }
    false
}

/// The values among the answers.
fn all_values(
    alloc: Global,
    told: Vec<Option<RedisResult<Value>>>,
) -> Result<Vec<Value>, AllocError>
    ensures { IfOk result
        (λ values. map view values.items ≡ values_in (answers_given told.items)) }
{
    let mut values = Vec::with_capacity(alloc, told.len())?;
    for answer in told {
        match answer {
            Some(Ok(value)) => values.push(value)?,
            Some(Err(_error)) => {}
            None => {}
        }
    }
    Ok(values)
}

/// Each node's address as text, with its value.
fn by_address(
    alloc: Global,
    nodes: &[&NodeAddress],
    values: Vec<Value>,
) -> Result<Value, AllocError>
    requires same { length values.items ≡ length nodes.now }
    ensures { IfOk result (λ value. view value
        ≡ values_by_address (addresses_behind nodes.now) (map view values.items)) }
{
    let mut entries = Vec::with_capacity(alloc, values.len())?;
    let mut number = 0_usize;
    for value in values {
        let text = format!(in alloc; "{}", nodes[number])?;
        entries.push((Value::BulkString(text.into_bytes()), value))?;
        number += 1;
    }
    Ok(Value::Map(entries))
}
