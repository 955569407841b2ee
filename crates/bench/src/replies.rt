//! Calls on replies.
use crate::commands::split_of;
use crate::fault::Fault;
use crate::given::Given;
use crate::watch::Watch;
use redis_cluster::routing::{
    AggregateOp, SplitCommand, aggregate, combine_and_sort_array_results, combine_map_results,
};
use resp_core::{Cmd, Value};
use std::alloc::{AllocError, Global};

/// Something of a reply.
fn sample(reply: &Value) -> usize {
    match reply {
        Value::Array(items) => items.len(),
        Value::Map(pairs) => pairs.len(),
        _ => 1,
    }
}

/// The sum of numbers.
pub fn summed(watch: &mut Watch<'_>, given: &Given<'_>) -> Result<(), Fault> {
    let Value::Array(numbers) = given.items else {
        return Err(Fault::Refused);
    };
    watch.time_with_copies(
        given,
        numbers,
        |_, numbers| Ok(sample(&aggregate(numbers, AggregateOp::Sum)?)),
    )
}

/// The map of keys and their totals.
pub fn mapped(watch: &mut Watch<'_>, given: &Given<'_>) -> Result<(), Fault> {
    let Value::Array(counts) = given.items else {
        return Err(Fault::Refused);
    };
    watch.time_with_copies(
        given,
        counts,
        |given, counts| Ok(sample(&combine_map_results(given.alloc, counts)?)),
    )
}

/// The replies to the parts of a command that reads, by its split: an item for each key.
fn replies_to(
    alloc: Global,
    split: &SplitCommand<Cmd>,
    item: &Value,
) -> Result<Vec<Value>, AllocError> {
    let mut replies = Vec::with_capacity(alloc, split.len())?;
    for (_, places) in split.routes() {
        replies.push(Value::Array(vec![in alloc; item.clone()?; places.len()]?))?;
    }
    Ok(replies)
}

/// The items of the replies to the parts of an `MGET`, in the order of its keys.
pub fn sorted(watch: &mut Watch<'_>, given: &Given<'_>) -> Result<(), Fault> {
    let Some([_, key, ..]) = given.items.as_array() else {
        return Err(Fault::Refused);
    };
    let split = split_of(given)?;
    let replies = replies_to(given.alloc, &split, key)?;
    watch.time_with_copies(given, &replies, |given, replies| {
        let (routes, pattern) = (split.routes(), split.pattern());
        let reply = combine_and_sort_array_results(given.alloc, replies, routes, &pattern)?;
        Ok(sample(&reply))
    })
}

/// Copies an array of bulk strings, and drops the copy.
pub fn cloned(given: &Given<'_>, _turn: usize) -> Result<usize, Fault> {
    Ok(sample(&given.items.clone()?))
}
