ghost use Rattle.std.specs.Prelude.{◌≡◌, ◌⊎◌, map, MatchResult, IfOk, Ok, Err};
ghost use Rattle.resp_core.specs.ErrorParts.{out_of_memory};
ghost use Rattle.resp_core.specs.Reply.{array, replies_of};
ghost use Rattle.resp_core.specs.View.{view};
ghost use Rattle.redis_combiners.specs.AtPlaces.{AreAtPlaces};
ghost use Rattle.redis_combiners.specs.SortedArrays.{sorted_arrays};

use super::arrange::arrange;
use super::fit::check_fit;
use super::places::key_places;
use cluster_slots::{MultiSlotArgPattern, Route};
use resp_core::{ErrorKind, RedisError, RedisResult, Value};
use std::alloc::Global;

/// One array of the items of all replies, each at the index of its key in the command, as for
/// `MGET`. Item j of reply i belongs to key j of list i. The lists are those of the routes of a
/// split.
///
/// # Errors
///
/// In this order. `Client` if a list has a tuple that is not whole, or lacks the shared index at
/// its end. `Client` if there are not as many replies as lists. For the first reply that does not
/// fit, `UnexpectedReturnType` if it is not an array, and else `Client`. `Client` if the indices
/// are not the numbers from 0 on, each once. `OutOfMemory` may come instead of any of these.
pub fn combine_and_sort_array_results(
    alloc: Global,
    values: Vec<Value>,
    sorting_order: &[(Route, Vec<usize>)],
    pattern: &MultiSlotArgPattern,
) -> RedisResult<Value>
    ensures answer { MatchResult result
        (λ value. sorted_arrays pattern.now (map view values.items)
        (map (λ route. route.1.items) sorting_order.now)
        ≡ Ok (view value))
        (λ fault. (fault ≡ out_of_memory)
        ⊎ (sorted_arrays pattern.now (map view values.items)
        (map (λ route. route.1.items) sorting_order.now)
        ≡ Err fault.kind)) }
    ensures at_place { IfOk result (λ value. AreAtPlaces pattern.now (map view values.items)
        (map (λ route. route.1.items) sorting_order.now) (view value)) }
{
    let Some(places) = key_places(alloc, sorting_order, *pattern)? else {
        return Err(RedisError::from((
            ErrorKind::Client,
            "a list of places is not of whole tuples",
        )));
    };
    if values.len() != places.counts.len() {
        return Err(RedisError::from((
            ErrorKind::Client,
            "there are not as many replies as lists of places",
        )));
    }
    check_fit(&values, &places.counts)?;
    let Some(sorted) = arrange(alloc, values, &places.all)? else {
        return Err(RedisError::from((
            ErrorKind::Client,
            "the places are not the numbers from 0 on, each once",
        )));
    };
    Ok(as_array(sorted))
}

fn as_array(items: Vec<Value>) -> Value
    ensures { view result ≡ array (replies_of (map view items.items)) }
{
    Value::Array(items)
}
