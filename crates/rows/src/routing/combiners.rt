//! One reply by the replies of several nodes.
use cluster_map::{Route, SlotAddr};
use fixtures::{bad_row, numbers, pieces, two, value_text, values};
use redis_cluster::routing::{
    AggregateOp, LogicalAggregateOp, MultiSlotArgPattern, aggregate,
    combine_and_sort_array_results, combine_array_results, combine_map_results, logical_aggregate,
};
use resp_core::{RedisResult, Value};
use std::alloc::Global;

/// The reply that the combiner of this name makes.
pub fn call(alloc: Global, name: &str, words: &str) -> RedisResult<String> {
    match name {
        "sorted" => value_text(alloc, &sorted(alloc, words)?),
        _ => value_text(alloc, &combined(alloc, name, values(alloc, words)?)?),
    }
}

fn combined(alloc: Global, name: &str, replies: Vec<Value>) -> RedisResult<Value> {
    match name {
        "sum" => aggregate(replies, AggregateOp::Sum),
        "min" => aggregate(replies, AggregateOp::Min),
        "and" => logical_aggregate(alloc, replies, LogicalAggregateOp::And),
        "or" => logical_aggregate(alloc, replies, LogicalAggregateOp::Or),
        "map" => combine_map_results(alloc, replies),
        _ => combine_array_results(alloc, replies),
    }
}

/// The replies after a pattern and lists of indices, put in the order of these.
fn sorted(alloc: Global, words: &str) -> RedisResult<Value> {
    let (pattern, rest) = two(words);
    let (places, replies) = two(rest);
    let pattern = pattern_of(pattern)?;
    let routes = routes(alloc, places)?;
    combine_and_sort_array_results(alloc, values(alloc, replies)?, &routes, &pattern)
}

/// Routes of these lists of indices, a slash apart.
fn routes(alloc: Global, text: &str) -> RedisResult<Vec<(Route, Vec<usize>)>> {
    let mut routes = Vec::new(alloc);
    for text in &pieces(alloc, text, "/")? {
        let places = numbers(alloc, text)?;
        routes.push((Route::new(0, SlotAddr::Master), places))?;
    }
    Ok(routes)
}

/// The pattern of this name.
pub fn pattern_of(word: &str) -> RedisResult<MultiSlotArgPattern> {
    match word {
        "KeysOnly" => Ok(MultiSlotArgPattern::KeysOnly),
        "KeyValuePairs" => Ok(MultiSlotArgPattern::KeyValuePairs),
        "KeysAndLastArg" => Ok(MultiSlotArgPattern::KeysAndLastArg),
        "KeyWithTwoArgTriples" => Ok(MultiSlotArgPattern::KeyWithTwoArgTriples),
        _ => Err(bad_row("no pattern of this name")),
    }
}
