//! Addresses of nodes.
use cluster_map::{NodeAddress, split_node_address};
use fixtures::{bad_row, debug, debug_result, equality_result, number, shown_result, two};
use resp_core::RedisResult;
use std::alloc::Global;

/// What a call of this name returns.
pub fn call(alloc: Global, name: &str, words: &str) -> RedisResult<String> {
    match name {
        "split" => debug(alloc, &split_node_address(words)?),
        "address" => shown_result(alloc, NodeAddress::try_from(alloc, words)),
        "new" => new(alloc, words),
        "default" => debug_result(alloc, NodeAddress::default(alloc)),
        "copied" => equality_result(alloc, NodeAddress::try_from(alloc, words)),
        _ => Err(bad_row("no call of this name")),
    }
}

/// What `Debug` prints of the address of a host and a port.
fn new(alloc: Global, words: &str) -> RedisResult<String> {
    let (host, port) = two(words);
    debug_result(alloc, NodeAddress::new(alloc, host, number(port)?))
}
