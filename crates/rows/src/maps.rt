//! The map of a cluster, and its shards.
mod picks;
mod shards;

use crate::picked::are_few_in_vain;
use cluster_map::{Route, SlotMap, parse_slots, slot_cmd};
use fixtures::{
    Turns, bad_row, cmd_text, debug, debug_result, done, equality_result, lines, map, number, put,
    ranges, slot_addr, two, value,
};
use resp_core::RedisResult;
use std::alloc::Global;

/// What a call of this name returns. The map is that of earlier rows.
pub fn call(slots: &mut SlotMap, alloc: Global, name: &str, words: &str) -> RedisResult<String> {
    match name {
        "map" => put(alloc, slots, map(alloc, words)),
        "fill" => done(alloc, slots.fill_slots(ranges(alloc, words)?)),
        "reply" => put(alloc, slots, map_of_reply(alloc, words)),
        _ => ask(slots, alloc, name, words),
    }
}

/// What a call of this name returns that sets nothing.
fn ask(slots: &SlotMap, alloc: Global, name: &str, words: &str) -> RedisResult<String> {
    match name {
        "printed" => debug(alloc, slots),
        "default" => debug(alloc, &SlotMap::default(alloc)),
        "node" => node(alloc, slots, words),
        "nodes" => nodes(alloc, slots, words),
        "picked" | "told" => picks::picked(alloc, slots, words, name == "told"),
        "fallback" => debug_result(alloc, slots.shard_fallback_addrs(alloc, route_of(words)?)),
        "primaries" => debug_result(alloc, slots.addresses_for_all_primaries(alloc)),
        "all_nodes" => debug_result(alloc, slots.addresses_for_all_nodes(alloc)),
        "topology" => shards::listed(alloc, &slots.topology(alloc)?),
        "shard" => shards::at(alloc, &slots.topology(alloc)?, number(words)?),
        _ => make(alloc, name, words),
    }
}

/// What a call of this name returns that takes no map.
fn make(alloc: Global, name: &str, words: &str) -> RedisResult<String> {
    match name {
        "parsed" => parsed(alloc, words),
        "shards" | "copied_shards" | "shard_of" => shards::call(alloc, name, words),
        "copied_ranges" => equality_result(alloc, ranges(alloc, words)),
        "slots_command" => cmd_text(alloc, &slot_cmd(alloc)?),
        "few_in_vain" => are_few_in_vain(alloc, words),
        _ => Err(bad_row("no call of this name")),
    }
}

/// The ranges of a reply, after the host of the node that answered.
fn parsed(alloc: Global, words: &str) -> RedisResult<String> {
    let (answering, reply) = two(words);
    let reply = value(alloc, reply)?;
    debug_result(alloc, parse_slots(alloc, &reply, answering))
}

fn map_of_reply(alloc: Global, words: &str) -> RedisResult<SlotMap> {
    let (answering, reply) = two(words);
    SlotMap::from_reply(alloc, &value(alloc, reply)?, answering)
}

/// The route of a text: a slot, and which of its nodes.
fn route_of(words: &str) -> RedisResult<Route> {
    let (slot, addr) = two(words);
    Ok(Route::new(number(slot)?, slot_addr(addr)?))
}

/// The node of a route, and how often a strategy was asked for it.
fn node(alloc: Global, slots: &SlotMap, words: &str) -> RedisResult<String> {
    let turns = Turns::new();
    let node = slots.slot_addr_for_route(route_of(words)?, Some(&turns), 0);
    Ok(format!(in alloc; "{node:?}, asked {}", turns.asked())?)
}

/// The routes of a text, a semicolon and a space apart, each with no index.
pub fn routes_of(alloc: Global, words: &str) -> RedisResult<Vec<(Route, Vec<usize>)>> {
    let mut routes = Vec::new(alloc);
    for line in &lines(alloc, words)? {
        routes.push((route_of(line)?, Vec::new(alloc)))?;
    }
    Ok(routes)
}

/// The nodes of many routes, and how often a strategy was asked for them.
fn nodes(alloc: Global, slots: &SlotMap, words: &str) -> RedisResult<String> {
    let routes = routes_of(alloc, words)?;
    let turns = Turns::new();
    let nodes = slots.addresses_for_multi_slot(alloc, &routes, Some(&turns), 0)?;
    Ok(format!(in alloc; "{nodes:?}, asked {}", turns.asked())?)
}
