//! The nodes that strategies pick.
use crate::maps::routes_of;
use cluster_map::{ReadRoutingStrategy, Route, SlotMap};
use fixtures::{Strategy, cut, debug, number, plain, two};
use resp_core::RedisResult;
use std::alloc::Global;

/// The nodes of routes by a strategy, which is passed the topology of the map before if it is to be
/// told. The number after `none` is the pick.
pub fn picked(alloc: Global, slots: &SlotMap, words: &str, is_told: bool) -> RedisResult<String> {
    let (words, routes) = cut(words, " | ");
    let routes = routes_of(alloc, routes)?;
    match Strategy::new(words)? {
        None => nodes(alloc, slots, &routes, None, number(two(words).1)?),
        Some(mut strategy) => {
            if is_told {
                strategy.on_topology_changed(slots.topology(alloc)?);
            }
            nodes(alloc, slots, &routes, Some(&strategy), 0)
        }
    }
}

/// The nodes of routes, which have to be those of each route alone.
fn nodes(
    alloc: Global,
    slots: &SlotMap,
    routes: &[(Route, Vec<usize>)],
    strategy: Option<&dyn ReadRoutingStrategy>,
    pick: usize,
) -> RedisResult<String> {
    let nodes = slots.addresses_for_multi_slot(alloc, routes, strategy, pick)?;
    for ((route, _), node) in routes.iter().zip(&nodes) {
        if slots.slot_addr_for_route(*route, strategy, pick) != *node {
            return plain(alloc, "another node for a route alone");
        }
    }
    debug(alloc, &nodes)
}
