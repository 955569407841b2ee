//! Calls on slots of keys and maps of slots.
use crate::fault::Fault;
use crate::given::Given;
use cluster_map::{Route, Slot, SlotAddr, SlotMap, SlotRangeMap};
use std::alloc::{AllocError, Global};

/// The slot of each of 64 keys in turn.
pub fn key_slot(given: &Given<'_>, turn: usize) -> Result<usize, Fault> {
    let key = given.words.get(turn & 63).ok_or(Fault::Refused)?;
    Ok(usize::from(Slot::for_key(key).number()))
}

/// A slot for each turn, spread over all.
fn slot_of(turn: usize) -> u16 {
    u16::try_from(turn.wrapping_mul(40_503) & 16_383).unwrap_or(0)
}

/// The port of the node that serves a slot, as a map has it.
fn port_at(map: &SlotMap, slot: u16) -> usize {
    match map.slot_addr_for_route(Route::new(slot, SlotAddr::Master), None, 0) {
        Some(node) => usize::from(node.port()),
        None => 0,
    }
}

/// The node of each slot in turn.
pub fn node_of_slot(given: &Given<'_>, turn: usize) -> Result<usize, Fault> {
    Ok(port_at(given.map, slot_of(turn)))
}

/// The map of a reply to `CLUSTER SLOTS`.
pub fn from_reply(given: &Given<'_>, _turn: usize) -> Result<usize, Fault> {
    let map = SlotMap::from_reply(given.alloc, given.ranges, "10.0.0.1")?;
    Ok(port_at(&map, 0))
}

/// As many slots as there are items.
fn slot_count(given: &Given<'_>) -> u16 {
    u16::try_from(given.items.as_array().unwrap_or(&[]).len()).unwrap_or(u16::MAX)
}

/// A map of ranges of one slot, inserted one by one from the last.
pub fn inserted(given: &Given<'_>, _turn: usize) -> Result<usize, Fault> {
    let mut map: SlotRangeMap<u16> = SlotRangeMap::new(given.alloc);
    for slot in (0..slot_count(given)).rev() {
        map.insert(slot, slot, slot)?;
    }
    Ok(usize::from(map.get(0).is_some()))
}

/// The ranges of one slot, from the last.
fn descending(alloc: Global, count: u16) -> Result<Vec<(u16, u16, u16)>, AllocError> {
    let mut ranges = Vec::with_capacity(alloc, usize::from(count))?;
    for slot in (0..count).rev() {
        ranges.push((slot, slot, slot))?;
    }
    Ok(ranges)
}

/// The same map, made of all ranges at once.
pub fn extended(given: &Given<'_>, _turn: usize) -> Result<usize, Fault> {
    let mut map: SlotRangeMap<u16> = SlotRangeMap::new(given.alloc);
    map.extend(descending(given.alloc, slot_count(given))?)?;
    Ok(usize::from(map.get(0).is_some()))
}

/// The topology of a map.
pub fn topology(given: &Given<'_>, turn: usize) -> Result<usize, Fault> {
    let topology = given.map.topology(given.alloc)?;
    Ok(usize::from(topology.shard_for_slot(slot_of(turn)).is_some()))
}

/// All nodes of a map.
pub fn nodes(given: &Given<'_>, _turn: usize) -> Result<usize, Fault> {
    Ok(given.map.addresses_for_all_nodes(given.alloc)?.len())
}

/// All primaries of a map.
pub fn primaries(given: &Given<'_>, _turn: usize) -> Result<usize, Fault> {
    Ok(given.map.addresses_for_all_primaries(given.alloc)?.len())
}
