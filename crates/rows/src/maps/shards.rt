//! The shards of a topology.
use cluster_map::{ClusterTopology, Shard};
use fixtures::{bad_row, number, pieces, plain, push_next, ranges, two};
use resp_core::RedisResult;
use std::alloc::Global;

/// What a call of this name returns for the topology of some shards.
pub fn call(alloc: Global, name: &str, words: &str) -> RedisResult<String> {
    match name {
        "shards" => listed(alloc, &topology_of(alloc, words)?),
        "copied_shards" => listed(alloc, &topology_of(alloc, words)?.clone()?),
        _ => {
            let (slot, shards) = two(words);
            at(alloc, &topology_of(alloc, shards)?, number(slot)?)
        }
    }
}

/// The topology of shards with a bar between them.
fn topology_of(alloc: Global, words: &str) -> RedisResult<ClusterTopology> {
    let mut shards = Vec::new(alloc);
    for text in &pieces(alloc, words, " | ")? {
        shards.push(shard(alloc, text)?)?;
    }
    Ok(ClusterTopology::from_shards(alloc, shards)?)
}

/// The shard of some ranges, with the nodes of the first one.
fn shard(alloc: Global, text: &str) -> RedisResult<Shard> {
    let ranges = ranges(alloc, text)?;
    let mut slots = Vec::new(alloc);
    for range in &ranges {
        slots.push((range.start, range.end))?;
    }
    match ranges.into_iter().next() {
        Some(range) => Ok(Shard::new(slots, range.master, range.replicas)),
        None => Err(bad_row("no range")),
    }
}

/// The primary of a shard, its ranges and its replicas.
fn shard_text(alloc: Global, shard: &Shard) -> RedisResult<String> {
    let (primary, ranges, replicas) = (shard.primary(), shard.slot_ranges(), shard.replicas());
    Ok(format!(in alloc; "{primary} {ranges:?} {replicas:?}")?)
}

/// All shards, in their order.
pub fn listed(alloc: Global, topology: &ClusterTopology) -> RedisResult<String> {
    let mut text = String::new(alloc);
    for shard in topology.shards() {
        push_next(&mut text, "; ", &shard_text(alloc, shard)?)?;
    }
    Ok(text)
}

/// The shard of a slot.
pub fn at(alloc: Global, topology: &ClusterTopology, slot: u16) -> RedisResult<String> {
    match topology.shard_for_slot(slot) {
        Some(shard) => shard_text(alloc, shard),
        None => plain(alloc, "none"),
    }
}
