use cluster_map::{NodeAddress, SlotMap, SlotRange};
use memory_nodes::MemoryNodes;
use redis_cluster::driver::{DriveError, drive};
use redis_cluster::routing::ReadOnlyNames;
use resp_core::{Cmd, RedisResult, Value};
use std::alloc::{AllocError, Global};

/// A map of two nodes, each with half of the slots.
pub fn two_nodes(alloc: Global) -> RedisResult<SlotMap> {
    let low = NodeAddress::try_from(alloc, "10.0.0.1:6379")?;
    let high = NodeAddress::try_from(alloc, "10.0.0.2:6379")?;
    let slots = vec![in alloc;
        SlotRange::new(0, 8191, low, Vec::new(alloc)),
        SlotRange::new(8192, 16383, high, Vec::new(alloc)),
    ]?;
    Ok(SlotMap::from_slots(alloc, slots)?)
}

/// The command of these words.
pub fn command(alloc: Global, words: &str) -> Result<Cmd, AllocError> {
    let mut command = Cmd::new(alloc);
    for word in words.split(' ') {
        command.write_arg(word.as_bytes())?;
    }
    Ok(command)
}

/// Sends a command of these words, whose keys lie in two slots, part 0 first.
pub fn send(
    alloc: Global,
    words: &str,
    slot_map: &SlotMap,
    nodes: &mut MemoryNodes,
) -> Result<Value, DriveError> {
    let command = command(alloc, words)?;
    let none_only_reads = ReadOnlyNames::new(alloc);
    drive(
        alloc,
        &command,
        &none_only_reads,
        slot_map,
        None,
        0,
        &[0, 1],
        nodes,
    )
}
