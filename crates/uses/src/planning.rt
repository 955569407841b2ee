//! A multi-key command whose order depends on the number of its parts.
use cluster_map::SlotMap;
use redis_cluster::driver::{DriveError, Nodes, SplitPlan, drive_plan};
use redis_cluster::routing::{Names, ReadOnlyNames, Routable};
use resp_core::Value;
use std::alloc::Global;

/// Sends the parts of a multi-key command, the last one first, and returns the one reply.
pub fn send_backwards<R: Routable, N: Nodes>(
    alloc: Global,
    command: &R,
    read_only: &ReadOnlyNames,
    slot_map: &SlotMap,
    nodes: &mut N,
) -> Result<Value, DriveError> {
    let names = Names {
        read_only,
        registry: nodes.registry(),
    };
    let plan = SplitPlan::new(alloc, command, names, slot_map, None, 0)?;
    let order: Vec<usize> = (0..plan.len()).rev().collect(alloc)?;
    drive_plan(alloc, plan, &order, nodes)
}
