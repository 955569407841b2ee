//! A read of two keys, and another client's write between its two parts.
use cluster_map::SlotMap;
use redis_cluster::driver::{Nodes, SplitPlan, drive};
use redis_cluster::routing::{Names, ReadOnlyNames};
use resp_core::{Cmd, Value};
use std::alloc::Global;

/// Sends part 0 of a read, then another client's write, then part 1 of the read. Returns the reply
/// to the read, if there is one.
pub fn read_around<N: Nodes>(
    alloc: Global,
    read: &Cmd,
    write: &Cmd,
    names: Names<'_>,
    slot_map: &SlotMap,
    nodes: &mut N,
) -> Option<Value> {
    let mut plan = SplitPlan::new(alloc, read, names, slot_map, None, 0).ok()?;
    send_around(alloc, &mut plan, write, slot_map, nodes)?;
    plan.combine(alloc).ok()
}

/// Sends the two parts of a plan, and a write between them.
fn send_around<N: Nodes>(
    alloc: Global,
    plan: &mut SplitPlan<'_, Cmd>,
    write: &Cmd,
    slot_map: &SlotMap,
    nodes: &mut N,
) -> Option<()> {
    send_part(alloc, plan, 0, slot_map, nodes)?;
    send(alloc, write, &[0, 1], slot_map, nodes)?;
    send_part(alloc, plan, 1, slot_map, nodes)
}

/// Sends one part of a plan, and passes its reply to the plan.
fn send_part<N: Nodes>(
    alloc: Global,
    plan: &mut SplitPlan<'_, Cmd>,
    number: usize,
    slot_map: &SlotMap,
    nodes: &mut N,
) -> Option<()> {
    let part = plan.part(number)?;
    let reply = send(alloc, part, &[0], slot_map, nodes)?;
    plan.tell(number, Ok(reply)).ok()
}

/// Sends the parts of a command in this order, and returns its reply, if there is one.
fn send<N: Nodes>(
    alloc: Global,
    command: &Cmd,
    order: &[usize],
    slot_map: &SlotMap,
    nodes: &mut N,
) -> Option<Value> {
    let only_reads = ReadOnlyNames::new(alloc);
    drive(alloc, command, &only_reads, slot_map, None, 0, order, nodes).ok()
}
