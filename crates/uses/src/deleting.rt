//! A multi-key command, driven.
ghost use Rattle.std.specs.Prelude.{◌≡◌, Some, map, IfOk, IfSome};
ghost use Rattle.resp_core.specs.View.{view};
ghost use Rattle.redis_cluster.specs.MultiKey.{multi_key};
ghost use Rattle.redis_cluster.specs.Unsplit.{keyspace_after, reply_to};

use cluster_map::SlotMap;
use redis_cluster::driver::{DriveError, Nodes, drive};
use redis_cluster::routing::ReadOnlyNames;
use resp_core::{Cmd, Value};
use std::alloc::Global;

/// Deletes the keys of a `DEL`, each at its node, and returns how many there were. If the nodes
/// keep to one meaning, one server that has all keys would reply the same, whatever the keys hold.
pub fn delete<N: Nodes>(
    alloc: Global,
    command: &Cmd,
    slot_map: &SlotMap,
    order: &[usize],
    nodes: &mut N,
) -> Result<Value, DriveError>
    ensures unsplit { IfOk result (λ count. N.kept nodes.new
        → IfSome (multi_key (N.registered nodes.old) (map Some command.now)) (λ whole.
        (view count ≡ reply_to N.step whole (N.state nodes.old).keyspace)
        × ((N.state nodes.new).keyspace ≡ keyspace_after N.step whole (N.state nodes.old).keyspace))) }
{
    let none_only_reads = ReadOnlyNames::new(alloc);
    drive(
        alloc,
        command,
        &none_only_reads,
        slot_map,
        None,
        0,
        order,
        nodes,
    )
}
