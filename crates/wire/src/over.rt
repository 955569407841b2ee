ghost use Rattle.std.specs.Prelude.{◌≡◌, Some, map, IfOk, IfErr, ⊤};
ghost use Rattle.resp_core.specs.View.{view};
ghost use Rattle.cluster_map.specs.RouteNode.{IsRouteNode};
ghost use Rattle.redis_routing.specs.Names.{names_of};
ghost use Rattle.redis_cluster.specs.Driven.{request, IsDelivered};
ghost use Rattle.redis_cluster.specs.Faults.{IsCut};
ghost use Rattle.redis_cluster.specs.Joined.{ReturnsJoined};
ghost use Rattle.redis_cluster.specs.MultiKey.{MultiKey, multi_key};
ghost use Rattle.wire.specs.Amid.{IsServedAt, OfEachReply, LeavesAsUnsplit};
ghost use Rattle.wire.specs.Commands.{entry_by};
ghost use Rattle.wire.specs.Held.{registry_in, wire_in};
ghost use Rattle.wire.specs.Said.{replies_in};

use crate::connections::Wire;
use crate::meaning::Meaning;
use crate::wire_nodes::WireNodes;
use cluster_map::{ReadRoutingStrategy, SlotMap};
use redis_cluster::driver::{DriveError, Nodes, drive};
use redis_routing::{ReadOnlyNames, Routable};
use resp_core::Value;
use std::alloc::Global;

/// Sends a multi-key command part by part over connections, as `drive` does.
///
/// Other clients may write the same keys meanwhile, and replicas may lag. Each node runs its part
/// at one moment, on what it holds then. The reply is that of the unsplit command on a server that
/// has, at each key, what the key's node held at that moment. What the command leaves there is, at
/// each key, what the node held right after the part. The one premise is that each node runs its
/// part, and replies to it, by what it holds.
///
/// # Errors
///
/// Those of `drive`.
pub fn drive_over<R: Routable, W: Wire, M: Meaning>(
    alloc: Global,
    command: &R,
    read_only: &ReadOnlyNames,
    slot_map: &SlotMap,
    strategy: Option<&dyn ReadRoutingStrategy>,
    pick: usize,
    order: &[usize],
    client: &mut WireNodes<W, M>,
) -> Result<Value, DriveError>
    // Each part went once, in the order given, to a node of its route, whatever came back.
    ensures delivered { IfOk result (λ value.
        IsDelivered (IsRouteNode strategy.entry (λ s. picks s.now) slot_map.now pick)
        (request (R.args command.now) (names_of read_only.now (registry_in client.old))
        slot_map.now order.now)
        (map entry_by (W.log (wire_in client.old))) (map entry_by (W.log (wire_in client.new)))) }
    // On error, exactly the first `answered` parts were answered, and the error has its cause.
    ensures cut { IfErr result (λ e.
        IsCut (IsRouteNode strategy.entry (λ s. picks s.now) slot_map.now pick)
        (request (R.args command.now) (names_of read_only.now (registry_in client.old))
        slot_map.now order.now)
        (⟦<WireNodes<W, M> as Nodes>⟧.state client.old)
        (⟦<WireNodes<W, M> as Nodes>⟧.state client.new)
        (λ count ending. ⊤) e.fault e.answered) }
    // The reply is made of the values that came, as the command's policy says. Or the policy refuses
    // the values, with an error of this kind.
    ensures joined { ReturnsJoined (registry_in client.old) (R.args command.now) order.now
        (λ replies. replies ≡ replies_in (W.log (wire_in client.old)))
        (λ replies. replies ≡ replies_in (W.log (wire_in client.new))) result }
    // Others may write the same keys meanwhile, and replicas may lag. If each node replied to its part
    // by what it held, the reply is that of the unsplit command on that.
    ensures amid { IfOk result (λ value.
        IsServedAt M.Cell (registry_in client.old) (R.args command.now)
        (W.log (wire_in client.old)) (W.log (wire_in client.new)) (view value)) }
    // For a reply and an error alike: each send that was answered was of a part. It left at its keys
    // what the unsplit command leaves there, whatever became of the other parts.
    ensures left { (c : MultiKey) → multi_key (registry_in client.old) (R.args command.now) ≡ Some c
        → OfEachReply (registry_in client.old) (W.log (wire_in client.old)) (W.log (wire_in client.new))
        (λ number part reply. LeavesAsUnsplit M.Cell c part) }
    ensures registered { registry_in client.new ≡ registry_in client.old }
{
    drive(
        alloc, command, read_only, slot_map, strategy, pick, order, client,
    )
}
