ghost use Rattle.std.specs.Prelude.{◌≡◌, List, map, Some, IfOk, IfErr};
ghost use Rattle.std.specs.List.{AllZip, zip};
ghost use Rattle.resp_core.specs.View.{view};
ghost use Rattle.cluster_slots.specs.SlotRoute.{SlotRoute};
ghost use Rattle.cluster_map.specs.RouteNode.{IsRouteNode};
ghost use Rattle.redis_routing.specs.Names.{names_of};
ghost use Rattle.redis_cluster.specs.Frame.{SameNodes};
ghost use Rattle.redis_cluster.specs.Front.{IsSameCommand, front};
ghost use Rattle.redis_cluster.specs.MultiKey.{MultiKey};
ghost use Rattle.redis_cluster.specs.Amid.{PartsActBySlot, IsServedAmid};
ghost use Rattle.redis_cluster.specs.Driven.{request, AreAllAnswered, IsDelivered, IsDrivable, IsUnhindered};
ghost use Rattle.redis_cluster.specs.Faults.{IsBefore};
ghost use Rattle.redis_cluster.specs.Joined.{ReturnsJoined};
ghost use Rattle.redis_cluster.specs.Plan.{HaveGiven};
ghost use Rattle.redis_cluster.specs.Retried.{IsTryOf, AreAllTried, IsRetried, IsRetryFault, IsRetryCut};
ghost use Rattle.redis_cluster.specs.Retry.{AreAllowed, HaveOneAnswer, IsRetryOf};

use crate::driver::{drive_tries, plan_in_order};
use crate::fault::{DriveError, DriveFault};
use crate::nodes::Nodes;
use crate::plan::SplitPlan;
use crate::retry::Retry;
use cluster_map::{ReadRoutingStrategy, SlotMap};
use redis_routing::{ReadOnlyNames, Routable};
use resp_core::Value;
use std::alloc::{AllocError, Global};

/// Sends a multi-key command as `drive` does. If a node redirects or refuses a part, it is sent
/// again elsewhere: to the address of a redirect, and after a refusal to the next of
/// `SlotMap::shard_fallback_addrs`. Each route has `retries` retries of its own, as `Retry` counts
/// them.
///
/// ```
/// drive_retrying(
///     alloc,
///     command,
///     &none_only_reads,
///     slot_map,
///     None,
///     0,
///     5,
///     order,
///     client,
/// )
/// ```
///
/// If it returns a reply, each part was answered once, whatever was refused or redirected on the
/// way. No route was sent more than `retries + 1` times. The reply is that of the unsplit command
/// amid what others write, as for `drive`. If the nodes kept to one meaning, each part took effect
/// once: what they refused did nothing. A part that was answered, or whose reply was lost, is never
/// sent again, since it may have taken effect.
///
/// An `Ask` is followed as a `Moved` is. That `ASKING` goes before the command is the connection's
/// matter, as is what a `Moved` changes in the map. A refusal with the code `TRYAGAIN` is a refusal
/// as any other. With 0 retries each part is sent once, as by `drive`.
///
/// # Errors
///
/// `NotMultiKey`, `NotCovered` and `BadOrder` as for `drive`: nothing was sent. `Node` and
/// `Redirected` are how the attempts of a route ended, with no retry left, or no address to fall
/// back on. `Lost` is a lost reply, which ends them at once. The parts of the order before it were
/// answered, and no later one is sent. `Memory` may come after any number of sends. `Reply` does
/// not come from nodes that keep to one meaning.
pub fn drive_retrying<R: Routable, N: Nodes>(
    alloc: Global,
    command: &R,
    read_only: &ReadOnlyNames,
    slot_map: &SlotMap,
    strategy: Option<&dyn ReadRoutingStrategy>,
    pick: usize,
    retries: usize,
    order: &[usize],
    nodes: &mut N,
) -> Result<Value, DriveError>
    // Each part was tried in the order given, until it was answered, and not again after it.
    ensures tried { let IsTry = IsTryOf (IsRouteNode strategy.entry (λ s. picks s.now) slot_map.now pick) retries in
        let r = request (R.args command.now) (names_of read_only.now (N.registered nodes.old)) slot_map.now order.now in
        IfOk result (λ value. AreAllTried IsTry r (N.state nodes.old).trace (N.state nodes.new).trace) }
    // Attempts that end with an answer have no other answered entry.
    ensures one_answer { HaveOneAnswer }
    // Each send was answered, or allowed to end otherwise, whether there is a reply or not.
    ensures allowed { AreAllowed (N.may_refuse nodes.old) (N.state nodes.old).trace (N.state nodes.new).trace }
    // So if each send must be answered, each part went once, as `drive` sends it.
    ensures once { let IsNode = IsRouteNode strategy.entry (λ s. picks s.now) slot_map.now pick in
        let r = request (R.args command.now) (names_of read_only.now (N.registered nodes.old)) slot_map.now order.now in
        IsUnhindered (N.may_refuse nodes.old) r (N.state nodes.old).trace
        → IfOk result (λ value. IsDelivered IsNode r (N.state nodes.old).trace (N.state nodes.new).trace) }
    // The reply is made of what the nodes answered, as the command's policy says. Or the policy
    // refuses what they answered, with an error of this kind.
    ensures joined { ReturnsJoined (N.registered nodes.old) (R.args command.now) order.now
        (N.gave nodes.old) (N.gave nodes.new) result }
    // Others may write the same keys meanwhile, and replicas may lag. Take any keyspace that has, at
    // each key of the command, what the key's node held when it ran the key's part. If each node that
    // gave a reply gave it by what it held, the reply is that of the unsplit command on this keyspace.
    ensures amid { IfOk result (λ value. IsServedAmid N.Cell (N.registered nodes.old) (R.args command.now) order.now
        (N.gave nodes.old) (N.gave nodes.new) (view value)) }
    // If the nodes keep to one meaning over one keyspace, the keyspace and the reply are those of
    // the unsplit command, whatever was refused or redirected.
    ensures driven { let IsTry = IsTryOf (IsRouteNode strategy.entry (λ s. picks s.now) slot_map.now pick) retries in
        let r = request (R.args command.now) (names_of read_only.now (N.registered nodes.old)) slot_map.now order.now in
        IfOk result (λ value. N.kept nodes.new → IsRetried IsTry N.step r (N.state nodes.old) (N.state nodes.new) (view value)) }
    // There is a reply if the command can be driven, no node may refuse or redirect, no reply may
    // be lost and the nodes keep to one meaning, unless memory runs out. Nobody knows that of
    // connections: see `carried`.
    ensures headline { IsUnhindered (N.may_refuse nodes.old)
        (request (R.args command.now) (names_of read_only.now (N.registered nodes.old)) slot_map.now order.now)
        (N.state nodes.old).trace → IfErr result (λ e. N.kept nodes.new → e.fault ≡ DriveFault.Memory) }
    // And if each send was answered, whatever nodes may refuse.
    ensures carried { (routes : List SlotRoute) (c : MultiKey) → IsDrivable
        (request (R.args command.now) (names_of read_only.now (N.registered nodes.old)) slot_map.now order.now) routes c
        → AreAllAnswered (N.state nodes.old).trace (N.state nodes.new).trace
        → IfErr result (λ e. N.kept nodes.new → e.fault ≡ DriveFault.Memory) }
    // On error, exactly the first `answered` parts were answered, whatever the answers are.
    ensures cut { let IsTry = IsTryOf (IsRouteNode strategy.entry (λ s. picks s.now) slot_map.now pick) retries in
        let r = request (R.args command.now) (names_of read_only.now (N.registered nodes.old)) slot_map.now order.now in
        IfErr result (λ e. IsRetryCut IsTry r (N.state nodes.old) (N.state nodes.new) (N.may_refuse nodes.old)
        e.fault e.answered) }
    // Each fault has its cause, except out of memory before any send. What was answered stands.
    ensures fault { let IsTry = IsTryOf (IsRouteNode strategy.entry (λ s. picks s.now) slot_map.now pick) retries in
        let r = request (R.args command.now) (names_of read_only.now (N.registered nodes.old)) slot_map.now order.now in
        IfErr result (λ e. N.kept nodes.new → IsRetryFault IsTry N.step r (N.state nodes.old) (N.state nodes.new)
        (N.may_refuse nodes.old) e.fault e.answered) }
    // These may be the replies that the nodes gave, one to each part that was answered.
    ensures given { IfErr result (λ e. HaveGiven (N.gave nodes.old) (N.gave nodes.new) e.answered) }
    // The nodes are as they were if the command, the map or the order is at fault.
    ensures untouched { IfErr result (λ e. IsBefore e.fault → nodes.new ≡ nodes.old) }
    // A part leaves at its keys what the unsplit command leaves there, if both find the same there.
    // So each part that was answered did, whatever became of the others.
    ensures parts { PartsActBySlot N.Cell (N.registered nodes.old) (R.args command.now) }
    // A command with gaps and its front have the same tuples, routes and parts.
    ensures gaps { IsSameCommand (R.args command.now) (front (R.args command.now)) }
    // No send changes what is registered, or what nodes may refuse. Nodes that kept to one meaning
    // now did so before.
    ensures frame { SameNodes ⟦<N as Nodes>⟧ nodes.old nodes.new }
{
    let plan = match plan_in_order(
        alloc, command, read_only, slot_map, strategy, pick, order, nodes,
    ) {
        Ok(plan) => plan,
        Err(fault) => return Err(DriveError { fault, answered: 0 }),
    };
    match retries_of(alloc, &plan, slot_map, retries) {
        Ok(mut own) => drive_tries(alloc, plan, &mut own, order, nodes),
        Err(_) => Err(DriveError {
            fault: DriveFault::Memory,
            answered: 0,
        }),
    }
}

/// A retry for each route of a plan, in the order of the routes, that begins at the route's node.
fn retries_of<R: Routable>(
    alloc: Global,
    plan: &SplitPlan<'_, R>,
    slot_map: &SlotMap,
    retries: usize,
) -> Result<Vec<Retry>, AllocError>
    ensures each { IfOk result (λ made. AllZip (IsRetryOf slot_map.now retries)
        (zip (map (λ route. route.0) plan.now.split.routes) plan.now.nodes) made.items) }
{
    let count = plan.len();
    let mut made = Vec::with_capacity(alloc, count)?;
    for number in 0..count {
        let route = plan.routes()[number].0;
        let Some(node) = plan.node(number) else {
            unreachable!()
        };
        made.push(Retry::at(alloc, slot_map, route, node, retries)?)?;
    }
    Ok(made)
}
