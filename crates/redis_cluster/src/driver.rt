ghost use Rattle.std.specs.Prelude.{◌≡◌, ◌<◌, ◌⊎◌, List, None, map, length, IsSome, IfOk, OnOk, IfErr};
ghost use Rattle.std.specs.List.{All};
ghost use Rattle.resp_core.specs.declared.error.ErrorKind.TheVariants.{OutOfMemory};
ghost use Rattle.resp_core.specs.View.{view};
ghost use Rattle.cluster_slots.specs.SlotRoute.{SlotRoute};
ghost use Rattle.cluster_map.specs.RouteNode.{IsRouteNode};
ghost use Rattle.redis_routing.specs.Names.{names_of};
ghost use Rattle.redis_cluster.specs.Amid.{PartsActBySlot, IsServedAmid};
ghost use Rattle.redis_cluster.specs.Retry.{AreAllowed, SentInTurn};
ghost use Rattle.redis_cluster.specs.Frame.{SameNodes};
ghost use Rattle.redis_cluster.specs.Front.{IsSameCommand, front};
ghost use Rattle.redis_cluster.specs.MultiKey.{MultiKey};
ghost use Rattle.redis_cluster.specs.Orders.{NamesOnce, in_order};
ghost use Rattle.redis_cluster.specs.Unsplit.{keyspace_after, reply_to};
ghost use Rattle.redis_cluster.specs.Driven.{Request, request, AreAllAnswered, IsDelivered, IsDrivable, IsDriven, IsUnhindered};
ghost use Rattle.redis_cluster.specs.Faults.{IsBefore, IsCauseBeforeSending, IsFault, IsCut};
ghost use Rattle.redis_cluster.specs.Joined.{ReturnsJoined};
ghost use Rattle.redis_cluster.specs.Plan.{HaveGiven};
ghost use Rattle.redis_cluster.specs.Ready.{IsPlanFor, IsPlanNode, IsReady, targets, IsPlanOf, tries_with};
ghost use Rattle.redis_cluster.specs.Ended.{AreEndedEarly};

pub use crate::fault::{DriveError, DriveFault, PlanFault};
pub use crate::log::Log;
pub use crate::nodes::{Nodes, SendError};
pub use crate::order::names_once;
pub use crate::plan::{SplitPlan, join_replies};
pub use crate::retry::Retry;
pub use crate::retrying::drive_retrying;
use crate::send::send_all;
use cluster_map::{ReadRoutingStrategy, SlotMap};
use redis_routing::{Names, ReadOnlyNames, Routable};
use resp_core::{ErrorKind, RedisError, Value};
use std::alloc::Global;

/// Sends a multi-key command part by part, and gives the reply of one server that has all keys.
///
/// ```
/// let none_only_reads = ReadOnlyNames::new(alloc);
/// drive(
///     alloc,
///     command,
///     &none_only_reads,
///     slot_map,
///     None,
///     0,
///     order,
///     nodes,
/// )
/// ```
///
/// The command is split by slot. Each slot of a key has one route, numbered by the first key of
/// each. Each route has one part, with the tuples of the slot in their order. The parts go out in
/// `order`, a list that has each route number once. Each goes to the primary of its slot. If the
/// name only reads and a strategy is passed, it goes to the node that the strategy picks. `pick`
/// decides nothing here, since no route of a split requires a replica. `DEL foo bar baz {bar}vaz`
/// goes out as `DEL foo`, `DEL bar {bar}vaz` and `DEL baz`, and the counts are added up.
///
/// If it returns a reply, each part went once, and the reply is built from the replies that the
/// nodes gave. Other clients may write the same keys meanwhile, and replicas may lag. Each node
/// runs its part at one moment, on what it holds then. The reply is that of the unsplit command on
/// a server that has, at each key, what the key's node held at that moment. What the command leaves
/// there is, at each key, what the node held right after the part.
///
/// If during the call nobody else changes these keys, none expires and no replica lags, that is
/// what stood at the call. So keyspace and reply are those of the unsplit command, whatever it does
/// to a single key, whatever the order. Arguments from the first gap on are not sent.
///
/// # Errors
///
/// In this order: `NotMultiKey` if the command is not complete, `NotCovered` if a slot of a key has
/// no node, `BadOrder` if the order does not have each route once. Nothing was sent then. `Node` is
/// an error that a node refused a part with. `Redirected` is a node that sent the client on, as by
/// `MOVED`. The parts before it in the order were answered, and no later one is sent. After `Lost`,
/// whose reply did not come, the part may have taken effect, too. `Memory` may come after any
/// number of answers. If the nodes kept to one meaning, what was answered took effect, and `Reply`
/// does not come.
pub fn drive<R: Routable, N: Nodes>(
    alloc: Global,
    command: &R,
    read_only: &ReadOnlyNames,
    slot_map: &SlotMap,
    strategy: Option<&dyn ReadRoutingStrategy>,
    pick: usize,
    order: &[usize],
    nodes: &mut N,
) -> Result<Value, DriveError>
    // Each part went once, in the order given, to a node of its route, whatever the nodes answered.
    ensures delivered { let IsNode = IsRouteNode strategy.entry (λ s. picks s.now) slot_map.now pick in
        let r = request (R.args command.now) (names_of read_only.now (N.registered nodes.old)) slot_map.now order.now in
        IfOk result (λ value. IsDelivered IsNode r (N.state nodes.old).trace (N.state nodes.new).trace) }
    // The reply is made of what they answered, as the command's policy says. Or the policy refuses
    // what they answered, with an error of this kind.
    ensures joined { ReturnsJoined (N.registered nodes.old) (R.args command.now) order.now
        (N.gave nodes.old) (N.gave nodes.new) result }
    // Others may write the same keys meanwhile, and replicas may lag. Take any keyspace that has, at
    // each key of the command, what the key's node held when it ran the key's part. If each node
    // replied by what it held, the reply is that of the unsplit command on this keyspace.
    ensures amid { IfOk result (λ value. IsServedAmid N.Cell (N.registered nodes.old) (R.args command.now) order.now
        (N.gave nodes.old) (N.gave nodes.new) (view value)) }
    // The headline: if the nodes keep to one meaning over one keyspace, each part went once, in the
    // order given, to a node of its route. The keyspace and the reply are those of the unsplit
    // command.
    ensures driven { let IsNode = IsRouteNode strategy.entry (λ s. picks s.now) slot_map.now pick in
        let r = request (R.args command.now) (names_of read_only.now (N.registered nodes.old)) slot_map.now order.now in
        IfOk result (λ value. N.kept nodes.new
        → IsDriven IsNode N.step r (N.state nodes.old) (N.state nodes.new) (view value)) }
    // There is a reply if the command can be driven, no node may refuse or redirect, no reply may
    // be lost and the nodes keep to one meaning, unless memory runs out. Nobody knows that of
    // connections: see `carried`.
    ensures headline { IsUnhindered (N.may_refuse nodes.old)
        (request (R.args command.now) (names_of read_only.now (N.registered nodes.old)) slot_map.now order.now)
        (N.state nodes.old).trace → IfErr result (λ e. N.kept nodes.new → e.fault ≡ DriveFault.Memory) }
    // And if each send was answered, whatever nodes may refuse.
    ensures carried { (routes : List SlotRoute) (c : MultiKey) → IsDrivable
        (request (R.args command.now) (names_of read_only.now (N.registered nodes.old)) slot_map.now order.now) routes c
        → AreAllAnswered (N.state nodes.old).trace (N.state nodes.new).trace
        → IfErr result (λ e. N.kept nodes.new → e.fault ≡ DriveFault.Memory) }
    // On error, exactly the first `answered` parts were answered, whatever the answers are.
    ensures cut { let IsNode = IsRouteNode strategy.entry (λ s. picks s.now) slot_map.now pick in
        let r = request (R.args command.now) (names_of read_only.now (N.registered nodes.old)) slot_map.now order.now in
        IfErr result (λ e. IsCut IsNode r (N.state nodes.old) (N.state nodes.new) (N.may_refuse nodes.old)
        e.fault e.answered) }
    // Each fault has its cause, except out of memory before any send. What was answered stands.
    ensures fault { let IsNode = IsRouteNode strategy.entry (λ s. picks s.now) slot_map.now pick in
        let r = request (R.args command.now) (names_of read_only.now (N.registered nodes.old)) slot_map.now order.now in
        IfErr result (λ e. N.kept nodes.new → IsFault IsNode N.step r (N.state nodes.old) (N.state nodes.new)
        (N.may_refuse nodes.old) e.fault e.answered) }
    // These may be the replies that the nodes gave, one to each part that was answered.
    ensures given { IfErr result (λ e. HaveGiven (N.gave nodes.old) (N.gave nodes.new) e.answered) }
    // The nodes are as they were if the command, the map or the order is at fault.
    ensures untouched { IfErr result (λ e. IsBefore e.fault → nodes.new ≡ nodes.old) }
    // A part leaves at its keys what the unsplit command leaves there, if both find the same there.
    // So each part that was answered did, as `delivered` or `cut` says, whatever became of the others.
    ensures parts { PartsActBySlot N.Cell (N.registered nodes.old) (R.args command.now) }
    // A command with gaps and its front have the same tuples, routes and parts.
    ensures gaps { IsSameCommand (R.args command.now) (front (R.args command.now)) }
    // No send changes what is registered, or what nodes may refuse. Nodes that kept to one meaning
    // now did so before.
    ensures frame { SameNodes ⟦<N as Nodes>⟧ nodes.old nodes.new }
{
    match plan_in_order(
        alloc, command, read_only, slot_map, strategy, pick, order, nodes,
    ) {
        Ok(plan) => drive_tries(alloc, plan, &mut [], order, nodes),
        Err(fault) => Err(DriveError { fault, answered: 0 }),
    }
}

/// The plan of a command, if the order has its routes.
pub(super) fn plan_in_order<'a, R: Routable, N: Nodes>(
    alloc: Global,
    command: &'a R,
    read_only: &ReadOnlyNames,
    slot_map: &'a SlotMap,
    strategy: Option<&dyn ReadRoutingStrategy>,
    pick: usize,
    order: &[usize],
    nodes: &N,
) -> Result<SplitPlan<'a, R>, DriveFault>
    ensures ready { IfOk result
        (λ plan. (c : MultiKey)
        × IsReady (IsRouteNode strategy.entry (λ s. picks s.now) slot_map.now pick)
        (request (R.args command.now) (names_of read_only.now (N.registered nodes.now))
        slot_map.now order.now) plan c) }
    ensures arguments { IfOk result (λ plan. plan.split.arguments ≡ R.args command.now) }
    ensures untold { IfOk result (λ plan. plan.answers ≡ map (λ route. None) plan.split.routes) }
    ensures order { IfOk result (λ plan. NamesOnce (length plan.split.routes) order.now) }
    ensures some { IfOk result (λ plan. 0 < length plan.split.routes) }
    ensures early { IfErr result
        (λ fault. IsCauseBeforeSending (request (R.args command.now) (names_of read_only.now (N.registered nodes.now))
        slot_map.now order.now) fault) }
{
    let names = Names {
        read_only,
        registry: nodes.registry(),
    };
    let plan = match SplitPlan::new(alloc, command, names, slot_map, strategy, pick) {
        Ok(plan) => plan,
        Err(fault) => return Err(DriveFault::from(fault)),
    };
    match names_once(alloc, plan.len(), order) {
        Ok(true) => Ok(plan),
        Ok(false) => Err(DriveFault::BadOrder),
        Err(_) => Err(DriveFault::Memory),
    }
}

/// Sends the parts of a plan in an order, each once, and returns what `drive` returns for the
/// command of the plan. If your order depends on the number of routes, make the plan first, by the
/// names that the nodes have registered:
///
/// ```
/// let plan = SplitPlan::new(alloc, command, names, slot_map, None, 0)?;
/// let order: Vec<usize> = (0..plan.len()).rev().collect(alloc)?;
/// drive_plan(alloc, plan, &order, nodes)
/// ```
///
/// # Errors
///
/// `BadOrder` if the order does not have each route once: nothing was sent. The other faults are
/// those of `drive`, and what stands then is what it says.
pub fn drive_plan<R: Routable, N: Nodes>(
    alloc: Global,
    plan: SplitPlan<'_, R>,
    order: &[usize],
    nodes: &mut N,
) -> Result<Value, DriveError>
    // It is of a complete command, as each plan that `SplitPlan::new` made,
    requires command { (c : MultiKey) × IsPlanOf (N.registered nodes.old) c plan }
    // and no answer was told to it yet.
    requires untold { plan.answers ≡ map (λ route. None) plan.split.routes }
    // Take any request that the plan is of, with this order and the names that the nodes registered.
    // Each part goes to the plan's own node of its route.
    ensures delivered { IfOk result (λ value.
        (asked : Request) (c : MultiKey) → IsPlanFor asked plan.entry c
        → asked.order ≡ order.now → asked.names.registered ≡ N.registered nodes.old
        → IsDelivered (IsPlanNode plan.entry) asked (N.state nodes.old).trace (N.state nodes.new).trace) }
    ensures joined { ReturnsJoined (N.registered nodes.old) plan.entry.split.arguments order.now
        (N.gave nodes.old) (N.gave nodes.new) result }
    // The reply if others write the same keys meanwhile, as `drive` has it.
    ensures amid { IfOk result (λ value.
        IsServedAmid N.Cell (N.registered nodes.old) plan.entry.split.arguments order.now
        (N.gave nodes.old) (N.gave nodes.new) (view value)) }
    ensures driven { IfOk result (λ value.
        (asked : Request) (c : MultiKey) → IsPlanFor asked plan.entry c
        → asked.order ≡ order.now → asked.names.registered ≡ N.registered nodes.old
        → N.kept nodes.new → IsDriven (IsPlanNode plan.entry) N.step asked
        (N.state nodes.old) (N.state nodes.new)
        (view value)) }
    ensures headline { IfErr result (λ e.
        (asked : Request) (c : MultiKey) → IsPlanFor asked plan.entry c
        → asked.order ≡ order.now → asked.names.registered ≡ N.registered nodes.old
        → IsUnhindered (N.may_refuse nodes.old) asked (N.state nodes.old).trace
        → N.kept nodes.new → e.fault ≡ DriveFault.Memory) }
    ensures carried { IfErr result (λ e.
        (asked : Request) (c : MultiKey) → IsPlanFor asked plan.entry c
        → asked.order ≡ order.now → asked.names.registered ≡ N.registered nodes.old
        → (routes : List SlotRoute) → IsDrivable asked routes c
        → AreAllAnswered (N.state nodes.old).trace (N.state nodes.new).trace
        → N.kept nodes.new → e.fault ≡ DriveFault.Memory) }
    ensures cut { IfErr result (λ e.
        (asked : Request) (c : MultiKey) → IsPlanFor asked plan.entry c
        → asked.order ≡ order.now → asked.names.registered ≡ N.registered nodes.old
        → IsCut (IsPlanNode plan.entry) asked
        (N.state nodes.old) (N.state nodes.new)
        (N.may_refuse nodes.old) e.fault e.answered) }
    ensures fault { IfErr result (λ e.
        (asked : Request) (c : MultiKey) → IsPlanFor asked plan.entry c
        → asked.order ≡ order.now → asked.names.registered ≡ N.registered nodes.old
        → N.kept nodes.new → IsFault (IsPlanNode plan.entry) N.step asked
        (N.state nodes.old) (N.state nodes.new)
        (N.may_refuse nodes.old) e.fault e.answered) }
    ensures given { IfErr result (λ e. HaveGiven (N.gave nodes.old) (N.gave nodes.new) e.answered) }
    ensures untouched { IfErr result (λ e. IsBefore e.fault → nodes.new ≡ nodes.old) }
    ensures parts { PartsActBySlot N.Cell (N.registered nodes.old) plan.entry.split.arguments }
    ensures frame { SameNodes ⟦<N as Nodes>⟧ nodes.old nodes.new }
{
    match names_once(alloc, plan.len(), order) {
        Ok(true) => drive_tries(alloc, plan, &mut [], order, nodes),
        Ok(false) => Err(DriveError {
            fault: DriveFault::BadOrder,
            answered: 0,
        }),
        Err(_) => Err(DriveError {
            fault: DriveFault::Memory,
            answered: 0,
        }),
    }
}

/// Sends the parts of a plan, each by its retry, and combines the replies.
pub(super) fn drive_tries<R: Routable, N: Nodes>(
    alloc: Global,
    mut plan: SplitPlan<'_, R>,
    retries: &mut [Retry],
    order: &[usize],
    nodes: &mut N,
) -> Result<Value, DriveError>
    requires command { (c : MultiKey) × IsPlanOf (N.registered nodes.old) c plan }
    requires untold { plan.answers ≡ map (λ route. None) plan.split.routes }
    requires order { NamesOnce (length plan.split.routes) order.now }
    requires named { All (λ retry. IsSome retry.target) retries.old }
    ensures trace { OnOk result (SentInTurn (in_order (tries_with (targets plan.entry) retries.old)
        order.now) (N.state nodes.old).trace (N.state nodes.new).trace) }
    ensures allowed { AreAllowed (N.may_refuse nodes.old) (N.state nodes.old).trace (N.state nodes.new).trace }
    ensures keyspace { OnOk result ((c : MultiKey) → IsPlanOf (N.registered nodes.old) c plan.entry
        → N.kept nodes.new → (N.state nodes.new).keyspace ≡ keyspace_after N.step c (N.state nodes.old).keyspace) }
    ensures reply { IfOk result
        (λ value. (c : MultiKey) → IsPlanOf (N.registered nodes.old) c plan.entry
        → N.kept nodes.new → view value ≡ reply_to N.step c (N.state nodes.old).keyspace) }
    ensures joined { ReturnsJoined (N.registered nodes.old) plan.entry.split.arguments order.now
        (N.gave nodes.old) (N.gave nodes.new) result }
    ensures amid { IfOk result (λ value.
        IsServedAmid N.Cell (N.registered nodes.old) plan.entry.split.arguments order.now
        (N.gave nodes.old) (N.gave nodes.new) (view value)) }
    ensures given { IfErr result (λ e. HaveGiven (N.gave nodes.old) (N.gave nodes.new) e.answered) }
    ensures stopped { IfErr result
        (λ e. AreEndedEarly (N.kept nodes.new) (N.registered nodes.old) N.step
        (N.may_refuse nodes.old) plan.entry
        (tries_with (targets plan.entry) retries.old) order.now
        (N.state nodes.old).keyspace (N.state nodes.new).keyspace (N.state nodes.old).trace (N.state nodes.new).trace
        (N.state nodes.new).mark e.fault e.answered) }
    ensures frame { SameNodes ⟦<N as Nodes>⟧ nodes.old nodes.new }
{
    if let Err(stop) = send_all(&mut plan, retries, order, nodes) {
        return Err(stop);
    }
    let answered = plan.len();
    match plan.combine(alloc) {
        Ok(reply) => Ok(reply),
        Err(error) => Err(DriveError {
            fault: of_combining(error),
            answered,
        }),
    }
}

/// The fault of replies that could not be combined.
fn of_combining(error: RedisError) -> DriveFault
    ensures { ((error.kind ≡ OutOfMemory) × (result ≡ DriveFault.Memory))
        ⊎ ((error.kind ≡ OutOfMemory → ⊥) × (result ≡ DriveFault.Reply error)) }
{
    if error.kind() == ErrorKind::OutOfMemory {
        DriveFault::Memory
    } else {
        DriveFault::Reply(error)
    }
}
