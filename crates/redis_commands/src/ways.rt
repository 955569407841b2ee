ghost use Rattle.std.specs.Prelude.{◌≡◌, ◌<◌, ◌⊎◌, [], ◌∷◌, true, length, Some, IfOk, IfErr};
ghost use Rattle.cluster_map.specs.Targets.{addresses_behind};
ghost use Rattle.redis_routing.specs.Command.{Arguments};
ghost use Rattle.redis_routing.specs.Routed.{is_by_name};
ghost use Rattle.redis_routing.specs.Names.{names_in};
ghost use Rattle.redis_routing.specs.Routing.{routing, routing_of_routes};
ghost use Rattle.redis_routing.specs.RoutingInfo.{Routing, as_single_node, single_node};
ghost use Rattle.redis_commands.specs.Rule.{by_policy};
ghost use Rattle.redis_commands.specs.Planned.{IsPlanned};
ghost use Rattle.redis_commands.specs.Targets.{AreTargets, IsCommandPlanFault, IsPickOf};
ghost use Rattle.redis_commands.specs.Way.{IsPlanTo, IsFaultTo, planned, targets_in, whole_plan};

use crate::fault::CommandPlanFault;
use crate::plan::CommandPlan;
use cluster_map::{ReadRoutingStrategy, SlotMap};
use cluster_slots::NodeAddress;
use redis_cluster::driver::SplitPlan;
use redis_combiners::answers::no_answers;
use redis_routing::{
    Names, NodeGroup, ResponsePolicy, Routable, Routed, SingleNodeRoutingInfo, SplitCommand,
};
use resp_core::{RedisResult, Value};
use std::alloc::Global;

/// Where a command goes, and what each target answered.
#[derive(Drop)]
pub(crate) enum Way<'a, R: Routable> {
    /// To one node.
    One(&'a NodeAddress, Option<RedisResult<Value>>),
    /// Whole, to each of these nodes.
    Several(Vec<&'a NodeAddress>, Option<ResponsePolicy>, Vec<Option<RedisResult<Value>>>),
    /// In parts, each to a node of its slot. In a box, so that the other two are moved at little cost.
    Split(Box<SplitPlan<'a, R>>),
}

/// The plan of a command, by where it is routed.
pub(crate) fn plan_by<'a, R: Routable>(
    alloc: Global,
    command: &'a R,
    names: Names<'_>,
    slot_map: &'a SlotMap,
    strategy: Option<&dyn ReadRoutingStrategy>,
    pick: usize,
) -> Result<CommandPlan<'a, R>, CommandPlanFault>
    ensures plan { IfOk result (λ plan. (to : Routing)
        × (routing (names_in names.entry) (R.args command.now) ≡ Some to)
        × IsPlanTo strategy.entry (λ s. picks s.now) slot_map.now pick (R.args command.now) to plan) }
    ensures fault { IfErr result
        (λ fault. IsCommandPlanFault slot_map.now (names_in names.entry) (R.args command.now) fault) }
{
    let way = match Routed::new(alloc, command, names)? {
        Routed::Nowhere => return Err(CommandPlanFault::NotRoutable),
        Routed::One(to) => Way::One(single_target(alloc, &to, slot_map, strategy, pick)?, None),
        Routed::Several(NodeGroup::AllNodes, policy) => {
            let nodes = slot_map.addresses_for_all_nodes(alloc)?;
            to_each(alloc, nodes, policy)?
        }
        Routed::Several(NodeGroup::AllMasters, policy) => {
            let nodes = slot_map.addresses_for_all_primaries(alloc)?;
            to_each(alloc, nodes, policy)?
        }
        Routed::Slots(split) => in_parts(alloc, split, slot_map, strategy, pick)?,
    };
    Ok(CommandPlan { command, way })
}

/// The node of a command that goes whole to one.
fn single_target<'a>(
    alloc: Global,
    info: &SingleNodeRoutingInfo,
    slot_map: &'a SlotMap,
    strategy: Option<&dyn ReadRoutingStrategy>,
    pick: usize,
) -> Result<&'a NodeAddress, CommandPlanFault>
    requires named { is_by_name (as_single_node info.now) ≡ true }
    ensures target { IfOk result (λ node. AreTargets strategy.entry (λ s. picks s.now) slot_map.now
        pick (single_node (as_single_node info.now)) (node.now ∷ [])) }
    ensures fault { IfErr result (IsFaultTo slot_map.now (single_node (as_single_node info.now))) }
{
    match info {
        SingleNodeRoutingInfo::Random => picked(slot_map.addresses_for_all_nodes(alloc)?, pick),
        SingleNodeRoutingInfo::SpecificNode(route) => {
            match slot_map.slot_addr_for_route(*route, strategy, pick) {
                Some(node) => Ok(node),
                None => Err(CommandPlanFault::NotCovered(route.slot())),
            }
        }
        SingleNodeRoutingInfo::RandomPrimary
        | SingleNodeRoutingInfo::ByAddress { host: _, port: _ } => unreachable!(),
    }
}

/// The node at `pick` modulo their number.
fn picked(nodes: Vec<&NodeAddress>, pick: usize) -> Result<&NodeAddress, CommandPlanFault>
    ensures target { IfOk result (λ node.
        IsPickOf (addresses_behind nodes.entry.items) pick (node.now ∷ [])) }
    ensures fault { IfErr result (λ fault.
        (fault ≡ CommandPlanFault.NoNode) × (nodes.entry.items ≡ [])) }
{
    if nodes.is_empty() {
        return Err(CommandPlanFault::NoNode);
    }
    Ok(nodes[pick % nodes.len()])
}

/// The way of a command that goes whole to each of these nodes.
fn to_each<'a, R: Routable>(
    alloc: Global,
    nodes: Vec<&'a NodeAddress>,
    policy: Option<ResponsePolicy>,
) -> Result<Way<'a, R>, CommandPlanFault>
    ensures plan { (args : Arguments) → IfOk result (λ way. planned args way
        ≡ whole_plan args (by_policy policy) (addresses_behind nodes.entry.items)) }
    ensures some { IfOk result (λ way. 0 < length (targets_in way)) }
    ensures fault { IfErr result (λ fault. (fault ≡ CommandPlanFault.Memory)
        ⊎ ((fault ≡ CommandPlanFault.NoNode) × (nodes.entry.items ≡ []))) }
{
    if nodes.is_empty() {
        return Err(CommandPlanFault::NoNode);
    }
    let answers = no_answers(alloc, nodes.len())?;
    Ok(Way::Several(nodes, policy, answers))
}

/// The way of a command that is split: in parts, or whole to one node if it has one route.
fn in_parts<'a, R: Routable>(
    alloc: Global,
    split: SplitCommand<'a, R>,
    slot_map: &'a SlotMap,
    strategy: Option<&dyn ReadRoutingStrategy>,
    pick: usize,
) -> Result<Way<'a, R>, CommandPlanFault>
    ensures plan { IfOk result (λ way. IsPlanTo strategy.entry (λ s. picks s.now) slot_map.now pick
        split.entry.arguments
        (routing_of_routes split.entry.pattern (Some split.entry.policy) split.entry.routes)
        (planned split.entry.arguments way)) }
    ensures each { IfOk result (λ way. IsPlanned (planned split.entry.arguments way)) }
    ensures fault { IfErr result (IsFaultTo slot_map.now
        (routing_of_routes split.entry.pattern (Some split.entry.policy) split.entry.routes)) }
{
    if split.len() == 1 {
        let to = SingleNodeRoutingInfo::SpecificNode(split.routes()[0].0);
        return Ok(Way::One(single_target(alloc, &to, slot_map, strategy, pick)?, None));
    }
    let plan = SplitPlan::from_split(alloc, split, slot_map, strategy, pick)?;
    Ok(Way::Split(Box::new(alloc, plan)?))
}
