ghost use Rattle.std.specs.Prelude.{◌≡◌, ◌<◌, ◌^◌, ◌+◌, IfOk, [], None, Some, option_map, option_copied, unwrap_or, codes, position};
ghost use Rattle.redis_routing.specs.Command.{Arguments, IsRespelt, argument, command_name, is_word};
ghost use Rattle.redis_routing.specs.Inner.NameRule.{IsRuleFor, destination_routing, names_by};
ghost use Rattle.redis_routing.specs.Laws.{Covers, ArePartsPicked, ArePartsRouted, IfSplit};
ghost use Rattle.redis_routing.specs.RouteBy.{pattern_of};
ghost use Rattle.redis_routing.specs.Routed.{group_nodes};
ghost use Rattle.redis_routing.specs.RoutingInfo.{as_routing, multi_node, one_node, single_node, specific_node};
ghost use Rattle.redis_routing.specs.Names.{Names, names_of, names_of_reads};
ghost use Rattle.redis_routing.specs.NameWords.{name_words_of};
ghost use Rattle.redis_routing.specs.Routing.{routing, routing_by, routing_of_routes, to_key, to_key_or_any, to_key_after, to_slot, by_count, argument_number};
ghost use Rattle.redis_routing.specs.PresentArguments.{present_arguments};

use super::info::{MultipleNodeRoutingInfo, RoutingInfo, SingleNodeRoutingInfo, nodes_for};
use super::name_rule::{NameRule, ReadCommands, find_routing, name_in, rule_by};
use super::routed::{NodeGroup, Routed};
use super::split_command::SplitCommand;
use super::splitting::routing_of_routes;
use crate::policy::ResponsePolicy;
use crate::read_only::ReadOnlyNames;
use crate::registry::Registry;
use crate::routable::Routable;
use crate::route_by::RouteBy;
use crate::words::ROOM;
use cluster_slots::{Route, Slot, SlotAddr, parse_u16, parse_u64};
use std::alloc::{AllocError, Global};

impl RoutingInfo {
    /// Where a command goes: `GET foo` to slot 12182, `DBSIZE` to each primary, `ECHO hello` to any
    /// node. It is `None` if the command has no name, if its tuples are not whole, or if
    /// commands of its name go nowhere. So it is where the argument that it is routed by is
    /// missing, no number or no slot (`CLUSTER COUNTKEYSINSLOT 16384`). A name that no table has
    /// goes to the slot of argument 1, or without one to any node.
    ///
    /// A multi-key command goes to one node where all keys have one slot. Else it has a route for
    /// each slot of a key, by the first key of each slot, with the indices of its part as
    /// `command_for_multi_slot_indices` takes them. Its arguments end at the first gap. The ASCII
    /// case of the first word changes nothing.
    ///
    /// # Errors
    ///
    /// If memory runs out.
    pub fn for_routable<R: Routable>(
        alloc: Global,
        command: &R,
        read_only: &ReadOnlyNames,
    ) -> Result<Option<RoutingInfo>, AllocError>
        // It is `for_routable_with` under an empty registry.
        ensures routed { IfOk result (λ info. option_map as_routing info
            ≡ routing (names_of read_only.now []) (R.args command.now)) }
        ensures case { (other : Arguments) → IsRespelt (R.args command.now) other
            → routing (names_of read_only.now []) other
            ≡ routing (names_of read_only.now []) (R.args command.now) }
        ensures cover { IfOk result (λ info. IfSplit
            (λ pattern routes. Covers pattern (present_arguments (R.args command.now)) routes)
            (option_map as_routing info)) }
        // The names that are split have one word.
        ensures words { IfOk result (λ info. IfSplit
            (λ pattern routes. name_words_of (R.args command.now) ≡ 1)
            (option_map as_routing info)) }
        ensures picked { IfOk result (λ info. IfSplit
            (λ pattern routes. ArePartsPicked (R.args command.now) pattern routes)
            (option_map as_routing info)) }
        ensures parts { IfOk result (λ info. IfSplit
            (λ pattern routes. ArePartsRouted (names_of read_only.now []) (R.args command.now)
            pattern routes)
            (option_map as_routing info)) }
    {
        for_command(alloc, command, ReadCommands::Named(read_only), None)
    }

    /// Where a command goes, as `for_routable` has it, but names that the tables don't have may
    /// be registered: a registered name is split by slot. With `OBJECT PUT` registered for pairs,
    /// `object put a 1 b 2 a 3` has the routes 15495 with indices 0, 1, 4, 5, and 3300 with indices
    /// 2, 3, as `command_for_multi_slot_indices_with` takes them after the words of the name.
    ///
    /// # Errors
    ///
    /// If memory runs out.
    pub fn for_routable_with<R: Routable>(
        alloc: Global,
        command: &R,
        read_only: &ReadOnlyNames,
        registry: &Registry,
    ) -> Result<Option<RoutingInfo>, AllocError>
        ensures routed { IfOk result (λ info. option_map as_routing info
            ≡ routing (names_of read_only.now registry.now) (R.args command.now)) }
        ensures case { (other : Arguments) → IsRespelt (R.args command.now) other
            → routing (names_of read_only.now registry.now) other
            ≡ routing (names_of read_only.now registry.now) (R.args command.now) }
        ensures cover { IfOk result (λ info. IfSplit
            (λ pattern routes. Covers pattern (present_arguments (R.args command.now)) routes)
            (option_map as_routing info)) }
        ensures picked { IfOk result (λ info. IfSplit
            (λ pattern routes. ArePartsPicked (R.args command.now) pattern routes)
            (option_map as_routing info)) }
        ensures parts { IfOk result (λ info. IfSplit
            (λ pattern routes. ArePartsRouted (names_of read_only.now registry.now)
            (R.args command.now) pattern routes)
            (option_map as_routing info)) }
    {
        let reads = ReadCommands::Named(read_only);
        for_command(alloc, command, reads, Some(registry))
    }

    /// Where a command goes that only reads, whatever its name: as `for_routable_with` has it if the
    /// name is among those that only read.
    ///
    /// # Errors
    ///
    /// If memory runs out.
    pub fn for_read<R: Routable>(
        alloc: Global,
        command: &R,
        registry: &Registry,
    ) -> Result<Option<RoutingInfo>, AllocError>
        ensures routed { IfOk result (λ info. option_map as_routing info
            ≡ routing (names_of_reads registry.now) (R.args command.now)) }
    {
        for_command(alloc, command, ReadCommands::All, Some(registry))
    }
}

/// Where a command goes by the tables, and by a registry if there is one.
fn for_command<R: Routable>(
    alloc: Global,
    command: &R,
    reads: ReadCommands<'_>,
    registry: Option<&Registry>,
) -> Result<Option<RoutingInfo>, AllocError>
    ensures { IfOk result (λ info. option_map as_routing info
        ≡ routing (names_by reads.entry (unwrap_or (option_copied registry.entry) []))
        (R.args command.now)) }
{
    let (mut room, mut long) = ([0; ROOM], None);
    let Some(name) = name_in(alloc, command, &mut room, &mut long)? else {
        return Ok(None);
    };
    let (route_by, policy) = find_routing(name, registry);
    // Most names have no row. The route of their key is made in place, and no rule.
    if route_by.is_none() {
        if let Some(key) = command.arg_idx(1) {
            let nodes = nodes_for(reads.has(name));
            return Ok(Some(to_specific_node(Route::with_key(key, nodes))));
        }
    }
    let rule = rule_by(command, name, reads, registry, route_by, policy);
    by_rule(alloc, command, rule)
}

/// Where a command goes by the rule of its name.
#[inline(never)]
fn by_rule<R: Routable>(
    alloc: Global,
    command: &R,
    rule: NameRule,
) -> Result<Option<RoutingInfo>, AllocError>
    requires { (names : Names) × IsRuleFor names (R.args command.now) rule }
    ensures { (names : Names) → IsRuleFor names (R.args command.now) rule
        → IfOk result (λ info. option_map as_routing info ≡ routing names (R.args command.now)) }
{
    let (pattern, policy, reads) = match rule {
        NameRule::Split(pattern, policy, reads) => (pattern, policy, reads),
        NameRule::Whole(route_by, policy, reads) => {
            return Ok(to_nodes(destination_of(command, route_by, policy, reads)));
        }
    };
    match Routed::by_slots(alloc, command, pattern, policy, reads)? {
        Routed::Nowhere => Ok(None),
        Routed::One(node) => Ok(Some(RoutingInfo::SingleNode(node))),
        Routed::Several(nodes, policy) => Ok(Some(to_several(nodes, policy))),
        Routed::Slots(split) => Ok(Some(to_routes(split))),
    }
}

/// To the node or the nodes of a destination.
fn to_nodes(destination: Destination) -> Option<RoutingInfo>
    ensures { option_map as_routing result ≡ destination_routing destination }
{
    match destination {
        Destination::One(Some(Some(route))) => Some(to_specific_node(route)),
        Destination::One(Some(None)) => {
            Some(RoutingInfo::SingleNode(SingleNodeRoutingInfo::Random))
        }
        Destination::One(None) => None,
        Destination::Several(nodes, policy) => Some(to_several(nodes, policy)),
    }
}

/// To a node of the route's slot. It is inlined, so that the routing is made in place.
#[inline(always)]
fn to_specific_node(route: Route) -> RoutingInfo
    ensures { as_routing result ≡ single_node (specific_node route) }
{
    RoutingInfo::SingleNode(SingleNodeRoutingInfo::SpecificNode(route))
}

/// To each node of a group, with the policy that joins their replies.
fn to_several(nodes: NodeGroup, policy: Option<ResponsePolicy>) -> RoutingInfo
    ensures { as_routing result ≡ multi_node (group_nodes nodes) policy }
{
    let nodes = match nodes {
        NodeGroup::AllNodes => MultipleNodeRoutingInfo::AllNodes,
        NodeGroup::AllMasters => MultipleNodeRoutingInfo::AllMasters,
    };
    RoutingInfo::MultiNode((nodes, policy))
}

/// To one node if there is one route, and else to the node of each route.
fn to_routes<R: Routable>(split: SplitCommand<'_, R>) -> RoutingInfo
    ensures { as_routing result ≡ routing_of_routes split.entry.pattern (Some split.entry.policy)
        split.entry.routes }
{
    let policy = Some(split.policy);
    routing_of_routes(split.routes, split.pattern, policy)
}

/// Where a command goes that is not split.
#[derive(Clone, Copy)]
pub(super) enum Destination {
    /// To the node of the route, or to any node without a route, or to no node.
    One(Option<Option<Route>>),
    /// To each of several nodes, with the policy.
    Several(NodeGroup, Option<ResponsePolicy>),
}

/// Where a command goes that is not split, by how its name is routed and by its policy.
#[inline(always)]
pub(super) fn destination_of<R: Routable>(
    command: &R,
    route_by: Option<RouteBy>,
    policy: Option<ResponsePolicy>,
    reads: bool,
) -> Destination
    requires whole { pattern_of route_by ≡ None }
    ensures { destination_routing result ≡ routing_by policy reads (R.args command.now) route_by }
{
    let Some(route_by) = route_by else {
        return Destination::One(to_key_or_any(command.arg_idx(1), reads));
    };
    match route_by {
        RouteBy::AllNodes => Destination::Several(NodeGroup::AllNodes, policy),
        RouteBy::AllMasters => Destination::Several(NodeGroup::AllMasters, policy),
        RouteBy::MultiSlot(_) => unreachable!(),
        RouteBy::Undefined => Destination::One(None),
        RouteBy::CountAt(place) => {
            Destination::One(by_count(command, usize::from(place), reads))
        }
        RouteBy::KeyAt(place) => {
            let key = command.arg_idx(usize::from(place));
            Destination::One(to_key(key, reads))
        }
        RouteBy::KeyAfterStreams => Destination::One(after_streams(command, reads)),
        RouteBy::Random => Destination::One(Some(None)),
        RouteBy::SlotAt(place) => { Destination::One(to_slot(command.arg_idx(usize::from(place)))) }
    }
}

/// To a node of the key's slot, if there is a key. In this result and those below, no route stands
/// for any node.
#[inline(always)]
pub(super) fn to_key(key: Option<&[u8]>, reads: bool) -> Option<Option<Route>>
    ensures { one_node result ≡ to_key reads (option_copied key.entry) }
{
    Some(Some(Route::with_key(key?, nodes_for(reads))))
}

/// To a node of the key's slot, or to any node if there is no key.
#[inline(always)]
fn to_key_or_any(key: Option<&[u8]>, reads: bool) -> Option<Option<Route>>
    ensures { one_node result ≡ to_key_or_any reads (option_copied key.entry) }
{
    match key {
        Some(_) => to_key(key, reads),
        None => Some(None),
    }
}

/// By the count of keys at a place and the first key after it.
fn by_count<R: Routable>(command: &R, place: usize, reads: bool) -> Option<Option<Route>>
    requires { place < 2 ^ 16 }
    ensures { one_node result
        ≡ by_count reads (argument_number 64 (argument (R.args command.now) place))
        (argument (R.args command.now) (place + 1)) }
{
    let count = parse_u64(command.arg_idx(place)?)?;
    if count == 0 {
        return Some(None);
    }
    to_key(command.arg_idx(place + 1), reads)
}

/// By the first key after the word `STREAMS`.
fn after_streams<R: Routable>(command: &R, reads: bool) -> Option<Option<Route>>
    ensures { one_node result ≡ to_key_after reads (R.args command.now)
        (position (is_word (codes "STREAMS")) (R.args command.now)) }
{
    let place = command.position(b"STREAMS")?;
    to_key(command.arg_idx(place + 1), reads)
}

/// To the primary of the slot that the argument writes.
fn to_slot(number: Option<&[u8]>) -> Option<Option<Route>>
    ensures { one_node result ≡ to_slot (argument_number 16 (option_copied number.entry)) }
{
    let slot = Slot::new(parse_u16(number?)?)?;
    Some(Some(Route::with_slot(slot, SlotAddr::Master)))
}
