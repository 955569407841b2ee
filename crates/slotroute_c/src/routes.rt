ghost use Rattle.std.specs.Prelude.{◌≡◌, ◌≢◌, Option, Some, map, option_map, IfOk, IfErr};
ghost use Rattle.resp.specs.Forms.{IsRequest};
ghost use Rattle.redis_bytes.specs.declared.fault.BytesFault as faults;
ghost use Rattle.redis_bytes.specs.Requests.{Words, IsUnread};
ghost use Rattle.slotroute_c.specs.Outcomes.{code};
ghost use Rattle.slotroute_c.specs.Faults.{outcome_of, with_fault};
ghost use Rattle.redis_routing.specs.declared.policy.ResponsePolicy as declared;
ghost use Rattle.redis_routing.specs.Routing.{routing};
ghost use Rattle.redis_routing.specs.RoutingInfo.{as_routing, as_single_node, as_multiple_nodes};
ghost use Rattle.slotroute_c.specs.Named.{FailsBy, WithNames};
ghost use Rattle.slotroute_c.specs.RouteNumbers.{names_for, routed, routed_of, routed_by, to_one, to_several, addr_number, policy_number, addr_of};

use crate::faults::code_of;
use crate::outcomes::Outcome;
use crate::told::Told;
use cluster_slots::SlotAddr;
use redis_bytes::{BytesFault, registry_in, request_in};
use redis_routing::{
    AggregateOp, LogicalAggregateOp, MultipleNodeRoutingInfo, ReadOnlyNames, ResponsePolicy,
    RoutingInfo, SingleNodeRoutingInfo,
};
use std::alloc::Global;

/// Where a request goes, as numbers that `include/slotroute.h` names.
#[repr(C)]
#[derive(Clone, Copy)]
pub struct RouteNumbers {
    /// The nodes: of one slot, of several, any, or all.
    pub kind: u32,
    /// The slot, if the request goes to one.
    pub slot: u32,
    /// Which nodes of that slot may serve it.
    pub addr: u32,
    /// How the replies of several nodes make one.
    pub policy: u32,
}

/// Where a request goes. `names` registers names of a module's commands. `only_reads` is not 0 if its
/// command only reads, so that any node of a key's slot may serve it. A command that names a slot by
/// its number, as `CLUSTER ADDSLOTS 5`, goes to the primary either way.
///
/// # Errors
///
/// In this order: `BadName` for the first line of `names` that registers no name.
/// `RequestIncomplete`, `RequestMalformed` and `AfterRequest` if the bytes are not one request.
/// `NoMemory` if memory runs out.
#[unsafe(no_mangle)]
pub extern "C" fn slotroute_route(
    alloc: Global,
    request: &[u8],
    names: &[u8],
    only_reads: u32,
    routed: &mut RouteNumbers,
    told: &mut Told,
) -> u32
    ensures done { result ≡ code Outcome.Done → (words : Words) × IsRequest words request.now
        × WithNames names.now (λ registered. routed.new ≡ routed_by only_reads registered words)
        × (told.new ≡ told.old) }
    ensures fault { result ≢ code Outcome.Done → (fault : faults.BytesFault)
        × (result ≡ code (outcome_of fault))
        × FailsBy names.now (λ registered. IsUnread request.now) fault
        × (told.new ≡ with_fault fault told.old) }
    ensures unwritten { result ≢ code Outcome.Done → routed.new ≡ routed.old }
{
    match routing_of(alloc, request, names, only_reads) {
        Ok(info) => {
            *routed = routed_of(&info);
            Outcome::Done.code()
        }
        Err(fault) => code_of(&fault, told),
    }
}

/// Where a request goes. `only_reads` is not 0 if its command only reads.
fn routing_of(
    alloc: Global,
    request: &[u8],
    names: &[u8],
    only_reads: u32,
) -> Result<Option<RoutingInfo>, BytesFault>
    ensures routed { IfOk result (λ info. (words : Words) × IsRequest words request.now
        × WithNames names.now (λ registered.
        option_map as_routing info ≡ routing (names_for only_reads registered) (map Some words))) }
    ensures fault { IfErr result (FailsBy names.now (λ registered. IsUnread request.now)) }
{
    let registry = registry_in(alloc, names)?;
    let command = request_in(alloc, request)?;
    if only_reads != 0 {
        return Ok(RoutingInfo::for_read(alloc, &command, &registry)?);
    }
    let none = ReadOnlyNames::new(alloc);
    Ok(RoutingInfo::for_routable_with(alloc, &command, &none, &registry)?)
}

/// The node by its number: 0 for the primary, else a replica if there is one.
pub(super) fn addr_of(number: u32) -> SlotAddr
    ensures { result ≡ addr_of number }
{
    if number == 0 {
        SlotAddr::Master
    } else {
        SlotAddr::ReplicaRequired
    }
}

/// A routing as numbers.
pub(super) fn routed_of(info: &Option<RoutingInfo>) -> RouteNumbers
    ensures { result ≡ routed_of (option_map as_routing info.now) }
{
    match info {
        None => numbers(0, 0, 0, 0),
        Some(RoutingInfo::SingleNode(single)) => to_one(single),
        Some(RoutingInfo::MultiNode((multiple, policy))) => {
            to_several(multiple, policy_number(*policy))
        }
    }
}

/// The numbers of a routing to one node.
fn to_one(single: &SingleNodeRoutingInfo) -> RouteNumbers
    ensures { result ≡ to_one (as_single_node single.now) }
{
    match single {
        SingleNodeRoutingInfo::Random => numbers(1, 0, 0, 0),
        SingleNodeRoutingInfo::RandomPrimary => numbers(2, 0, 0, 0),
        SingleNodeRoutingInfo::SpecificNode(route) => {
            numbers(
                3,
                u32::from(route.slot()),
                addr_number(route.slot_addr()),
                0,
            )
        }
        SingleNodeRoutingInfo::ByAddress { host: _, port: _ } => numbers(7, 0, 0, 0),
    }
}

/// The numbers of a routing to several nodes, with the number of the policy.
fn to_several(multiple: &MultipleNodeRoutingInfo, policy: u32) -> RouteNumbers
    ensures { (of : Option declared.ResponsePolicy) → policy ≡ policy_number of
        → result ≡ to_several (as_multiple_nodes multiple.now) of }
{
    match multiple {
        MultipleNodeRoutingInfo::AllNodes => numbers(4, 0, 0, policy),
        MultipleNodeRoutingInfo::AllMasters => numbers(5, 0, 0, policy),
        MultipleNodeRoutingInfo::MultiSlot(_) => numbers(6, 0, 0, policy),
    }
}

fn numbers(kind: u32, slot: u32, addr: u32, policy: u32) -> RouteNumbers
    ensures { result ≡ routed kind slot addr policy }
{
    RouteNumbers {
        kind,
        slot,
        addr,
        policy,
    }
}

/// The number of which nodes of a slot may serve a command.
fn addr_number(addr: SlotAddr) -> u32
    ensures { result ≡ addr_number addr }
{
    match addr {
        SlotAddr::Master => 0,
        SlotAddr::ReplicaOptional => 1,
        SlotAddr::ReplicaRequired => 2,
    }
}

/// The number of a policy, 0 if there is none.
fn policy_number(policy: Option<ResponsePolicy>) -> u32
    ensures { result ≡ policy_number policy }
{
    match policy {
        None => 0,
        Some(ResponsePolicy::OneSucceeded) => 1,
        Some(ResponsePolicy::FirstSucceededNonEmptyOrAllEmpty) => 2,
        Some(ResponsePolicy::AllSucceeded) => 3,
        Some(ResponsePolicy::AggregateLogical(LogicalAggregateOp::And)) => 4,
        Some(ResponsePolicy::AggregateLogical(LogicalAggregateOp::Or)) => 5,
        Some(ResponsePolicy::Aggregate(AggregateOp::Min)) => 6,
        Some(ResponsePolicy::Aggregate(AggregateOp::Sum)) => 7,
        Some(ResponsePolicy::CombineArrays) => 8,
        Some(ResponsePolicy::Special) => 9,
        Some(ResponsePolicy::CombineMaps) => 10,
    }
}
