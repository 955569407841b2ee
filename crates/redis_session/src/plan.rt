ghost use Rattle.std.specs.Prelude.{◌≡◌, ◌<◌, ◌≢◌, ◌⊎◌, true, length, map, Some, None, IfOk, IfErr, IfSome, MatchResult, is_some, position, codes};
ghost use Rattle.resp.specs.Forms.{IsRequest};
ghost use Rattle.redis_bytes.specs.Requests.{Words};
ghost use Rattle.redis_routing.specs.Names.{names_in};
ghost use Rattle.redis_routing.specs.Routed.{IsRouted, group_nodes};
ghost use Rattle.redis_routing.specs.Routing.{routing};
ghost use Rattle.redis_routing.specs.RoutingInfo.{as_single_node, multi_node};
ghost use Rattle.redis_session.specs.CommandKinds.{kind_of_command};
ghost use Rattle.redis_session.specs.Plans.{AreCallParts, AreCallPartsTo, AreSlotParts, AreSplitParts, IsCallPlan, IsPartAt, IsSplitBySlot, may_refuse, order_at, order_without_slot, slot_of_route};
ghost use Rattle.redis_session.specs.Refusals.{IsCallRefused, IsUnreadCall, one_reply, refusal_of, refusal_of_route, waits};
ghost use Rattle.redis_session.specs.declared.refusal.CallRefusal.TheVariants as refused;

use crate::added::AddedNames;
use crate::kind::{CommandKind, command_kind};
use crate::refusal::CallRefusal;
use redis_bytes::{Request, push_part};
use redis_routing::{
    Names, NodeGroup, ResponsePolicy, Routable, Routed, SingleNodeRoutingInfo, SplitCommand,
};
use resp::RequestError;
use session_core::PartOrder;
use std::alloc::{AllocError, Global};

/// The part of one slot of a command that is split.
#[derive(Debug, Drop)]
pub struct SlotPart {
    /// The slot.
    pub slot: u16,
    /// The bytes of its request.
    pub request: Vec<u8>,
}

/// The parts that a call asks of nodes.
#[derive(Debug, Drop)]
pub enum CallParts {
    /// One: the request as it came. It goes to the primary of its slot, or if it has no slot to any
    /// node.
    One(PartOrder),
    /// One for each slot, by the first key of each slot. Each goes to the primary of its slot.
    Split(Vec<SlotPart>),
    /// One for each node of the group: the request as it came. The policy makes one reply of theirs.
    Several(NodeGroup, ResponsePolicy, PartOrder),
}

/// What a request asks of nodes.
#[derive(Debug, Drop)]
pub struct CallPlan {
    /// Its parts.
    pub parts: CallParts,
    /// Whether nodes refuse its parts before they run them. If not, each answer is a reply.
    pub may_refuse: bool,
}

impl CallPlan {
    /// The parts of the one request that the bytes are. `GET a` is one part of slot 15495. `MGET a b`
    /// has the parts `MGET a` and `MGET b`. `DBSIZE` has one for each primary.
    ///
    /// # Errors
    ///
    /// In this order: `Unread` and `AfterRequest` if the bytes are not one request, `NotTaken`,
    /// `Blocking`, `NoRoute`, `NoOneReply`. `Memory` may come in the place of any.
    pub fn new(
        alloc: Global,
        request: &[u8],
        names: Names<'_>,
        added: &AddedNames,
    ) -> Result<CallPlan, CallRefusal>
        // The bytes are one request, and the parts are those of its words.
        ensures planned { IfOk result (λ plan. (words : Words) × IsRequest words request.now
            × IsCallPlan (names_in names.entry) added.now words plan) }
        // Each part of a split command has a slot of its own.
        ensures slots { IfOk result (λ plan. IsSplitBySlot plan.parts) }
        // Each request has its plan or its refusal, unless memory runs out.
        ensures only { (words : Words) → IsRequest words request.now → MatchResult result
            (λ plan. IsCallPlan (names_in names.entry) added.now words plan)
            (λ refusal. (refusal ≡ refused.Memory)
            ⊎ (Some refusal ≡ refusal_of (names_in names.entry) added.now (map Some words))) }
        // Each refusal has its cause.
        ensures refused { IfErr result
            (λ refusal. IsCallRefused (names_in names.entry) added.now request.now refusal) }
    {
        let command = read_call(alloc, request)?;
        plan_of(alloc, &command, names, added)
    }
}

/// The one request that the bytes are.
fn read_call(alloc: Global, bytes: &[u8]) -> Result<Request<'_>, CallRefusal>
    ensures found { IfOk result (λ request. IsRequest request bytes.now) }
    ensures only { (words : Words) → IsRequest words bytes.now
        → MatchResult result (λ request. request ≡ words) (λ refusal. refusal ≡ refused.Memory) }
    ensures refused { IfErr result (λ refusal. IsUnreadCall bytes.now refusal) }
{
    let (request, rest) = match Request::read(alloc, bytes) {
        Ok(found) => found,
        Err(RequestError::Memory) => return Err(CallRefusal::Memory),
        Err(RequestError::Fault(fault)) => return Err(CallRefusal::Unread(fault)),
    };
    if !rest.is_empty() {
        return Err(CallRefusal::AfterRequest(bytes.len() - rest.len()));
    }
    Ok(request)
}

/// The plan of a command.
fn plan_of(
    alloc: Global,
    command: &Request<'_>,
    names: Names<'_>,
    added: &AddedNames,
) -> Result<CallPlan, CallRefusal>
    ensures planned { IfOk result (λ plan.
        IsCallPlan (names_in names.entry) added.now command.now plan) }
    ensures refused { IfErr result (λ refusal. (refusal ≡ refused.Memory)
        ⊎ (Some refusal ≡ refusal_of (names_in names.entry) added.now (map Some command.now))) }
{
    let Some(kind) = command_kind(alloc, command, names.registry, added)? else {
        return Err(CallRefusal::NotTaken);
    };
    if waits(command, kind) {
        return Err(CallRefusal::Blocking);
    }
    let parts = parts_of(alloc, command, names, kind)?;
    Ok(CallPlan {
        parts,
        may_refuse: may_refuse(kind),
    })
}

/// Whether a command of this kind waits.
fn waits(command: &Request<'_>, kind: CommandKind) -> bool
    ensures { result ≡ waits kind (map Some command.now) }
{
    kind == CommandKind::Stream && command.position(b"BLOCK").is_some()
}

/// Whether nodes refuse a command of this kind before they run it.
fn may_refuse(kind: CommandKind) -> bool
    ensures { result ≡ may_refuse kind }
{
    kind != CommandKind::Script
}

/// Which order a part of this kind has that has no slot.
fn order_without_slot(kind: CommandKind) -> PartOrder
    ensures { result ≡ order_without_slot kind }
{
    match kind {
        CommandKind::Free => PartOrder::Free,
        _ => PartOrder::Whole,
    }
}

/// The parts of a command of this kind, by one look-up of where it goes.
fn parts_of(
    alloc: Global,
    command: &Request<'_>,
    names: Names<'_>,
    kind: CommandKind,
) -> Result<CallParts, CallRefusal>
    ensures parts { IfOk result (λ parts.
        AreCallParts (names_in names.entry) (map Some command.now) kind parts) }
    ensures refused { IfErr result (λ refusal. (refusal ≡ refused.Memory)
        ⊎ (Some refusal
        ≡ refusal_of_route (routing (names_in names.entry) (map Some command.now)))) }
{
    match Routed::new(alloc, command, names)? {
        Routed::Nowhere => Err(CallRefusal::NoRoute),
        Routed::One(node) => Ok(CallParts::One(order_at(&node, kind))),
        Routed::Several(nodes, policy) => several_parts(nodes, policy, kind),
        Routed::Slots(split) => Ok(split_parts(alloc, &split, command)?),
    }
}

/// The order of a part of this kind that goes to one node.
fn order_at(node: &SingleNodeRoutingInfo, kind: CommandKind) -> PartOrder
    ensures { result ≡ order_at kind (as_single_node node.now) }
{
    match node {
        SingleNodeRoutingInfo::SpecificNode(route) => PartOrder::OfSlot(route.slot()),
        _ => order_without_slot(kind),
    }
}

/// The parts of a command that goes to each node of a group.
fn several_parts(
    nodes: NodeGroup,
    policy: Option<ResponsePolicy>,
    kind: CommandKind,
) -> Result<CallParts, CallRefusal>
    ensures parts { IfOk result
        (AreCallPartsTo kind (multi_node (group_nodes nodes) policy)) }
    ensures refused { IfErr result (λ refusal. Some refusal
        ≡ refusal_of_route (Some (multi_node (group_nodes nodes) policy))) }
{
    match one_reply(policy) {
        Some(policy) => Ok(CallParts::Several(nodes, policy, order_without_slot(kind))),
        None => Err(CallRefusal::NoOneReply),
    }
}

/// The policy, if it makes one reply that names no address.
fn one_reply(policy: Option<ResponsePolicy>) -> Option<ResponsePolicy>
    ensures { result ≡ one_reply policy }
{
    match policy {
        Some(ResponsePolicy::Special) => None,
        _ => policy,
    }
}

/// The parts of a split command: one for each slot, or the request as it came if it has one slot.
fn split_parts(
    alloc: Global,
    split: &SplitCommand<'_, Request<'_>>,
    command: &Request<'_>,
) -> Result<CallParts, AllocError>
    requires { split.now.arguments ≡ map Some command.now }
    ensures { IfOk result (λ parts. AreSplitParts split.now parts) }
{
    if split.len() == 1 {
        return Ok(CallParts::One(PartOrder::OfSlot(slot_of_route(split, 0))));
    }
    Ok(CallParts::Split(slot_parts(alloc, split, command)?))
}

/// The part of each slot.
fn slot_parts(
    alloc: Global,
    split: &SplitCommand<'_, Request<'_>>,
    command: &Request<'_>,
) -> Result<Vec<SlotPart>, AllocError>
    requires { split.now.arguments ≡ map Some command.now }
    ensures { IfOk result (λ parts. AreSlotParts split.now parts.items) }
{
    let mut parts = Vec::with_capacity(alloc, split.len())?;
    for number in 0..split.len() {
        parts.push(slot_part(alloc, split, command, number)?)?;
    }
    Ok(parts)
}

/// The part of the route of this number.
fn slot_part(
    alloc: Global,
    split: &SplitCommand<'_, Request<'_>>,
    command: &Request<'_>,
    number: usize,
) -> Result<SlotPart, AllocError>
    requires command { split.now.arguments ≡ map Some command.now }
    requires within { number < length split.now.routes }
    ensures { IfOk result (λ part. IsPartAt split.now number part) }
{
    let mut request = Vec::new(alloc);
    push_part(&mut request, split, command, number)?;
    Ok(SlotPart {
        slot: slot_of_route(split, number),
        request,
    })
}

/// The slot of the route of this number.
fn slot_of_route(split: &SplitCommand<'_, Request<'_>>, number: usize) -> u16
    requires { number < length split.now.routes }
    ensures { Some result ≡ slot_of_route split.now number }
{
    split.routes()[number].0.slot()
}
