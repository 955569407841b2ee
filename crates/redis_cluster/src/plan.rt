ghost use Rattle.std.specs.Prelude.{◌≡◌, ◌≢◌, ◌<◌, ◌≤◌, ◌⊎◌, ℕ, List, [], true, false, Option, Some, None, is_none, Ok, Err, MatchResult, IfOk, OnOk, IfErr, length, map, option_map, slice_get, slice_set};
ghost use Rattle.std.specs.List.{All, AllZip, list_any};
ghost use Rattle.std.specs.Result.{IsErrAnd};
ghost use Rattle.std.specs.Vec.{vec_capacity};
ghost use Rattle.resp_core.specs.ErrorParts.{ErrorParts, out_of_memory};
ghost use Rattle.resp_core.specs.declared.value.Value.{Value};
ghost use Rattle.resp_core.specs.View.{view};
ghost use Rattle.resp_core.specs.declared.error.ErrorKind.TheVariants.{Client};
ghost use Rattle.cluster_map.specs.ReplyNode.{IsCovered};
ghost use Rattle.cluster_map.specs.RouteNode.{IsRouteNode};
ghost use Rattle.redis_combiners.specs.Answers.{answers_given, first_error, missing_answer, values_told};
ghost use Rattle.redis_routing.specs.Command.{command_name};
ghost use Rattle.redis_routing.specs.Names.{names_in};
ghost use Rattle.redis_routing.specs.Registry.{Registrations};
ghost use Rattle.redis_routing.specs.Complete.{multi_slot_routes, pattern_by_name};
ghost use Rattle.redis_routing.specs.Split.{IsSplit, policy_by_name, split_part, slots_of};
ghost use Rattle.redis_routing.specs.RoutingInfo.{route_lists};
ghost use Rattle.redis_cluster.specs.Amid.{IsReplyAmid};
ghost use Rattle.redis_cluster.specs.MultiKey.{MultiKey, ReplyForm, list, form_by_policy, part_by_slot};
ghost use Rattle.redis_cluster.specs.Unsplit.{reply_by, TupleResult};
ghost use Rattle.redis_cluster.specs.Driven.{request, command_routes_by, IsFirstUncovered};
ghost use Rattle.redis_cluster.specs.Faults.{IsPlanFault};
ghost use Rattle.redis_cluster.specs.Joined.{IsOutcome};
ghost use Rattle.redis_cluster.specs.Plan.{IsRoutedPlan, IsMadeOfParts, ArePartReplies, ArePartsAnswered, tuples_in_split};
ghost use Rattle.redis_cluster.specs.Ready.{IsPlanFor, IsPlanOf};

use crate::fault::PlanFault;
use cluster_map::{ReadRoutingStrategy, SlotMap};
use cluster_slots::{NodeAddress, Route};
use redis_combiners::answers::{is_untold, missing, no_answers, tell_at};
use redis_combiners::{aggregate, combine_and_sort_array_results};
use redis_routing::{Names, ResponsePolicy, Routable, SplitCommand};
use resp_core::{Cmd, ErrorKind, RedisError, RedisResult, Value};
use std::alloc::{AllocError, Global};
use std::marker::Model;

/// A multi-key command, ready to be sent part by part. For each of its routes it has the node, the
/// part, and room for what the node answers. Once it has each answer, it makes the one reply of the
/// command.
///
/// `drive` is a loop over it. A client with connections of its own sends the parts itself, at once
/// or in any order, and gives the plan each answer as it comes: a value, or an error of the server.
///
/// ```
/// for (number, answer) in answers.into_iter().enumerate() {
///     let _ = plan.tell(number, answer);
/// }
/// plan.combine(alloc).map_err(BatchError::NotAnswered)
/// ```
#[derive(Drop)]
pub struct SplitPlan<'a, R: Routable> {
    split: SplitCommand<'a, R>,
    nodes: Vec<&'a NodeAddress>,
    parts: Vec<Cmd>,
    answers: Vec<Option<RedisResult<Value>>>,
    // For the values of the answers, so that `combine` takes none for it.
    room: Vec<Value>,
}

impl<'a, R: Routable> Model for SplitPlan<'a, R> {
    ghost use Rattle.std.specs.Prelude.{◌≡◌, ◌≤◌, [], length, map};
    ghost use Rattle.std.specs.Coded.{codes};
    ghost use Rattle.std.specs.Vec.{vec_capacity};
    ghost use Rattle.resp_core.specs.contracts.value.Value as value;
    ghost use Rattle.redis_cluster.specs.Plan.{Plan, IsRoutedPlan};

    ghost Value = { Plan };

    ghost coded = { Prim.hlevel (codes, value.the_row.coded) };

    ghost view = { λ p. record {
      split = p.split;
      nodes = map (λ n. n.now) p.nodes.items;
      parts = p.parts.items;
      answers = p.answers.items;
    } };

    ghost invariant = { λ p. IsRoutedPlan (record {
      split = p.split;
      nodes = map (λ n. n.now) p.nodes.items;
      parts = p.parts.items;
      answers = p.answers.items;
    })
        × (p.room.items ≡ []) × (length p.answers.items ≤ vec_capacity p.room) };
}

impl<'a, R: Routable> SplitPlan<'a, R> {
    /// Plans a command: its routes, in order of first appearance of their slots, and the node and
    /// the part of each. The map names the node, and the strategy if reads may go to replicas.
    /// `pick` decides nothing here, since no route of a split requires a replica.
    ///
    /// # Errors
    ///
    /// In this order: `NotMultiKey` if the command is not complete, `NotCovered` if a slot of a key
    /// has no node, the first in the order of routes. `Memory` if memory ran out.
    pub fn new(
        alloc: Global,
        command: &'a R,
        names: Names<'_>,
        slot_map: &'a SlotMap,
        strategy: Option<&dyn ReadRoutingStrategy>,
        pick: usize,
    ) -> Result<Self, PlanFault>
        ensures routes { IfOk result
            (λ plan. Some plan.split.routes
            ≡ multi_slot_routes (names_in names.entry) (R.args command.now)) }
        ensures arguments { IfOk result (λ plan. plan.split.arguments ≡ R.args command.now) }
        ensures pattern { IfOk result
            (λ plan. Some plan.split.pattern
            ≡ pattern_by_name names.entry.registry.now (command_name (R.args command.now))) }
        ensures policy { IfOk result
            (λ plan. Some plan.split.policy
            ≡ policy_by_name names.entry.registry.now (command_name (R.args command.now))) }
        ensures nodes { IfOk result
            (λ plan. AllZip (λ route address.
            IsRouteNode strategy.entry (λ s. picks s.now) slot_map.now pick route.0 address)
            plan.split.routes plan.nodes) }
        // There is one for each slot of a key, in the order of the first key of each.
        ensures slots { IfOk result (λ plan. Some (map (λ route. route.0) plan.split.routes)
            ≡ command_routes_by (names_in names.entry) (R.args command.now)) }
        // The part of a route is that of its slot: the name as spelt, the slot's tuples in order, and
        // what all tuples share.
        ensures parts { IfOk result
            (λ plan. AllZip (λ route part.
            map Some part
            ≡ part_by_slot names.entry.registry.now (R.args command.now) route.0.slot)
            plan.split.routes plan.parts) }
        // So each route's slot has a node.
        ensures covered { IfOk result
            (λ plan. All (λ route. IsCovered slot_map.now route.0.slot) plan.split.routes) }
        ensures untold { IfOk result
            (λ plan. plan.answers ≡ map (λ route. None) plan.split.routes) }
        // `drive_plan` takes it over nodes with the same registered names.
        ensures command { IfOk result (λ plan. (registered : Registrations)
            → names.entry.registry.now ≡ registered → (c : MultiKey) × IsPlanOf registered c plan) }
        // So it is ready to be driven, in any order.
        ensures ready { IfOk result (λ plan. (order : List ℕ) → (c : MultiKey) × IsPlanFor
            (request (R.args command.now) (names_in names.entry) slot_map.now order) plan c) }
        ensures fault { IfErr result
            (λ fault.
            IsPlanFault slot_map.now (names_in names.entry) (R.args command.now) fault) }
        // A command that is split by slot is complete.
        ensures not_split { IfErr result (λ fault. fault ≡ PlanFault.NotMultiKey
            → multi_slot_routes (names_in names.entry) (R.args command.now) ≡ None) }
    {
        match SplitCommand::new(alloc, command, names)? {
            Some(split) => Self::from_split(alloc, split, slot_map, strategy, pick),
            None => Err(PlanFault::NotMultiKey),
        }
    }

    /// Plans a command that is split already, such as `Routed::new` has it.
    ///
    /// # Errors
    ///
    /// `NotCovered` if a slot of a key has no node, the first in the order of routes. `Memory` if
    /// memory ran out.
    pub fn from_split(
        alloc: Global,
        split: SplitCommand<'a, R>,
        slot_map: &'a SlotMap,
        strategy: Option<&dyn ReadRoutingStrategy>,
        pick: usize,
    ) -> Result<Self, PlanFault>
        ensures split { IfOk result (λ plan. plan.split ≡ split.entry) }
        ensures nodes { IfOk result
            (λ plan. AllZip (λ route address.
            IsRouteNode strategy.entry (λ s. picks s.now) slot_map.now pick route.0 address)
            plan.split.routes plan.nodes) }
        ensures plan { IfOk result IsRoutedPlan }
        ensures whole { IsSplit split.entry }
        ensures untold { IfOk result
            (λ plan. plan.answers ≡ map (λ route. None) plan.split.routes) }
        ensures fault { IfErr result
            (λ fault. (fault ≡ PlanFault.Memory)
            ⊎ ((slot : ℕ) × (fault ≡ PlanFault.NotCovered slot)
            × IsFirstUncovered slot_map.now (map (λ r. r.0) split.entry.routes) slot)) }
    {
        let nodes = nodes_of(alloc, slot_map, split.routes(), strategy, pick)?;
        let parts = parts_of(alloc, &split)?;
        let count = split.len();
        let answers = no_answers(alloc, count)?;
        let room = Vec::with_capacity(alloc, count)?;
        Ok(SplitPlan {
            split,
            nodes,
            parts,
            answers,
            room,
        })
    }

    /// The routes, each with the indices of its part's arguments.
    pub fn routes(&self) -> &[(Route, Vec<usize>)]
        ensures routes { route_lists result.now ≡ self.now.split.routes }
        ensures plan { IsRoutedPlan self.now }
    {
        self.split.routes()
    }

    /// How many routes there are, which is at least one.
    pub fn len(&self) -> usize
        ensures len { result ≡ length self.now.split.routes }
        ensures some { 0 < result }
        ensures plan { IsRoutedPlan self.now }
    {
        self.split.len()
    }

    /// The node that the part of this route goes to, if there is such a route.
    pub fn node(&self, number: usize) -> Option<&'a NodeAddress>
        ensures { option_map (λ node. node.now) result ≡ slice_get self.now.nodes number }
    {
        let node = self.nodes.get(number)?;
        Some(*node)
    }

    /// The part of this route, as a command of its own, if there is such a route.
    pub fn part(&self, number: usize) -> Option<&Cmd>
        ensures { option_map (λ part. part.now) result ≡ slice_get self.now.parts number }
    {
        self.parts.get(number)
    }

    /// Takes what was answered to the part of this route: a value, or an error of the server. No
    /// memory is taken.
    ///
    /// # Errors
    ///
    /// Gives the answer back if there is no such route, or if it has an answer.
    pub fn tell(
        &mut self,
        number: usize,
        answer: RedisResult<Value>,
    ) -> Result<(), RedisResult<Value>>
        ensures told { OnOk result ((slice_get self.old.answers number ≡ Some None)
            × (self.new ≡ record {
              split = self.old.split;
              nodes = self.old.nodes;
              parts = self.old.parts;
              answers = slice_set self.old.answers number (Some answer);
            })) }
        ensures refused { IfErr result
            (λ back. (back ≡ answer) × (self.new ≡ self.old)
            × (slice_get self.old.answers number ≡ Some None → ⊥)) }
    {
        tell_at(&mut self.answers, number, answer)
    }

    /// The one reply of the command, once the plan has each answer. Counts are added up, and lists
    /// are put in the order of the command's keys. Of commands that only succeed it is the reply of
    /// route 0. If an answer is an error, it is the first error in the order of the routes.
    ///
    /// # Errors
    ///
    /// An error that a server answered. `Client` if an answer is missing. Else what the combiners
    /// refuse. They refuse nothing if the replies are those to parts of one command, and memory runs
    /// out for lists alone. The plan and its answers are used up then, too.
    pub fn combine(self, alloc: Global) -> RedisResult<Value>
        ensures unsplit { (form : ReplyForm) (results : List TupleResult)
            → ArePartReplies self.entry form results → MatchResult result
            (λ value. view value ≡ reply_by form results)
            (λ error. (error ≡ out_of_memory) × (form ≡ list)) }
        ensures joined { (replies : List Value) → self.entry.answers ≡ values_told replies → MatchResult result
            (λ value. IsMadeOfParts self.entry.split (map view replies) (Ok (view value)))
            (λ error. ((error ≡ out_of_memory)
            × (self.entry.split.policy ≡ ResponsePolicy.CombineArrays))
            ⊎ IsMadeOfParts self.entry.split (map view replies) (Err error.kind)) }
        // Others may write the same keys meanwhile, as for `drive`. Each key holds bytes here, such as
        // `DUMP` gives.
        ensures amid { (registered : Registrations) (c : MultiKey) (replies : List Value)
            → IsPlanOf registered c self.entry → self.entry.answers ≡ values_told replies
            → IfOk result (λ value. IsReplyAmid (List ℕ) c (map view replies) (view value)) }
        // An error that a server answered is the reply, the first in the order of the routes.
        ensures refused { (error : ErrorParts) → list_any is_none self.entry.answers ≡ false
            → first_error (answers_given self.entry.answers) ≡ Some error → result ≡ Err error }
        ensures untold { list_any is_none self.entry.answers ≡ true → result ≡ Err missing_answer }
    {
        let SplitPlan {
            split,
            nodes: _,
            parts: _,
            answers,
            room,
        } = self;
        if is_untold(&answers) {
            return Err(missing());
        }
        let replies = values_in(answers, room)?;
        join(alloc, &split, replies)
    }
}

/// The values of answers of which none is missing, put into a list with room for them. Or the first
/// error.
fn values_in(answers: Vec<Option<RedisResult<Value>>>, room: Vec<Value>) -> RedisResult<Vec<Value>>
    requires told { list_any is_none answers.items ≡ false }
    requires empty { room.items ≡ [] }
    requires room { length answers.items ≤ vec_capacity room }
    ensures values { IfOk result (λ values. answers.items ≡ values_told values.items) }
    ensures error { IfErr result (λ error. first_error (answers_given answers.items) ≡ Some error) }
{
    let mut values = room;
    for answer in answers {
        if let Some(answer) = answer {
            values.push_reserved(answer?);
        }
    }
    Ok(values)
}

/// The one reply to a split command, by those to its parts.
fn join<R: Routable>(
    alloc: Global,
    split: &SplitCommand<'_, R>,
    replies: Vec<Value>,
) -> RedisResult<Value>
    requires some { 0 < length replies.items }
    requires each { length replies.items ≡ length split.now.routes }
    ensures joined { (form : ReplyForm) → form_by_policy split.now.policy ≡ Some form
        → MatchResult result
        (λ value. IsOutcome (tuples_in_split split.now) (slots_of split.now.routes)
        (map view replies.items) form (Ok (view value)))
        (λ error. ((error ≡ out_of_memory) × (split.now.policy ≡ ResponsePolicy.CombineArrays))
        ⊎ IsOutcome (tuples_in_split split.now) (slots_of split.now.routes)
        (map view replies.items) form (Err error.kind)) }
{
    match split.policy() {
        ResponsePolicy::CombineArrays => {
            combine_and_sort_array_results(alloc, replies, split.routes(), &split.pattern())
        }
        ResponsePolicy::Aggregate(op) => aggregate(replies, op),
        _ => Ok(first_of(replies)),
    }
}

/// The one reply to a split command, by those to its parts, one for each route in the order of the
/// routes. `SplitPlan::combine` does the same with the answers to a plan.
///
/// # Errors
///
/// `Client` if there is not a reply for each route. Else what the combiners refuse. They refuse
/// nothing if the replies are those to the parts, and memory runs out for lists alone.
pub fn join_replies<R: Routable>(
    alloc: Global,
    split: &SplitCommand<'_, R>,
    replies: Vec<Value>,
) -> RedisResult<Value>
    ensures unsplit { (form : ReplyForm) (results : List TupleResult)
        → ArePartsAnswered split.now form results (map view replies.items) → MatchResult result
        (λ value. view value ≡ reply_by form results)
        (λ error. (error ≡ out_of_memory) × (form ≡ list)) }
    ensures joined { length replies.items ≡ length split.now.routes → MatchResult result
        (λ value. IsMadeOfParts split.now (map view replies.items) (Ok (view value)))
        (λ error. ((error ≡ out_of_memory) × (split.now.policy ≡ ResponsePolicy.CombineArrays))
        ⊎ IsMadeOfParts split.now (map view replies.items) (Err error.kind)) }
    ensures count { length replies.items ≢ length split.now.routes
        → IsErrAnd result (λ error. error.kind ≡ Client) }
{
    let routes = split.routes();
    if replies.len() != routes.len() {
        return Err(RedisError::from((ErrorKind::Client, "not a reply for each part")));
    }
    join(alloc, split, replies)
}

/// The first of some replies.
fn first_of(replies: Vec<Value>) -> Value
    requires some { 0 < length replies.items }
    ensures { Some (view result) ≡ slice_get (map view replies.items) 0 }
{
    match replies.into_iter().next() {
        Some(first) => first,
        None => unreachable!(),
    }
}

/// The nodes of routes, or the slot of the first one that has none.
fn nodes_of<'a>(
    alloc: Global,
    slot_map: &'a SlotMap,
    routes: &[(Route, Vec<usize>)],
    strategy: Option<&dyn ReadRoutingStrategy>,
    pick: usize,
) -> Result<Vec<&'a NodeAddress>, PlanFault>
    ensures nodes { IfOk result
        (λ nodes. AllZip (λ route address.
        IsRouteNode strategy.entry (λ s. picks s.now) slot_map.now pick route.0 address)
        (route_lists routes.now) (map (λ n. n.now) nodes.items)) }
    ensures fault { IfErr result
        (λ fault. (fault ≡ PlanFault.Memory)
        ⊎ ((slot : ℕ) × (fault ≡ PlanFault.NotCovered slot)
        × IsFirstUncovered slot_map.now (map (λ r. r.0) routes.now) slot)) }
{
    let mut nodes = Vec::with_capacity(alloc, routes.len())?;
    for (route, _) in routes {
        let Some(node) = slot_map.slot_addr_for_route(*route, strategy, pick) else {
            return Err(PlanFault::NotCovered(route.slot()));
        };
        nodes.push(node)?;
    }
    Ok(nodes)
}

/// The part of each route.
fn parts_of<R: Routable>(alloc: Global, split: &SplitCommand<'_, R>) -> Result<Vec<Cmd>, AllocError>
    ensures { IfOk result
        (λ parts. map (map Some) parts.items
        ≡ map (split_part split.now) (slots_of split.now.routes)) }
{
    let mut parts = Vec::with_capacity(alloc, split.len())?;
    for number in 0..split.len() {
        parts.push(split.part(alloc, number)?)?;
    }
    Ok(parts)
}
