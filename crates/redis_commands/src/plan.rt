ghost use Rattle.std.specs.Prelude.{◌≡◌, ◌<◌, ℕ, pos, List, Bool, true, false, cond, map, length, slice_get, slice_set, option_map, is_none, Option, Some, None, Err, MatchOption, MatchResult, IfOk, IfErr, OnOk};
ghost use Rattle.std.specs.List.{list_any};
ghost use Rattle.resp_core.specs.ErrorParts.{out_of_memory};
ghost use Rattle.resp_core.specs.Reply.{array, bulk, int, replies_of};
ghost use Rattle.resp_core.specs.View.{view};
ghost use Rattle.cluster_slots.specs.declared.aggregate_op.AggregateOp.TheVariants.{Sum};
ghost use Rattle.cluster_map.specs.EachOnce.{primaries_in};
ghost use Rattle.cluster_map.specs.RangeMap.{RangeEntry};
ghost use Rattle.cluster_map.specs.SlotNodes.{SlotNodes};
ghost use Rattle.redis_routing.specs.Names.{names_in};
ghost use Rattle.redis_routing.specs.declared.policy.ResponsePolicy.TheVariants.{Aggregate, CombineArrays};
ghost use Rattle.redis_cluster.specs.MultiKey.{ReplyForm, list};
ghost use Rattle.redis_cluster.specs.Plan.{ArePartsAnswered};
ghost use Rattle.redis_cluster.specs.Unsplit.{Keyspace, TupleResult, reply_by};
ghost use Rattle.redis_routing.specs.Split.{Split};
ghost use Rattle.redis_commands.specs.Keyspaces.{AreKeysOf, AreMeasures, HasCount, IsServed, counted_answer, listed_answer};
ghost use Rattle.redis_routing.specs.Routing.{routing};
ghost use Rattle.redis_combiners.specs.Answers.{answers_given, first_error, missing_answer, values_in};
ghost use Rattle.redis_commands.specs.Part.{arguments_sent};
ghost use Rattle.redis_commands.specs.Rule.{IsCombined, by_policy, of_parts, rule_of, sent_by};
ghost use Rattle.redis_commands.specs.Planned.{IsPlanned};
ghost use Rattle.redis_commands.specs.Targets.{AreTargets, IsCommandPlanFault};

use crate::answers::{only_answer, tell_one};
use crate::combining::combine_answers;
use crate::fault::CommandPlanFault;
use crate::part::CommandPart;
use crate::ways::{Way, plan_by};
use cluster_map::{ReadRoutingStrategy, SlotMap};
use cluster_slots::NodeAddress;
use redis_combiners::answers::tell_at;
use redis_routing::{Names, Routable};
use resp_core::{RedisResult, Value};
use std::alloc::Global;
use std::marker::Model;

/// A command of any kind, ready to be sent: its targets, what each is sent, and room for what each
/// answers. Once it has each answer, it makes the one reply of the command.
///
/// It sends nothing. A client with connections of its own sends each part to its node, at once or in
/// any order, and gives the plan each answer as it comes.
///
/// ```
/// for number in 0..plan.len() {
///     if let (Some(node), Some(part)) = (plan.node(number), plan.part(number)) {
///         let answer = connections.ask(node, part.command());
///         let _ = plan.tell(number, answer);
///     }
/// }
/// plan.combine(alloc).map_err(CallError::NotAnswered)
/// ```
#[derive(Drop)]
pub struct CommandPlan<'a, R: Routable> {
    pub(crate) command: &'a R,
    pub(crate) way: Way<'a, R>,
}

impl<'a, R: Routable> Model for CommandPlan<'a, R> {
    ghost use Rattle.std.specs.Coded.{codes};
    ghost use Rattle.resp_core.specs.contracts.value.Value as value;
    ghost use Rattle.redis_commands.specs.Planned.{PlannedCommand, IsPlanned};

    ghost Value = { PlannedCommand };

    ghost coded = { Prim.hlevel (codes, value.the_row.coded) };

    ghost use Rattle.redis_commands.specs.Way.{planned};

    ghost view = { λ p. planned (R.args p.command.now) p.way };

    ghost invariant = { λ p. IsPlanned (planned (R.args p.command.now) p.way) };
}

impl<'a, R: Routable> CommandPlan<'a, R> {
    /// Plans a command, by where `RoutingInfo` says that it goes.
    ///
    /// - To one node, such as `GET a` or `MGET a {a}b`: the map names the node of the route, and the
    ///   strategy if reads may go to replicas. If any node will do, such as for `ECHO a`, it is the
    ///   one at `pick` modulo their number.
    /// - To each primary or each node once, such as `DBSIZE` or `CONFIG SET`, in the order of
    ///   `addresses_for_all_primaries` or `addresses_for_all_nodes`.
    /// - In parts, such as `MGET a b`: to a node of each slot, as `SplitPlan` has it.
    ///
    /// # Errors
    ///
    /// `NotRoutable` if the command goes nowhere, `NotCovered` if a slot of it has no node, the first
    /// in the order of routes, `NoNode` if it goes to nodes whatever their slots and the map has
    /// none. `Memory` if memory ran out. A plan for one node of a route takes no memory of its own.
    pub fn new(
        alloc: Global,
        command: &'a R,
        names: Names<'_>,
        slot_map: &'a SlotMap,
        strategy: Option<&dyn ReadRoutingStrategy>,
        pick: usize,
    ) -> Result<Self, CommandPlanFault>
        ensures targets { IfOk result
            (λ plan. MatchOption (routing (names_in names.entry) (R.args command.now)) ⊥
            (λ to. AreTargets strategy.entry (λ s. picks s.now) slot_map.now pick to plan.targets)) }
        ensures rule { IfOk result
            (λ plan. Some plan.rule ≡ option_map (rule_of (R.args command.now))
            (routing (names_in names.entry) (R.args command.now))) }
        ensures sent { IfOk result
            (λ plan. plan.sent
            ≡ sent_by (R.args command.now) plan.rule plan.targets) }
        ensures some { IfOk result (λ plan. 0 < length plan.targets) }
        ensures untold { IfOk result
            (λ plan. plan.answers ≡ map (λ target. None) plan.targets) }
        ensures fault { IfErr result
            (λ fault.
            IsCommandPlanFault slot_map.now (names_in names.entry) (R.args command.now) fault) }
    {
        plan_by(alloc, command, names, slot_map, strategy, pick)
    }

    /// How many targets there are, which is at least one.
    pub fn len(&self) -> usize
        ensures len { result ≡ length self.now.targets }
        ensures plan { IsPlanned self.now }
    {
        match &self.way {
            Way::One(_, _) => 1,
            Way::Several(nodes, _, _) => nodes.len(),
            Way::Split(plan) => plan.len(),
        }
    }

    /// The target of this number, if there is one.
    pub fn node(&self, number: usize) -> Option<&NodeAddress>
        ensures { option_map (λ node. node.now) result ≡ slice_get self.now.targets number }
    {
        match &self.way {
            Way::One(node, _) if number == 0 => Some(*node),
            Way::One(_, _) => None,
            Way::Several(nodes, _, _) => {
                let node = nodes.get(number)?;
                Some(*node)
            }
            Way::Split(plan) => plan.node(number),
        }
    }

    /// What this target is sent, if there is such a target: the whole command, or the part of its
    /// slot.
    pub fn part(&self, number: usize) -> Option<CommandPart<'_, R>>
        ensures { option_map (arguments_sent R.args) result ≡ slice_get self.now.sent number }
    {
        match &self.way {
            Way::One(_, _) => whole_if(self.command, number == 0),
            Way::Several(nodes, _, _) => whole_if(self.command, nodes.get(number).is_some()),
            Way::Split(plan) => {
                let part = plan.part(number)?;
                Some(CommandPart::Split(part))
            }
        }
    }

    /// Takes what this target answered: a value, or an error of its server. No memory is taken.
    ///
    /// # Errors
    ///
    /// Gives the answer back if there is no such target, or if it has answered.
    pub fn tell(
        &mut self,
        number: usize,
        answer: RedisResult<Value>,
    ) -> Result<(), RedisResult<Value>>
        ensures told { OnOk result ((slice_get self.old.answers number ≡ Some None)
            × (self.new ≡ record {
              rule = self.old.rule;
              targets = self.old.targets;
              sent = self.old.sent;
              answers = slice_set self.old.answers number (Some answer);
            })) }
        ensures refused { IfErr result
            (λ back. (back ≡ answer) × (self.new ≡ self.old)
            × (slice_get self.old.answers number ≡ Some None → ⊥)) }
    {
        match &mut self.way {
            Way::One(_, told) => tell_one(told, number, answer),
            Way::Several(_, _, told) => tell_at(told, number, answer),
            Way::Split(plan) => plan.tell(number, answer),
        }
    }

    /// The one reply of the command, once the plan has each answer.
    ///
    /// Of a command to one node it is the answer. Of a command in parts it is what `SplitPlan` makes
    /// of the answers. Of a command to each primary or each node it is what
    /// `combine_answers` makes, by the policy of its name.
    ///
    /// # Errors
    ///
    /// An error that a server answered, or the error of the combiner. `Client` if an answer is
    /// missing. `OutOfMemory` if memory ran out. One answer, counts of parts and `OK` of parts take
    /// no memory.
    pub fn combine(self, alloc: Global) -> RedisResult<Value>
        ensures reply { list_any is_none self.entry.answers ≡ false
            → IsCombined self.entry.rule self.entry.targets (answers_given self.entry.answers) result }
        // If the keys of a split command have these results, the reply is that of the unsplit command.
        ensures unsplit { (split : Split) (form : ReplyForm) (results : List TupleResult)
            → self.entry.rule ≡ of_parts split → list_any is_none self.entry.answers ≡ false
            → first_error (answers_given self.entry.answers) ≡ None
            → ArePartsAnswered split form results (values_in (answers_given self.entry.answers))
            → MatchResult result (λ value. view value ≡ reply_by form results)
            (λ error. (error ≡ out_of_memory) × (form ≡ list)) }
        // If each primary counts the keys that it has, as by `DBSIZE`, the reply is the count of all.
        ensures counted { (entries : List (RangeEntry SlotNodes)) (keyspace : Keyspace (Unit {0}))
            (counts : List ℕ) → self.entry.rule ≡ by_policy (Some (Aggregate Sum))
            → IsServed entries keyspace
            → AreMeasures HasCount entries keyspace (primaries_in entries) counts
            → answers_given self.entry.answers ≡ map counted_answer counts
            → IfOk result (λ value. (count : ℕ) × (view value ≡ int (pos count))
            × HasCount keyspace count) }
        // If each primary lists the wanted keys that it has, as by `KEYS`, the reply lists each wanted
        // key of all once.
        ensures listed { (wanted : List ℕ → Bool) (entries : List (RangeEntry SlotNodes))
            (keyspace : Keyspace (Unit {0})) (lists : List (List (List ℕ)))
            → self.entry.rule ≡ by_policy (Some CombineArrays) → IsServed entries keyspace
            → AreMeasures (AreKeysOf wanted) entries keyspace (primaries_in entries) lists
            → answers_given self.entry.answers ≡ map listed_answer lists
            → IfOk result (λ value. (keys : List (List ℕ))
            × (view value ≡ array (replies_of (map bulk keys))) × AreKeysOf wanted keyspace keys) }
        ensures untold { list_any is_none self.entry.answers ≡ true → result ≡ Err missing_answer }
    {
        let CommandPlan { command: _, way } = self;
        match way {
            Way::One(_, told) => only_answer(told),
            Way::Several(nodes, policy, told) => combine_answers(alloc, policy, &nodes, told),
            Way::Split(plan) => Box::into_inner(plan).combine(alloc),
        }
    }
}

/// The whole command, if there is such a target.
fn whole_if<R: Routable>(command: &R, there: bool) -> Option<CommandPart<'_, R>>
    ensures { option_map (arguments_sent R.args) result
        ≡ cond there (Some (R.args command.now)) None }
{
    if there {
        Some(CommandPart::Whole(command))
    } else {
        None
    }
}
