ghost use Rattle.std.specs.Prelude.{◌≡◌, [], None, Some, true, IfOk, IfSome, is_some, option_copied, option_map, unwrap_or};
ghost use Rattle.redis_routing.specs.Command.{command_name};
ghost use Rattle.redis_routing.specs.Complete.{routes_by};
ghost use Rattle.redis_routing.specs.Inner.NameRule.{destination_routing};
ghost use Rattle.redis_routing.specs.Names.{names_in, names_of};
ghost use Rattle.redis_routing.specs.Policies.{joins_parts};
ghost use Rattle.redis_routing.specs.PresentArguments.{present_arguments};
ghost use Rattle.redis_routing.specs.Routed.{IsByName, IsRouted, routing_of, split_routed};
ghost use Rattle.redis_routing.specs.Routing.{to_slots};
ghost use Rattle.redis_routing.specs.RoutingInfo.{one_node};

use super::info::SingleNodeRoutingInfo;
use super::name_rule::{NameRule, rule_for};
use super::rules::{Destination, destination_of, to_key};
use super::split_command::SplitCommand;
use super::splitting::{present_len, routes_by_slot};
use crate::names::Names;
use crate::policy::ResponsePolicy;
use crate::read_only::ReadOnlyNames;
use crate::registry::Registry;
use crate::routable::Routable;
use crate::words::name_words;
use cluster_slots::{MultiSlotArgPattern, Route};
use std::alloc::{AllocError, Global};

/// Where a command goes, and its split if it is split: by one look-up of its name and one pass over
/// its keys.
#[derive(Drop)]
pub enum Routed<'a, R: Routable> {
    /// To no node: the caller has to say which one is meant, as for `SCAN 0`, or the argument that
    /// the command is routed by is missing.
    Nowhere,
    /// Whole, to one node: `GET foo`, or `JSON.MGET foo`, whose path is missing.
    One(SingleNodeRoutingInfo),
    /// Whole, to each of several nodes, whatever their slots. The policy says how their replies
    /// make one, if the layer knows.
    Several(NodeGroup, Option<ResponsePolicy>),
    /// In parts, one for each slot of a key. There may be one route: `MGET a {a}b`.
    Slots(SplitCommand<'a, R>),
}

/// The nodes that a whole command goes to.
#[derive(Clone, Copy, Debug, PartialEq, Eq)]
pub enum NodeGroup {
    /// Each node: `CONFIG SET maxmemory 100mb`.
    AllNodes,
    /// Each primary: `DBSIZE`.
    AllMasters,
}

impl<'a, R: Routable> Routed<'a, R> {
    /// Looks the name of a command up, and groups its keys by slot if it is split.
    ///
    /// A complete multi-key command is `Slots`, also where all its keys have one slot. Any other
    /// command is what `RoutingInfo::for_routable_with` says. `SplitCommand::new` and
    /// `multi_slot_routes` are matches on it, too.
    ///
    /// # Errors
    ///
    /// If memory runs out.
    pub fn new(alloc: Global, command: &'a R, names: Names<'_>) -> Result<Self, AllocError>
        ensures { IfOk result (IsRouted (names_in names.entry) (R.args command.now)) }
    {
        Self::by_tables(alloc, command, names.read_only, Some(names.registry))
    }

    /// As `new` has it by the tables, and by a registry if there is one.
    fn by_tables(
        alloc: Global,
        command: &'a R,
        read_only: &ReadOnlyNames,
        registry: Option<&Registry>,
    ) -> Result<Self, AllocError>
        ensures { IfOk result
            (IsRouted (names_of read_only.now (unwrap_or (option_copied registry.entry) []))
            (R.args command.now)) }
    {
        match rule_for(alloc, command, read_only, registry)? {
            NameRule::Split(pattern, policy, reads) => {
                Self::by_slots(alloc, command, pattern, policy, reads)
            }
            NameRule::Whole(route_by, policy, reads) => {
                Ok(Self::whole(destination_of(command, route_by, policy, reads)))
            }
        }
    }

    /// A command that is split, by its pattern and its policy.
    pub(super) fn by_slots(
        alloc: Global,
        command: &'a R,
        pattern: MultiSlotArgPattern,
        policy: ResponsePolicy,
        reads: bool,
    ) -> Result<Self, AllocError>
        requires name { is_some (command_name (R.args command.now)) ≡ true }
        requires joins { joins_parts policy ≡ true }
        ensures goes { IfOk result (λ routed. routing_of routed
            ≡ to_slots reads (Some policy) pattern (present_arguments (R.args command.now))) }
        ensures routes { IfOk result (λ routed. option_map (λ s. s.routes) (split_routed routed)
            ≡ routes_by reads (R.args command.now) (Some pattern)) }
        ensures split { IfOk result (λ routed. IfSome (split_routed routed)
            (λ s. (s.arguments ≡ R.args command.now) × (s.pattern ≡ pattern)
            × (s.policy ≡ policy))) }
        ensures by_name { IfOk result IsByName }
    {
        let words = name_words(command);
        let count = present_len(command, words);
        if pattern.is_complete(count) {
            let routes = routes_by_slot(alloc, command, words, pattern, count, reads)?;
            return Ok(Routed::Slots(SplitCommand {
                command,
                words,
                routes,
                pattern,
                policy,
            }));
        }
        if !pattern.fits(count) {
            return Ok(Routed::Nowhere);
        }
        // Only the argument that all keys share is missing. So there is one key.
        Ok(Self::one(to_key(command.arg_idx(words), reads)))
    }

    /// A command that is not split, by where it goes.
    fn whole(destination: Destination) -> Self
        ensures goes { routing_of result ≡ destination_routing destination }
        ensures whole { split_routed result ≡ None }
        ensures by_name { IsByName result }
    {
        match destination {
            Destination::One(node) => Self::one(node),
            Destination::Several(nodes, policy) => Routed::Several(nodes, policy),
        }
    }

    /// A command to one node: of the route, or any node if there is no route. Without a node it
    /// goes nowhere.
    fn one(node: Option<Option<Route>>) -> Self
        ensures goes { routing_of result ≡ one_node node }
        ensures whole { split_routed result ≡ None }
        ensures by_name { IsByName result }
    {
        match node {
            Some(Some(route)) => Routed::One(SingleNodeRoutingInfo::SpecificNode(route)),
            Some(None) => Routed::One(SingleNodeRoutingInfo::Random),
            None => Routed::Nowhere,
        }
    }
}
