ghost use Rattle.std.specs.Prelude.{◌≡◌, ◌<◌, Some, true, length, map, option_map, IfOk, IfSome};
ghost use Rattle.redis_routing.specs.Command.{command_name};
ghost use Rattle.redis_routing.specs.Complete.{multi_slot_routes, pattern_by_name, AreSubCommands};
ghost use Rattle.redis_routing.specs.Names.{names_in};
ghost use Rattle.redis_routing.specs.NameWords.{name_words_of};
ghost use Rattle.redis_routing.specs.Policies.{joins_parts};
ghost use Rattle.redis_routing.specs.Split.{Split, IsSplit, route_part, policy_by_name};
ghost use Rattle.redis_routing.specs.RoutingInfo.{route_lists};

use super::name_rule::{NameRule, rule_for};
use super::routed::Routed;
use super::sub_commands::sub_command;
use crate::names::Names;
use crate::policy::ResponsePolicy;
use crate::routable::Routable;
use cluster_slots::{MultiSlotArgPattern, Route};
use resp_core::Cmd;
use std::alloc::{AllocError, Global};
use std::marker::Model;

/// A complete multi-key command, split by slot: its routes, how its arguments make tuples, and
/// how the replies to its parts make one.
///
/// `DEL foo bar baz {bar}vaz` has three routes, to the slots of `foo`, of `bar` and `{bar}vaz`, and
/// of `baz`. The part of route 1 is `DEL bar {bar}vaz`, and the replies are added up.
#[derive(Drop)]
pub struct SplitCommand<'a, R: Routable> {
    pub(super) command: &'a R,
    pub(super) words: usize,
    pub(super) routes: Vec<(Route, Vec<usize>)>,
    pub(super) pattern: MultiSlotArgPattern,
    pub(super) policy: ResponsePolicy,
}

impl<'a, R: Routable> Model for SplitCommand<'a, R> {
    ghost use Rattle.std.specs.Prelude.{◌≡◌};
    ghost use Rattle.redis_routing.specs.NameWords.{name_words_of};
    ghost use Rattle.redis_routing.specs.Split.{Split, IsSplit};
    ghost use Rattle.redis_routing.specs.RoutingInfo.{route_lists};

    ghost Value = { Split };

    ghost view = { λ s. record {
      arguments = R.args s.command.now;
      routes = route_lists s.routes.items;
      pattern = s.pattern;
      policy = s.policy;
    } };

    ghost invariant = { λ s. IsSplit (record {
      arguments = R.args s.command.now;
      routes = route_lists s.routes.items;
      pattern = s.pattern;
      policy = s.policy;
    })
        × (s.words ≡ name_words_of (R.args s.command.now)) };
}

impl<'a, R: Routable> SplitCommand<'a, R> {
    /// Splits a command. There is nothing to split where its name is not one of those that split by
    /// slot, by the tables or as it is registered. Nor is there where the arguments after it, up to
    /// the first gap, make no whole tuples, or the last argument that all keys share is missing.
    ///
    /// # Errors
    ///
    /// If memory runs out.
    pub fn new(alloc: Global, command: &'a R, names: Names<'_>) -> Result<Option<Self>, AllocError>
        ensures routes { IfOk result (λ split. option_map (λ s. s.routes) split
            ≡ multi_slot_routes (names_in names.entry) (R.args command.now)) }
        ensures arguments { IfOk result (λ split. IfSome split (λ s. s.arguments
            ≡ R.args command.now)) }
        ensures pattern { IfOk result (λ split. IfSome split (λ s. Some s.pattern
            ≡ pattern_by_name names.entry.registry.now (command_name (R.args command.now)))) }
        ensures policy { IfOk result (λ split. IfSome split (λ s. Some s.policy
            ≡ policy_by_name names.entry.registry.now (command_name (R.args command.now)))) }
    {
        let rule = rule_for(alloc, command, names.read_only, Some(names.registry))?;
        let NameRule::Split(pattern, policy, reads) = rule else {
            return Ok(None);
        };
        match Routed::by_slots(alloc, command, pattern, policy, reads)? {
            Routed::Slots(split) => Ok(Some(split)),
            _ => Ok(None),
        }
    }

    /// The routes: one for each slot of a key, by the first key of each slot, with the indices of
    /// its part as `command_for_multi_slot_indices_with` takes them after the words of the name.
    pub fn routes(&self) -> &[(Route, Vec<usize>)]
        ensures routes { route_lists result.now ≡ self.now.routes }
        ensures split { IsSplit self.now }
    {
        self.routes.as_slice()
    }

    /// How many routes there are, which is at least one.
    pub fn len(&self) -> usize
        ensures len { result ≡ length self.now.routes }
        ensures some { 0 < result }
    {
        self.routes.len()
    }

    /// How the arguments of the command make tuples of a key and what goes with it.
    pub fn pattern(&self) -> MultiSlotArgPattern
        ensures { result ≡ self.now.pattern }
    {
        self.pattern
    }

    /// How the replies to the parts make one.
    pub fn policy(&self) -> ResponsePolicy
        ensures policy { result ≡ self.now.policy }
        ensures joins { joins_parts result ≡ true }
    {
        self.policy
    }

    /// The part of a route, by its number, as a command of its own. It has the name as it is spelt,
    /// the keys of the route's slot with what goes with them, in their order, and the argument that
    /// all keys share. Of `JSON.MGET foo bar $.a` part 1 is `JSON.MGET bar $.a`.
    ///
    /// # Errors
    ///
    /// If memory runs out.
    pub fn part(&self, alloc: Global, number: usize) -> Result<Cmd, AllocError>
        requires { number < length self.now.routes }
        ensures { IfOk result (λ part. Some (map Some part) ≡ route_part self.now number) }
    {
        let Some(part) = sub_command(alloc, self.command, self.words, &self.routes[number].1)?
        else {
            unreachable!()
        };
        Ok(part)
    }

    /// How many arguments the name of the command takes, as `name_words` counts them.
    pub fn words(&self) -> usize
        ensures { result ≡ name_words_of self.now.arguments }
    {
        self.words
    }
}

/// The routes of a multi-key command: one for each slot of a key, by the first key of each slot.
/// Each has the indices of its part as `command_for_multi_slot_indices_with` takes them after the
/// words of the name.
///
/// There are none where the name is not one of those that split by slot, by the tables or as it is
/// registered. Nor are there where the arguments after it, up to the first gap, make no whole
/// tuples, or the last argument that all keys share is missing.
///
/// # Errors
///
/// If memory runs out.
pub fn multi_slot_routes<R: Routable>(
    alloc: Global,
    command: &R,
    names: Names<'_>,
) -> Result<Option<Vec<(Route, Vec<usize>)>>, AllocError>
    ensures routes { IfOk result (λ routes. option_map (λ r. route_lists r.items) routes
        ≡ multi_slot_routes (names_in names.entry) (R.args command.now)) }
    ensures picked { IfOk result (λ routes. IfSome routes (λ routes. AreSubCommands
        names.entry.registry.now (R.args command.now) (route_lists routes.items))) }
{
    match SplitCommand::new(alloc, command, names)? {
        Some(split) => Ok(Some(split.routes)),
        None => Ok(None),
    }
}
