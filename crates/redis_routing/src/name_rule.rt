ghost use Rattle.std.specs.Prelude.{◌≡◌, Option, [], Some, IfOk, option_copied, unwrap_or};
ghost use Rattle.redis_routing.specs.Command.{Arguments, command_name};
ghost use Rattle.redis_routing.specs.Inner.NameRule.{IsRuleFor, names_by, only_reads_in};
ghost use Rattle.redis_routing.specs.MultiKeyNames.{TellsSplit, split_of};
ghost use Rattle.redis_routing.specs.Names.{names_of};
ghost use Rattle.redis_routing.specs.Registry.{tables_with};
ghost use Rattle.redis_routing.specs.Routing.{routing_by};
ghost use Rattle.redis_routing.specs.declared.policy.ResponsePolicy.{ResponsePolicy};

use crate::policy::ResponsePolicy;
use crate::read_only::ReadOnlyNames;
use crate::registry::Registry;
use crate::routable::Routable;
use crate::route_by::{RouteBy, routing_and_policy};
use crate::words::{ROOM, short_name};
use cluster_slots::MultiSlotArgPattern;
use std::alloc::{AllocError, Global};

/// What the name of a command says of where it goes, and whether the command only reads.
#[derive(Clone, Copy)]
pub(super) enum NameRule {
    /// It is split by slot, under the pattern. The policy says how the replies to its parts make
    /// one.
    Split(MultiSlotArgPattern, ResponsePolicy, bool),
    /// It is not split. Whether it only reads is told where that matters.
    Whole(Option<RouteBy>, Option<ResponsePolicy>, bool),
}

/// Which commands only read.
#[derive(Clone, Copy)]
pub(super) enum ReadCommands<'a> {
    /// Those of these names.
    Named(&'a ReadOnlyNames),
    /// Each.
    All,
}

impl ReadCommands<'_> {
    /// Whether commands of a name only read.
    #[inline(always)]
    pub(super) fn has(self, name: &[u8]) -> bool
        ensures { result ≡ only_reads_in self.entry name.now }
    {
        match self {
            ReadCommands::Named(names) => names.contains(name),
            ReadCommands::All => true,
        }
    }
}

/// The rule of a command's name, by the tables, and by a registry if there is one. A name takes
/// memory only where it is longer than each name of the tables. It is inlined, so that the rule is
/// made in place.
#[inline(always)]
pub(super) fn rule_for<R: Routable>(
    alloc: Global,
    command: &R,
    read_only: &ReadOnlyNames,
    registry: Option<&Registry>,
) -> Result<NameRule, AllocError>
    ensures { IfOk result
        (IsRuleFor (names_of read_only.now (unwrap_or (option_copied registry.entry) []))
        (R.args command.now)) }
{
    let (mut room, mut long) = ([0; ROOM], None);
    let Some(name) = name_in(alloc, command, &mut room, &mut long)? else {
        return Ok(NameRule::Whole(Some(RouteBy::Undefined), None, false));
    };
    let (route_by, policy) = find_routing(name, registry);
    let reads = ReadCommands::Named(read_only);
    Ok(rule_by(command, name, reads, registry, route_by, policy))
}

/// The name of a command, in the room if it is short, and else in memory.
#[inline(always)]
pub(super) fn name_in<'n, R: Routable>(
    alloc: Global,
    command: &R,
    room: &'n mut [u8],
    long: &'n mut Option<Vec<u8>>,
) -> Result<Option<&'n [u8]>, AllocError>
    ensures { IfOk result (λ name. option_copied name ≡ command_name (R.args command.now)) }
{
    if let Some(len) = short_name(command, room) {
        return Ok(Some(&room[..len]));
    }
    *long = command.command(alloc)?;
    Ok(long.as_deref())
}

/// The rule of a command's name, by how the name is routed and by its policy.
#[inline(always)]
pub(super) fn rule_by<R: Routable>(
    command: &R,
    name: &[u8],
    reads: ReadCommands<'_>,
    registry: Option<&Registry>,
    route_by: Option<RouteBy>,
    policy: Option<ResponsePolicy>,
) -> NameRule
    requires name { Some name.now ≡ command_name (R.args command.now) }
    requires routing { route_by
        ≡ (tables_with (unwrap_or (option_copied registry) [])).route_by name.now }
    requires policy { policy
        ≡ (tables_with (unwrap_or (option_copied registry) [])).policy name.now }
    requires split { TellsSplit (split_of (unwrap_or (option_copied registry) []) name.now)
        route_by policy }
    ensures { IsRuleFor (names_by reads.entry (unwrap_or (option_copied registry.entry) []))
        (R.args command.now) result }
{
    match route_by {
        Some(RouteBy::MultiSlot(pattern)) => {
            let Some(policy) = policy else { unreachable!() };
            NameRule::Split(pattern, policy, reads.has(name))
        }
        _ => NameRule::Whole(route_by, policy, only_reads(name, reads, route_by)),
    }
}

/// Whether commands of a name only read, where that matters. The name is looked up only if a key
/// tells the node.
#[inline(always)]
fn only_reads(name: &[u8], reads: ReadCommands<'_>, route_by: Option<RouteBy>) -> bool
    ensures { (policy : Option ResponsePolicy) (args : Arguments)
        → routing_by policy result args route_by
        ≡ routing_by policy (only_reads_in reads.entry name.now) args route_by }
{
    match route_by {
        Some(RouteBy::AllNodes) | Some(RouteBy::AllMasters) => false,
        Some(RouteBy::Undefined) | Some(RouteBy::Random) | Some(RouteBy::SlotAt(_)) => false,
        _ => reads.has(name),
    }
}

/// How the name is routed, and its policy, by the tables, and by a registry if there is one.
#[inline(always)]
pub(super) fn find_routing(
    name: &[u8],
    registry: Option<&Registry>,
) -> (Option<RouteBy>, Option<ResponsePolicy>)
    ensures routing { result.0
        ≡ (tables_with (unwrap_or (option_copied registry.entry) [])).route_by name.now }
    ensures policy { result.1
        ≡ (tables_with (unwrap_or (option_copied registry.entry) [])).policy name.now }
    ensures split { TellsSplit (split_of (unwrap_or (option_copied registry.entry) []) name.now)
        result.0 result.1 }
{
    match registry {
        Some(registry) => registry.routing_and_policy(name),
        None => routing_and_policy(name),
    }
}
