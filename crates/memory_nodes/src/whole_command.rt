ghost use Rattle.std.specs.Prelude.{◌≡◌, ◌<◌, Some, IsSome, map};
ghost use Rattle.redis_routing.specs.Command.{command_name};
ghost use Rattle.redis_cluster.specs.MultiKey.{multi_key};
ghost use Rattle.redis_routing.specs.MultiKeyNames.{registered_as, split_of};
ghost use Rattle.memory_nodes.specs.Parts.{command_by, words};

use redis_routing::{MultiSlotArgPattern, Registry, ResponsePolicy, name_words};
use resp_core::Cmd;

/// A multi-key command, taken apart.
#[derive(Drop)]
pub(super) struct WholeCommand<'a> {
    /// The name in upper case.
    pub(super) name: &'a [u8],
    /// What the name is registered with. `None` for the nine names of the tables.
    pub(super) registered: Option<(MultiSlotArgPattern, ResponsePolicy)>,
    /// How the arguments make tuples of a key and what goes with it.
    pub(super) pattern: MultiSlotArgPattern,
    /// How the results of the tuples make the reply.
    pub(super) policy: ResponsePolicy,
    /// The arguments of the tuples, one after the other.
    pub(super) tuples: &'a [Vec<u8>],
    /// The argument that all keys share, if there is one.
    pub(super) shared: &'a [Vec<u8>],
}

impl<'a> WholeCommand<'a> {
    /// Takes apart a command with this name and these arguments. Takes no memory.
    pub(super) fn new(registry: &Registry, cmd: &Cmd, name: &'a [u8], args: &'a [Vec<u8>]) -> Self
        requires name { command_name (map Some cmd.now) ≡ Some name.now }
        requires args { words args.now ≡ cmd.now }
        requires whole { IsSome (multi_key registry.now (map Some cmd.now)) }
        ensures command { multi_key registry.now (map Some cmd.now) ≡ command_by result }
    {
        let registered = registered_as(registry, name);
        let (pattern, policy) = shape_of(registry, name);
        let (_, run) = args.split_at(name_words(cmd));
        let (tuples, shared) = run.split_at(pattern.own_len(run.len()));
        WholeCommand {
            name,
            registered,
            pattern,
            policy,
            tuples,
            shared,
        }
    }
}

/// How commands of this name make tuples, and how the results of these make the reply.
fn shape_of(registry: &Registry, name: &[u8]) -> (MultiSlotArgPattern, ResponsePolicy)
    requires { IsSome (split_of registry.now name.now) }
    ensures { Some result ≡ split_of registry.now name.now }
{
    let Some(split) = registry.pattern_and_policy(name) else {
        unreachable!()
    };
    split
}

/// What a name is registered with. `None` for the nine names of the tables.
fn registered_as(registry: &Registry, name: &[u8]) -> Option<(MultiSlotArgPattern, ResponsePolicy)>
    ensures { result ≡ registered_as registry.now name.now }
{
    registry.get(name)
}
