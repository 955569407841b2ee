ghost use Rattle.std.specs.Prelude.{◌≡◌};
ghost use Rattle.memory_nodes.specs.Steps.{action_of, action_by, registered_action};

use redis_routing::{AggregateOp, MultiSlotArgPattern, ResponsePolicy, look_up};

/// What a command does with each of its keys.
#[derive(Clone, Copy)]
pub(super) enum Action {
    /// Reads the value at the empty path.
    Read,
    /// Reads the value at the path that all keys share.
    ReadAtShared,
    /// Counts the key if it is there.
    Count,
    /// Removes the key, and counts it if it was there.
    Remove,
    /// Does nothing.
    Leave,
    /// Writes a value at the empty path, and keeps no other.
    Write,
    /// Writes a value at a path, and keeps the values at other paths.
    WriteAtPath,
}

/// What commands of each name do.
const ACTIONS: [(&[u8], Action); 9] = [
    (b"MGET", Action::Read),
    (b"JSON.MGET", Action::ReadAtShared),
    (b"EXISTS", Action::Count),
    (b"TOUCH", Action::Count),
    (b"DEL", Action::Remove),
    (b"UNLINK", Action::Remove),
    (b"WATCH", Action::Leave),
    (b"MSET", Action::Write),
    (b"JSON.MSET", Action::WriteAtPath),
];

impl Action {
    /// What a command does by its name, given in upper case.
    pub(super) fn of_name(name: &[u8]) -> Action
        ensures { result ≡ action_of name.now }
    {
        look_up(&ACTIONS, name).unwrap_or(Action::Leave)
    }

    /// What a command does, by what its name is registered with, or else by its name.
    pub(super) fn by(
        registered: Option<(MultiSlotArgPattern, ResponsePolicy)>,
        name: &[u8],
    ) -> Action
        ensures { result ≡ action_by registered name.now }
    {
        match registered {
            Some((pattern, policy)) => Action::of_registered(pattern, policy),
            None => Action::of_name(name),
        }
    }

    /// What a command of a registered name does.
    fn of_registered(pattern: MultiSlotArgPattern, policy: ResponsePolicy) -> Action
        ensures { result ≡ registered_action pattern policy }
    {
        match (pattern, policy) {
            (MultiSlotArgPattern::KeysAndLastArg, ResponsePolicy::CombineArrays) => {
                Action::ReadAtShared
            }
            (_, ResponsePolicy::CombineArrays) => Action::Read,
            (_, ResponsePolicy::Aggregate(AggregateOp::Sum)) => Action::Count,
            (MultiSlotArgPattern::KeyValuePairs, ResponsePolicy::AllSucceeded) => Action::Write,
            (MultiSlotArgPattern::KeyWithTwoArgTriples, ResponsePolicy::AllSucceeded) => {
                Action::WriteAtPath
            }
            _ => Action::Leave,
        }
    }
}
