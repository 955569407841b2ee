ghost use Rattle.std.specs.Prelude.{◌≡◌};
ghost use Rattle.redis_routing.specs.Policies.{policy_of};

use super::route_by::routing_and_policy;
use cluster_slots::{AggregateOp, LogicalAggregateOp};

/// How the replies of several nodes make one reply.
#[derive(Clone, Copy, Debug, PartialEq, Eq)]
pub enum ResponsePolicy {
    /// The first reply of a node that succeeded; the others may fail: `SCRIPT KILL`.
    OneSucceeded,
    /// The first reply that is not empty, or an empty one where all are: `RANDOMKEY`.
    FirstSucceededNonEmptyOrAllEmpty,
    /// One of the replies, if every node succeeded: `MSET key1 value1 key2 value2`.
    AllSucceeded,
    /// Lists of 0 and 1, joined place by place: `SCRIPT EXISTS sha1`.
    AggregateLogical(LogicalAggregateOp),
    /// Numbers, made into one: `DEL key1 key2`.
    Aggregate(AggregateOp),
    /// Arrays, joined into one: `KEYS *`, or `MGET key1 key2` by the indices of its keys.
    CombineArrays,
    /// Left to the caller: `INFO`.
    Special,
    /// Maps of numbers, summed key by key: `PUBSUB NUMSUB channel`.
    CombineMaps,
}

impl ResponsePolicy {
    /// The policy of a command's name, given in upper case as `Routable::command` gives it. `None`
    /// is for names whose replies this layer has no rule for, as those of one node: `GET`.
    pub fn for_command(name: &[u8]) -> Option<Self>
        ensures { result ≡ policy_of name.now }
    {
        routing_and_policy(name).1
    }
}
