//! One reply of several.
ghost use Rattle.std.specs.Prelude.{◌≡◌, Some, None, map, MatchResult};
ghost use Rattle.resp_core.specs.View.{view};
ghost use Rattle.resp_core.specs.declared.error.ErrorKind.TheVariants.{UnexpectedReturnType};
ghost use Rattle.cluster_slots.specs.declared.aggregate_op.AggregateOp.TheVariants.{Sum};
ghost use Rattle.redis_cluster.specs.Aggregate.{aggregate_of};

use redis_cluster::routing::{AggregateOp, aggregate};
use resp_core::{RedisResult, Value};

/// How many keys a `DEL` deleted, by the replies to its parts.
pub fn deleted(replies: Vec<Value>) -> RedisResult<Value>
    ensures { MatchResult result
        (λ count. aggregate_of Sum (map view replies.items) ≡ Some (view count))
        (λ error. (aggregate_of Sum (map view replies.items) ≡ None)
        × (error.kind ≡ UnexpectedReturnType)) }
{
    aggregate(replies, AggregateOp::Sum)
}
