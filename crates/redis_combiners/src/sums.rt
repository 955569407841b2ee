ghost use Rattle.std.specs.Prelude.{◌≡◌, List, map, MatchResult, Some, None, IsPermutation};
ghost use Rattle.resp_core.specs.Reply.{Reply, int};
ghost use Rattle.resp_core.specs.View.{view};
ghost use Rattle.resp_core.specs.declared.error.ErrorKind.TheVariants.{UnexpectedReturnType};
ghost use Rattle.redis_combiners.specs.Aggregate.{sum_of, least_of, aggregate_of};

use cluster_slots::AggregateOp;
use resp_core::{ErrorKind, RedisError, RedisResult, Value};

/// Combines replies that are numbers: their sum, as for `DEL` and `DBSIZE`, or the least of them,
/// as for `WAIT`. Of no replies the sum is 0 and the least is `i64::MAX`. The order of the replies
/// does not matter. Takes no memory.
///
/// ```
/// aggregate(replies, AggregateOp::Sum)
/// ```
///
/// # Errors
///
/// `UnexpectedReturnType` if a reply is not a number, or if the sum does not fit in an i64. A
/// running sum may leave the i64, since it has 128 bits.
#[tactic(auto, using(crate::proofs::Orders::any_order))]
pub fn aggregate(values: Vec<Value>, op: AggregateOp) -> RedisResult<Value>
    ensures answer { MatchResult result
        (λ value. aggregate_of op (map view values.items) ≡ Some (view value))
        (λ fault. (aggregate_of op (map view values.items) ≡ None)
        × (fault.kind ≡ UnexpectedReturnType)) }
    ensures any_order { (others : List Reply) → IsPermutation (map view values.items) others
        → aggregate_of op others ≡ aggregate_of op (map view values.items) }
{
    let number = match op {
        AggregateOp::Sum => sum(&values),
        AggregateOp::Min => least(&values),
    };
    match number {
        Some(number) => Ok(as_reply(number)),
        None => Err(RedisError::from((
            ErrorKind::UnexpectedReturnType,
            "a reply is not a number, or the sum does not fit in an i64",
        ))),
    }
}

/// The sum, if each reply is a number and the sum fits in an i64.
fn sum(values: &[Value]) -> Option<i64>
    ensures { result ≡ sum_of (map view values.now) }
{
    let mut total: i128 = 0;
    for value in values {
        let n = value.as_int()?;
        total += i128::from(n);
    }
    i64::try_from(total).ok()
}

/// The least number, if each reply is a number.
fn least(values: &[Value]) -> Option<i64>
    ensures { result ≡ least_of (map view values.now) }
{
    let mut least = i64::MAX;
    for value in values {
        least = least.min(value.as_int()?);
    }
    Some(least)
}

fn as_reply(number: i64) -> Value
    ensures { view result ≡ int number }
{
    Value::Int(number)
}
