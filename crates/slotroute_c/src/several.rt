ghost use Rattle.std.specs.Prelude.{◌≡◌, ◌≢◌, ◌<◌, ℕ, List, Option, length};
ghost use Rattle.redis_routing.specs.declared.policy.ResponsePolicy as declared;
ghost use Rattle.redis_bytes.specs.declared.answers_fault.AnswersFault as faults;
ghost use Rattle.redis_bytes.specs.Several.{AreAnswersBy, IsReplyForm, IsUnreplied};
ghost use Rattle.slotroute_c.specs.Outcomes.{code};
ghost use Rattle.slotroute_c.specs.Buffers.{IsWritten};
ghost use Rattle.slotroute_c.specs.Faults.{outcome_of_answers, with_answers_fault};
ghost use Rattle.slotroute_c.specs.Fields.{with_bytes};
ghost use Rattle.slotroute_c.specs.RouteNumbers.{IsPolicyOf};

use crate::buffers::put_all;
use crate::faults::code_of_answers;
use crate::outcomes::Outcome;
use crate::told::Told;
use redis_bytes::combine_answers;
use redis_routing::{AggregateOp, LogicalAggregateOp, ResponsePolicy};
use std::alloc::Global;

/// Writes the one reply to a request that went whole to `count` nodes, by the policy of
/// `slotroute_route`. `replies` has the reply of each node, in the order of the nodes. `told` has
/// the number of bytes.
///
/// # Errors
///
/// In this order: `NoForm` if the number is of no policy, or of the special one. `ReplyIncomplete`,
/// `ReplyMalformed` or `ReplyTooDeep` for the first reply that cannot be read, with its number in
/// `told`. `AfterReplies` if bytes follow the last one. `NoForm` if the replies do not fit the
/// policy, or the one reply has no form. `TooSmall` if it does not fit. `NoMemory` if memory runs
/// out.
#[unsafe(no_mangle)]
pub extern "C" fn slotroute_combine_answers(
    alloc: Global,
    policy: u32,
    count: usize,
    replies: &[u8],
    out: &mut [u8],
    told: &mut Told,
) -> u32
    ensures done { result ≡ code Outcome.Done → (of : Option declared.ResponsePolicy)
        × IsPolicyOf policy of × (combined : List ℕ)
        × AreAnswersBy of count replies.now (IsReplyForm combined)
        × IsWritten combined out.old out.new
        × (told.new ≡ with_bytes (length combined) told.old) }
    ensures too_small { result ≡ code Outcome.TooSmall → (of : Option declared.ResponsePolicy)
        × IsPolicyOf policy of × (combined : List ℕ)
        × AreAnswersBy of count replies.now (IsReplyForm combined)
        × (length out.old < length combined)
        × (told.new ≡ with_bytes (length combined) told.old) }
    ensures fault { result ≢ code Outcome.Done → result ≢ code Outcome.TooSmall
        → (of : Option declared.ResponsePolicy) × IsPolicyOf policy of × (fault : faults.AnswersFault)
        × (result ≡ code (outcome_of_answers fault)) × IsUnreplied of count replies.now fault
        × (told.new ≡ with_answers_fault fault told.old) }
    ensures unwritten { result ≢ code Outcome.Done → out.new ≡ out.old }
{
    let one = match combine_answers(alloc, policy_of(policy), count, replies) {
        Ok(one) => one,
        Err(fault) => return code_of_answers(&fault, told),
    };
    told.bytes = one.len();
    if out.len() < one.len() {
        return Outcome::TooSmall.code();
    }
    put_all(out, &one);
    Outcome::Done.code()
}

/// The policy of this number, or none.
fn policy_of(number: u32) -> Option<ResponsePolicy>
    ensures { IsPolicyOf number result }
{
    match number {
        1 => Some(ResponsePolicy::OneSucceeded),
        2 => Some(ResponsePolicy::FirstSucceededNonEmptyOrAllEmpty),
        3 => Some(ResponsePolicy::AllSucceeded),
        4 => Some(ResponsePolicy::AggregateLogical(LogicalAggregateOp::And)),
        5 => Some(ResponsePolicy::AggregateLogical(LogicalAggregateOp::Or)),
        6 => Some(ResponsePolicy::Aggregate(AggregateOp::Min)),
        7 => Some(ResponsePolicy::Aggregate(AggregateOp::Sum)),
        8 => Some(ResponsePolicy::CombineArrays),
        9 => Some(ResponsePolicy::Special),
        10 => Some(ResponsePolicy::CombineMaps),
        _ => None,
    }
}
