ghost use Rattle.std.specs.Prelude.{◌≡◌, ◌++◌, List, Ok, None, IfOk, IfErr, IfSome, MatchResult, option_copied};
ghost use Rattle.resp.specs.Forms.{form};
ghost use Rattle.resp_core.specs.Reply.{Reply};
ghost use Rattle.redis_routing.specs.Names.{names_in};
ghost use Rattle.redis_routing.specs.Split.{Split};
ghost use Rattle.redis_cluster.specs.MultiKey.{ReplyForm};
ghost use Rattle.redis_cluster.specs.Unsplit.{TupleResult, reply_by};
ghost use Rattle.redis_cluster.specs.Plan.{ArePartsAnswered};
ghost use Rattle.redis_bytes.specs.Requests.{IsSplitRequest};
ghost use Rattle.redis_bytes.specs.Replies.{AreCombined, AreReplies, IsUncombined};
ghost use Rattle.redis_session.specs.SplitReplies.{first_error, is_error, joined};

use redis_bytes::{BytesFault, combine};
use redis_routing::Names;
use std::alloc::{AllocError, Global};

/// The reply to a command that is split, by the answers to its parts in their order. Each is one reply.
/// If some are errors, the first of these is the reply, as it came. Else it is what `redis_bytes::combine`
/// makes of them.
///
/// # Errors
///
/// Those of `redis_bytes::combine`. `Memory` if memory runs out.
pub fn split_reply(
    alloc: Global,
    request: &[u8],
    names: Names<'_>,
    answers: &[Vec<u8>],
) -> Result<Vec<u8>, BytesFault>
    // The first error is the reply.
    ensures error { IfSome (first_error answers.now) (λ error. MatchResult result
        (λ reply. reply.items ≡ error) (λ fault. fault ≡ BytesFault.Memory)) }
    // Without an error, the policy of the command joins the answers.
    ensures combined { first_error answers.now ≡ None → IfOk result (λ reply. (split : Split)
        × IsSplitRequest (names_in names.entry) request.now split
        × AreCombined split (joined answers.now) reply.items) }
    // If the nodes gave these answers to the parts, it is the reply to the unsplit command.
    ensures unsplit { first_error answers.now ≡ None → (split : Split) (reply_form : ReplyForm)
        (results : List TupleResult) (parts : List Reply)
        → IsSplitRequest (names_in names.entry) request.now split
        → ArePartsAnswered split reply_form results parts → AreReplies parts (joined answers.now)
        → MatchResult result (λ reply. reply.items ≡ form (reply_by reply_form results))
        (λ fault. fault ≡ BytesFault.Memory) }
    // Each fault has its cause.
    ensures fault { IfErr result
        (λ fault. IsUncombined (names_in names.entry) request.now (joined answers.now) fault) }
{
    if let Some(error) = first_error(answers) {
        return Ok(error.to_vec(alloc)?);
    }
    let replies = joined(alloc, answers)?;
    combine(alloc, request, names, &replies)
}

/// The first answer that is an error.
fn first_error(answers: &[Vec<u8>]) -> Option<&[u8]>
    ensures { option_copied result ≡ first_error answers.now }
{
    for answer in answers {
        if is_error(answer) {
            return Some(answer.as_slice());
        }
    }
    None
}

/// Whether a reply is an error.
pub(crate) fn is_error(reply: &[u8]) -> bool
    ensures { result ≡ is_error reply.now }
{
    match reply {
        [first, ..] => *first == b'-',
        [] => false,
    }
}

/// All answers, end to end.
fn joined(alloc: Global, answers: &[Vec<u8>]) -> Result<Vec<u8>, AllocError>
    ensures { IfOk result (λ bytes. bytes.items ≡ joined answers.now) }
{
    let mut bytes = Vec::new(alloc);
    for answer in answers {
        bytes.extend_from_slice(answer)?;
    }
    Ok(bytes)
}
