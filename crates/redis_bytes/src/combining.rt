ghost use Rattle.std.specs.Prelude.{◌≡◌, ◌≢◌, ◌⊎◌, List, Ok, IfOk, IfErr, IfSome, MatchResult};
ghost use Rattle.resp.specs.Forms.{form};
ghost use Rattle.resp_core.specs.Reply.{Reply};
ghost use Rattle.resp_core.specs.View.{view};
ghost use Rattle.redis_routing.specs.Names.{names_in};
ghost use Rattle.redis_routing.specs.Split.{Split, IsSplit};
ghost use Rattle.redis_cluster.specs.MultiKey.{ReplyForm};
ghost use Rattle.redis_cluster.specs.Unsplit.{TupleResult, reply_by};
ghost use Rattle.redis_cluster.specs.Plan.{ArePartsAnswered};
ghost use Rattle.redis_bytes.specs.Requests.{IsSplitRequest};
ghost use Rattle.redis_bytes.specs.Replies.{AreReplies, AreCombined, IsUnjoined, IsUncombined, IsWritable};

use crate::fault::BytesFault;
use crate::merging::merge_arrays;
use crate::places::places_in;
use crate::replies::replies_in;
use crate::requests::request_in;
use redis_cluster::driver::join_replies;
use redis_routing::{Names, ResponsePolicy, Routable, SplitCommand};
use resp::{WriteError, write};
use resp_core::{ErrorKind, RedisError, Value};
use std::alloc::{AllocError, Global};

/// The one reply to a request, by the replies to its parts. `replies` has them in the order of the
/// parts, in whatever order they came. If the parts of `DEL foo bar baz` returned `:1`, `:0` and
/// `:1`, it is `:2`.
///
/// An error among the replies is never combined: it is reported with its number and its text.
///
/// # Errors
///
/// In this order: the errors of `split` for the request. `Reply` or `Error` for the first reply
/// that cannot be read or is an error. `AfterReplies` if bytes follow the last one. `Unfit` if the
/// replies do not fit the command. `Memory` if memory runs out.
pub fn combine(
    alloc: Global,
    request: &[u8],
    names: Names<'_>,
    replies: &[u8],
) -> Result<Vec<u8>, BytesFault>
    // The bytes are a reply to each part, and the command's policy joins the replies.
    ensures combined { IfOk result (λ combined. (split : Split)
        × IsSplitRequest (names_in names.entry) request.now split
        × AreCombined split replies.now combined.items) }
    // If the nodes gave these replies to the parts, the result is the reply to the unsplit command.
    ensures unsplit { (split : Split) (reply_form : ReplyForm) (results : List TupleResult)
        (parts : List Reply) → IsSplitRequest (names_in names.entry) request.now split
        → ArePartsAnswered split reply_form results parts → AreReplies parts replies.now
        → MatchResult result (λ combined. combined.items ≡ form (reply_by reply_form results))
        (λ fault. fault ≡ BytesFault.Memory) }
    // Each fault has its cause.
    ensures fault { IfErr result
        (λ fault. IsUncombined (names_in names.entry) request.now replies.now fault) }
{
    let command = request_in(alloc, request)?;
    let Some(split) = SplitCommand::new(alloc, &command, names)? else {
        return Err(BytesFault::NotMultiKey);
    };
    join_parts(alloc, &split, replies)
}

/// The one reply to a split command, by the bytes of the replies to its parts.
fn join_parts<R: Routable>(
    alloc: Global,
    split: &SplitCommand<'_, R>,
    replies: &[u8],
) -> Result<Vec<u8>, BytesFault>
    ensures combined { IfOk result (λ combined. AreCombined split.now replies.now combined.items) }
    ensures unsplit { (reply_form : ReplyForm) (results : List TupleResult) (parts : List Reply)
        → ArePartsAnswered split.now reply_form results parts → AreReplies parts replies.now
        → MatchResult result (λ combined. combined.items ≡ form (reply_by reply_form results))
        (λ fault. fault ≡ BytesFault.Memory) }
    ensures fault { IfErr result (λ fault. IsUnjoined split.now replies.now fault) }
{
    match move_items(alloc, split, replies)? {
        Some(one) => Ok(one),
        None => join_values(alloc, split, replies),
    }
}

/// The one reply to a split command, by the values of the replies to its parts.
fn join_values<R: Routable>(
    alloc: Global,
    split: &SplitCommand<'_, R>,
    replies: &[u8],
) -> Result<Vec<u8>, BytesFault>
    ensures combined { IfOk result (λ combined. AreCombined split.now replies.now combined.items) }
    ensures unsplit { (reply_form : ReplyForm) (results : List TupleResult) (parts : List Reply)
        → ArePartsAnswered split.now reply_form results parts → AreReplies parts replies.now
        → MatchResult result (λ combined. combined.items ≡ form (reply_by reply_form results))
        (λ fault. fault ≡ BytesFault.Memory) }
    ensures fault { IfErr result (λ fault. IsUnjoined split.now replies.now fault) }
{
    let values = replies_in(alloc, split.routes().len(), replies)?;
    match join_replies(alloc, split, values) {
        Ok(one) => write_reply(alloc, &one),
        Err(error) => Err(fault_of(&error)),
    }
}

/// The one reply to a split command for a list, if the items of the replies can be moved as bytes.
fn move_items<R: Routable>(
    alloc: Global,
    split: &SplitCommand<'_, R>,
    replies: &[u8],
) -> Result<Option<Vec<u8>>, AllocError>
    ensures combined { IfOk result (λ one. IfSome one
        (λ bytes. AreCombined split.now replies.now bytes.items)) }
    ensures split { IfOk result (λ one. IfSome one (λ bytes. IsSplit split.now)) }
{
    match split.policy() {
        ResponsePolicy::CombineArrays => {
            let places = places_in(alloc, split)?;
            merge_arrays(alloc, split.len(), &places, replies)
        }
        _ => Ok(None),
    }
}

/// The bytes of the one reply.
fn write_reply(alloc: Global, one: &Value) -> Result<Vec<u8>, BytesFault>
    requires form { IsWritable (view one.now) }
    ensures bytes { IfOk result (λ bytes. bytes.items ≡ form (view one.now)) }
    ensures memory { IfErr result (λ fault. fault ≡ BytesFault.Memory) }
{
    match write(alloc, one) {
        Ok(bytes) => Ok(bytes),
        Err(WriteError::Memory) => Err(BytesFault::Memory),
        Err(WriteError::NoForm) => unreachable!(),
    }
}

/// The fault of replies that are not joined.
fn fault_of(error: &RedisError) -> BytesFault
    ensures { ((error.now.kind ≡ ErrorKind.OutOfMemory) × (result ≡ BytesFault.Memory))
        ⊎ ((error.now.kind ≢ ErrorKind.OutOfMemory)
        × (result ≡ BytesFault.Unfit error.now.kind)) }
{
    match error.kind() {
        ErrorKind::OutOfMemory => BytesFault::Memory,
        kind => BytesFault::Unfit(kind),
    }
}
