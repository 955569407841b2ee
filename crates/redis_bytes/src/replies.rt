ghost use Rattle.std.specs.Prelude.{◌≡◌, ◌++◌, ℕ, List, map, length, IfOk, IfErr, MatchResult};
ghost use Rattle.resp_core.specs.Reply.{Reply};
ghost use Rattle.resp_core.specs.View.{view};
ghost use Rattle.std.specs.List.{AllByRecursion};
ghost use Rattle.redis_bytes.specs.Replies.{IsReply, AreReplies, IsNoValue, IsWritable, AreUnread};

use crate::fault::BytesFault;
use resp::{ReadError, Response, read};
use resp_core::Value;
use std::alloc::Global;

/// The reply of this number at the front of the bytes, if it is a value, and what follows it.
fn value_at(alloc: Global, number: usize, bytes: &[u8]) -> Result<(Value, &[u8]), BytesFault>
    ensures found { IfOk result (λ x. (form : List ℕ)
        × (bytes.now ≡ form ++ x.1.now) × IsReply (view x.0) form) }
    ensures only { (reply : Reply) (form rest : List ℕ) → IsReply reply form
        → bytes.now ≡ form ++ rest
        → MatchResult result (λ x. (view x.0 ≡ reply) × (x.1.now ≡ rest))
        (λ fault. fault ≡ BytesFault.Memory) }
    ensures fault { IfErr result (λ fault. IsNoValue number bytes.now fault) }
{
    let (response, rest) = match read(alloc, bytes) {
        Ok(found) => found,
        Err(ReadError::Memory) => return Err(BytesFault::Memory),
        Err(ReadError::Fault(fault)) => return Err(BytesFault::Reply(number, fault)),
    };
    match response {
        Response::Value(value) => Ok((value, rest)),
        Response::Error(text) => Err(BytesFault::Error(number, text)),
    }
}

/// The `count` replies that the bytes are, with no error among them.
pub(super) fn replies_in(
    alloc: Global,
    count: usize,
    bytes: &[u8],
) -> Result<Vec<Value>, BytesFault>
    ensures count { IfOk result (λ values. length values.items ≡ count) }
    ensures found { IfOk result (λ values. AreReplies (map view values.items) bytes.now) }
    // What was read can be written.
    ensures form { IfOk result (λ values. AllByRecursion IsWritable (map view values.items)) }
    ensures only { (replies : List Reply) → length replies ≡ count → AreReplies replies bytes.now
        → MatchResult result (λ values. map view values.items ≡ replies)
        (λ fault. fault ≡ BytesFault.Memory) }
    ensures fault { IfErr result (λ fault. AreUnread count bytes.now fault) }
{
    let mut values = Vec::with_capacity(alloc, count)?;
    let mut rest = bytes;
    for number in 0..count {
        let (value, after) = value_at(alloc, number, rest)?;
        values.push(value)?;
        rest = after;
    }
    if !rest.is_empty() {
        return Err(BytesFault::AfterReplies(bytes.len() - rest.len()));
    }
    Ok(values)
}

/// The one reply that some bytes are.
pub(super) fn reply_in(alloc: Global, bytes: &[u8]) -> Result<Value, BytesFault>
    ensures found { IfOk result (λ value. IsReply (view value) bytes.now) }
    ensures only { (reply : Reply) → IsReply reply bytes.now
        → MatchResult result (λ value. view value ≡ reply) (λ fault. fault ≡ BytesFault.Memory) }
    ensures fault { IfErr result (λ fault. AreUnread 1 bytes.now fault) }
{
    let (value, rest) = value_at(alloc, 0, bytes)?;
    if !rest.is_empty() {
        return Err(BytesFault::AfterReplies(bytes.len() - rest.len()));
    }
    Ok(value)
}
