ghost use Rattle.std.specs.Prelude.{◌≡◌, ◌≢◌, ◌⊎◌, [], List, Some, map, IfOk, IfErr};
ghost use Rattle.resp_core.specs.Answer.{answer_of};
ghost use Rattle.resp_core.specs.Reply.{pairs_of};
ghost use Rattle.resp_core.specs.View.{view, view_pair};
ghost use Rattle.resp.specs.Forms.{form, line};
ghost use Rattle.redis_bytes.specs.Replies.{IsWritable};
ghost use Rattle.redis_commands.specs.Policy.{reply_by_policy};
ghost use Rattle.redis_bytes.specs.Answers.{WireAnswer, answer_of_wire, text_of};
ghost use Rattle.redis_bytes.specs.Several.{AreAnswersBy, HasNoReplyForm, IsReplyForm, IsUnreplied, flat_items, has_no_addresses, without_map};

use crate::answers::{answers_in, push_error};
use crate::answers_fault::AnswersFault;
use redis_routing::ResponsePolicy;
use resp::{WriteError, write};
use resp_core::{ErrorKind, RedisError, RedisResult, Value};
use std::alloc::{AllocError, Global};

/// The one reply to a request that went whole to `count` nodes, by the policy that `route` has for
/// it. `replies` has the reply of each node, in the order of the nodes. If two primaries reply `:3`
/// and `:4` to `DBSIZE`, it is `:7`.
///
/// It is what `redis_commands::combine_answers` makes of them. A map becomes an array of its keys
/// and values. If an error of a node is the one reply, its bytes are returned. Bytes of its text that
/// are not UTF-8 come back as U+FFFD. An array that holds an error counts as this error.
///
/// # Errors
///
/// In this order: `NoForm` if the policy is `Special` or there is none, as for `INFO`. `Reply` for
/// the first reply that cannot be read or is missing. `AfterReplies` if bytes follow the last one.
/// `NoForm` if the replies do not fit the policy, or the one reply has no form. `Memory` if memory
/// runs out.
pub fn combine_answers(
    alloc: Global,
    policy: Option<ResponsePolicy>,
    count: usize,
    replies: &[u8],
) -> Result<Vec<u8>, AnswersFault>
    // The bytes are the answers, and the one reply that the policy makes of these is written.
    ensures combined { IfOk result
        (λ combined. AreAnswersBy policy count replies.now (IsReplyForm combined.items)) }
    // Each fault has its cause.
    ensures fault { IfErr result (λ fault. IsUnreplied policy count replies.now fault) }
{
    if !has_no_addresses(policy) {
        return Err(AnswersFault::NoForm);
    }
    let answers = answers_in(alloc, count, replies)?;
    reply_form(alloc, policy, answers)
}

/// Whether a policy makes a reply that names no address.
fn has_no_addresses(policy: Option<ResponsePolicy>) -> bool
    ensures { result ≡ has_no_addresses policy }
{
    !matches!(policy, None | Some(ResponsePolicy::Special))
}

/// The bytes of the one reply that a policy makes of answers.
fn reply_form(
    alloc: Global,
    policy: Option<ResponsePolicy>,
    answers: Vec<RedisResult<Value>>,
) -> Result<Vec<u8>, AnswersFault>
    ensures bytes { IfOk result (λ bytes. IsReplyForm bytes.items
        (reply_by_policy policy [] (map answer_of answers.items))) }
    ensures fault { IfErr result (λ fault. (said : List WireAnswer)
        → map answer_of answers.items ≡ map answer_of_wire said
        → (fault ≡ AnswersFault.Memory) ⊎ ((fault ≡ AnswersFault.NoForm)
        × HasNoReplyForm (reply_by_policy policy [] (map answer_of answers.items)))) }
{
    let given = all_given(alloc, answers)?;
    match redis_commands::combine_answers(alloc, policy, &[], given) {
        Ok(value) => value_form(alloc, &value),
        Err(error) => error_form(alloc, &error),
    }
}

/// Each answer, as one that was given.
fn all_given(
    alloc: Global,
    answers: Vec<RedisResult<Value>>,
) -> Result<Vec<Option<RedisResult<Value>>>, AllocError>
    ensures { IfOk result (λ given. given.items ≡ map Some answers.items) }
{
    let mut given = Vec::with_capacity(alloc, answers.len())?;
    for answer in answers {
        given.push(Some(answer))?;
    }
    Ok(given)
}

/// The bytes of the error of a node.
fn error_form(alloc: Global, error: &RedisError) -> Result<Vec<u8>, AnswersFault>
    ensures bytes { IfOk result (λ bytes. (error.now.kind ≢ ErrorKind.OutOfMemory)
        × (error.now.kind ≢ ErrorKind.UnexpectedReturnType)
        × (bytes.items ≡ line 45 (text_of error.now))) }
    ensures fault { IfErr result (λ fault. (fault ≡ AnswersFault.Memory)
        ⊎ ((fault ≡ AnswersFault.NoForm) × (error.now.kind ≡ ErrorKind.UnexpectedReturnType))) }
{
    let mut bytes = Vec::new(alloc);
    match error.kind() {
        ErrorKind::OutOfMemory => return Err(AnswersFault::Memory),
        ErrorKind::UnexpectedReturnType => return Err(AnswersFault::NoForm),
        ErrorKind::Client | ErrorKind::InvalidClientConfig => push_error(&mut bytes, error)?,
    }
    Ok(bytes)
}

/// The bytes of a value, or of the array of a map's keys and values.
fn value_form(alloc: Global, value: &Value) -> Result<Vec<u8>, AnswersFault>
    ensures bytes { IfOk result (λ bytes. bytes.items ≡ form (without_map (view value.now))) }
    ensures fault { IfErr result (λ fault. (fault ≡ AnswersFault.Memory)
        ⊎ ((fault ≡ AnswersFault.NoForm) × (IsWritable (without_map (view value.now)) → ⊥))) }
{
    match value {
        Value::Map(entries) => form_of(alloc, &Value::Array(flat_items(alloc, entries)?)),
        other => form_of(alloc, other),
    }
}

/// The bytes of a value.
fn form_of(alloc: Global, value: &Value) -> Result<Vec<u8>, AnswersFault>
    ensures bytes { IfOk result (λ bytes. bytes.items ≡ form (view value.now)) }
    ensures fault { IfErr result (λ fault. (fault ≡ AnswersFault.Memory)
        ⊎ ((fault ≡ AnswersFault.NoForm) × (IsWritable (view value.now) → ⊥))) }
{
    match write(alloc, value) {
        Ok(bytes) => Ok(bytes),
        Err(WriteError::Memory) => Err(AnswersFault::Memory),
        Err(WriteError::NoForm) => Err(AnswersFault::NoForm),
    }
}

/// Keys and values in turn, copied: no other crate than `resp_core` takes a value apart.
fn flat_items(alloc: Global, entries: &[(Value, Value)]) -> Result<Vec<Value>, AllocError>
    ensures { IfOk result (λ items. map view items.items
        ≡ flat_items (pairs_of (map view_pair entries.now))) }
{
    let mut items = Vec::new(alloc);
    for (key, value) in entries {
        items.push(key.clone()?)?;
        items.push(value.clone()?)?;
    }
    Ok(items)
}
