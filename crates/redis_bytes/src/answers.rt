ghost use Rattle.std.specs.Prelude.{◌≡◌, ◌++◌, ℕ, List, [], map, length, IfOk, IfErr, OnOk};
ghost use Rattle.resp_core.specs.Answer.{answer_of};
ghost use Rattle.resp.specs.Forms.{answer, line};
ghost use Rattle.redis_bytes.specs.Answers.{AreUnreadAnswers, IsNoAnswer, StandAsAnswers, WireAnswer, answer_of_wire, text_of};
ghost use Rattle.redis_bytes.specs.Replies.{IsAnswer};

use crate::answers_fault::AnswersFault;
use resp::{ReadError, Response, read};
use resp_core::{ErrorKind, RedisError, RedisResult, Value};
use std::alloc::{AllocError, Global};

/// How many bytes the shortest answer has: `+\r\n`.
const SHORTEST: usize = 3;

/// The `count` answers that the bytes are. Room is made for no more answers than the bytes can
/// hold.
pub(super) fn answers_in(
    alloc: Global,
    count: usize,
    bytes: &[u8],
) -> Result<Vec<RedisResult<Value>>, AnswersFault>
    ensures count { IfOk result (λ answers. length answers.items ≡ count) }
    ensures found { IfOk result
        (λ answers. StandAsAnswers bytes.now [] (map answer_of answers.items)) }
    ensures fault { IfErr result (λ fault. AreUnreadAnswers count bytes.now fault) }
{
    let mut answers = Vec::with_capacity(alloc, count.min(bytes.len() / SHORTEST))?;
    let mut rest = bytes;
    for number in 0..count {
        let (answer, after) = answer_at(alloc, number, rest)?;
        answers.push(answer)?;
        rest = after;
    }
    if !rest.is_empty() {
        return Err(AnswersFault::AfterReplies(bytes.len() - rest.len()));
    }
    Ok(answers)
}

/// The answer of this number, at the front of the bytes, and what follows it.
fn answer_at(
    alloc: Global,
    number: usize,
    bytes: &[u8],
) -> Result<(RedisResult<Value>, &[u8]), AnswersFault>
    ensures found { IfOk result (λ x. (said : WireAnswer) × (form : List ℕ)
        × (bytes.now ≡ form ++ x.1.now) × IsAnswer said form × (answer_of x.0 ≡ answer_of_wire said)) }
    ensures fault { IfErr result (λ fault. IsNoAnswer number bytes.now fault) }
{
    let (response, rest) = match read(alloc, bytes) {
        Ok(found) => found,
        Err(ReadError::Memory) => return Err(AnswersFault::Memory),
        Err(ReadError::Fault(fault)) => return Err(AnswersFault::Reply(number, fault)),
    };
    let answer = as_answer(alloc, response)?;
    Ok((answer, rest))
}

/// The kind of a node's error. Replies that make no one reply give an error of another kind, so the
/// two are never mixed up.
const OF_NODE: ErrorKind = ErrorKind::InvalidClientConfig;

/// What a combiner takes of a reply. The text of an error becomes its detail, and its fixed text is
/// empty.
fn as_answer(alloc: Global, response: Response) -> Result<RedisResult<Value>, AllocError>
    ensures { IfOk result (λ found. answer_of found ≡ answer_of_wire (answer response)) }
{
    match response {
        Response::Value(value) => Ok(Ok(value)),
        Response::Error(text) => {
            let text = String::from_utf8_lossy(alloc, &text)?;
            Ok(Err(RedisError::from((OF_NODE, "", text))))
        }
    }
}

/// Adds the line of a node's error.
pub(super) fn push_error(bytes: &mut Vec<u8>, error: &RedisError) -> Result<(), AllocError>
    ensures { OnOk result (bytes.new.items ≡ bytes.old.items ++ line 45 (text_of error.now)) }
{
    bytes.push(b'-')?;
    if let Some(text) = error.detail() {
        bytes.extend_from_slice(text.as_bytes())?;
    }
    bytes.extend_from_slice(b"\r\n")
}
