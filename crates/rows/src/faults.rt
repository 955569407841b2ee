//! What faults print that no other row has.
use fixtures::{bad_row, shown};
use redis_bytes::{AnswersFault, BytesFault};
use resp::{Fault, ReadError, RequestError, RequestFault, WriteError};
use resp_core::RedisResult;
use slotroute_serve::{CommandFault, Refusal};
use std::alloc::Global;

/// What a fault of this name prints.
pub fn call(alloc: Global, name: &str) -> RedisResult<String> {
    match name {
        "read" => shown(alloc, &ReadError::Fault(Fault::Malformed)),
        "request" => shown(alloc, &RequestError::Fault(RequestFault::Malformed(7))),
        "write" => shown(alloc, &WriteError::NoForm),
        "bytes" => shown(alloc, &BytesFault::AfterReplies(8)),
        "command" => shown(alloc, &CommandFault::Refused(Refusal::NotCovered(5061))),
        "answers" => shown(alloc, &AnswersFault::NoForm),
        _ => Err(bad_row("no fault of this name")),
    }
}
