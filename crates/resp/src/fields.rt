ghost use Rattle.std.specs.Prelude.{◌≡◌, Ok, Some, IfOk};
ghost use Rattle.resp.specs.Forms.{answer, simple_of};
ghost use Rattle.resp.specs.Reading.{Gives, IsRead, text_until_line_end, after_text, after_line_end, is_before_digits, is_before_length, int_at, length_at, bytes_at, flat_at};
ghost use Rattle.resp_core.specs.Reply.{bulk};
ghost use Rattle.resp_core.specs.View.{view};

use crate::fault::{Fault, ReadError};
use crate::numbers::{int_of, length_of};
use crate::response::Response;
use resp_core::Value;
use std::alloc::{AllocError, Global};

/// The text of the line that begins here, and what follows the text.
pub(super) fn line_of(bytes: &[u8]) -> (&[u8], &[u8])
    ensures text { result.0.now ≡ text_until_line_end bytes.now }
    ensures after { result.1.now ≡ after_text bytes.now }
{
    for (end, b) in bytes.iter().enumerate() {
        if *b == b'\r' || *b == b'\n' {
            return bytes.split_at(end);
        }
    }
    bytes.split_at(bytes.len())
}

/// What follows the line's end that begins here.
pub(super) fn end_of(after: &[u8]) -> Result<&[u8], Fault>
    ensures { IsRead (λ rest. rest.now) result (after_line_end after.now) }
{
    match after {
        [b'\r', b'\n', rest @ ..] => Ok(rest),
        [] | [b'\r'] => Err(Fault::Incomplete),
        _ => Err(Fault::Malformed),
    }
}

fn is_before_digits(text: &[u8], after: &[u8]) -> bool
    ensures { result ≡ is_before_digits text.now after.now }
{
    after.is_empty() && (text.is_empty() || text == b"-".as_slice() || text == b"+".as_slice())
}

fn is_before_length(text: &[u8], after: &[u8]) -> bool
    ensures { result ≡ is_before_length text.now after.now }
{
    after.is_empty() && (text.is_empty() || text == b"-".as_slice())
}

/// The number of a line, by its text and what follows the text. Inline, since it is called for each
/// number of a reply.
#[inline(always)]
#[tactic(auto, unfolding(crate::specs::Reading::int_at))]
pub(super) fn int_at<'a>(text: &[u8], after: &'a [u8]) -> Result<(i64, &'a [u8]), Fault>
    ensures { IsRead (λ x. (x.0, x.1.now)) result (int_at text.now after.now) }
{
    if is_before_digits(text, after) {
        return Err(Fault::Incomplete);
    }
    let Some(number) = int_of(text) else {
        return Err(Fault::Malformed);
    };
    let rest = end_of(after)?;
    Ok((number, rest))
}

/// The length in a line, by its text and what follows the text. `None` for -1.
#[tactic(auto, unfolding(crate::specs::Reading::length_at))]
pub(super) fn length_at<'a>(text: &[u8], after: &'a [u8]) -> Result<(Option<u64>, &'a [u8]), Fault>
    ensures { IsRead (λ x. (x.0, x.1.now)) result (length_at text.now after.now) }
{
    if text == b"-1".as_slice() {
        let rest = end_of(after)?;
        return Ok((None, rest));
    }
    if is_before_length(text, after) {
        return Err(Fault::Incomplete);
    }
    let Some(length) = length_of(text) else {
        return Err(Fault::Malformed);
    };
    let rest = end_of(after)?;
    Ok((Some(length), rest))
}

/// The bytes of a bulk string of this length, and what follows its end.
#[tactic(auto, unfolding(crate::specs::Reading::bytes_at))]
pub(super) fn bulk_of(length: u64, rest: &[u8]) -> Result<(&[u8], &[u8]), Fault>
    ensures { IsRead (λ x. (Ok (bulk x.0.now), x.1.now)) result (bytes_at (Some length) rest.now) }
{
    if (rest.len() as u64) < length {
        return Err(Fault::Incomplete);
    }
    let (bytes, after) = rest.split_at(length as usize);
    let rest = end_of(after)?;
    Ok((bytes, rest))
}

/// A bulk string of this length, or nil for `None`.
#[tactic(auto, unfolding(crate::specs::Reading::bytes_at))]
fn bytes_of(alloc: Global, length: Option<u64>, rest: &[u8]) -> Result<(Response, &[u8]), ReadError>
    ensures { Gives (λ x. (answer x.0, x.1.now)) result (bytes_at length rest.now) }
{
    let Some(length) = length else {
        return Ok((Response::Value(Value::Nil), rest));
    };
    let (bytes, rest) = bulk_of(length, rest)?;
    Ok((
        Response::Value(Value::BulkString(Vec::from_slice(alloc, bytes)?)),
        rest,
    ))
}

/// The value of a line with `+`, by its text.
fn simple_of(alloc: Global, text: &[u8]) -> Result<Value, AllocError>
    ensures { IfOk result (λ value. view value ≡ simple_of text.now) }
{
    if text == b"OK".as_slice() {
        return Ok(Value::Okay);
    }
    match str::from_utf8(text) {
        Ok(text) => Ok(Value::SimpleString(String::from_str(alloc, text)?)),
        Err(_) => Ok(Value::BulkString(Vec::from_slice(alloc, text)?)),
    }
}

/// An answer that is no array, by its mark, the text of its first line, and what follows the text.
#[tactic(auto, unfolding(crate::specs::Reading::flat_at))]
pub(super) fn flat_of<'a>(
    alloc: Global,
    mark: u8,
    text: &[u8],
    after: &'a [u8],
) -> Result<(Response, &'a [u8]), ReadError>
    ensures { Gives (λ x. (answer x.0, x.1.now)) result (flat_at mark text.now after.now) }
{
    match mark {
        b'$' => {
            let (length, rest) = length_at(text, after)?;
            bytes_of(alloc, length, rest)
        }
        b':' => {
            let (number, rest) = int_at(text, after)?;
            Ok((Response::Value(Value::Int(number)), rest))
        }
        b'+' => {
            let rest = end_of(after)?;
            Ok((Response::Value(simple_of(alloc, text)?), rest))
        }
        b'-' => {
            let rest = end_of(after)?;
            Ok((Response::Error(Vec::from_slice(alloc, text)?), rest))
        }
        _ => Err(ReadError::Fault(Fault::Malformed)),
    }
}
