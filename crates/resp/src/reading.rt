ghost use Rattle.std.specs.Prelude.{◌≡◌, ◌++◌, ℕ, List, Ok, IfOk, IfErr};
ghost use Rattle.resp.specs.Forms.{Answer, IsForm, answer, answers_in, answer_after, array_of_all};
ghost use Rattle.resp.specs.Reading.{Gives, Cause, answer_at, times_at};

use crate::fault::{Fault, ReadError};
use crate::fields::{flat_of, length_at, line_of};
use crate::response::Response;
use resp_core::Value;
use std::alloc::Global;

/// Largest number of arrays nested in one another, the outermost included.
pub const MAX_LEVELS: u8 = 32;

/// The most items that room is made for at first, since a count may announce any number.
pub(super) const MOST_ITEMS: u64 = 16;

/// Reads the reply at the front of some bytes, and returns it with the bytes after it.
///
/// Any bytes may be passed. An array that holds an error at any depth is read as its first error. A
/// simple string that is not UTF-8 is read as a bulk string. `*-1` is nil. Inline commands and the
/// types of version 3 are `Malformed`.
///
/// Memory is taken for bytes that are there, and for at most 16 items that an array announces. This
/// is tested, not proved. Recursion ends at `MAX_LEVELS`. The cost is O(bytes). A call after more
/// bytes have come reads all bytes again.
///
/// # Errors
///
/// `Incomplete` if more bytes can complete the reply. `Malformed` if none can, at any limit on nested
/// arrays. `TooDeep` if arrays are nested deeper than `MAX_LEVELS`. The first wrong byte decides.
/// `Memory` if memory runs out.
pub fn read(alloc: Global, bytes: &[u8]) -> Result<(Response, &[u8]), ReadError>
    // The outermost array is counted too.
    ensures levels { MAX_LEVELS ≡ 32 }
    // What is read is a form at the front of the bytes.
    ensures found { IfOk result (λ x. (form : List ℕ)
        × (bytes.now ≡ form ++ x.1.now) × IsForm MAX_LEVELS (answer x.0) form) }
    // Each form at the front is read, whatever follows, unless memory runs out.
    ensures only { (a : Answer) (form rest : List ℕ) → IsForm MAX_LEVELS a form → bytes.now ≡ form ++ rest
        → Gives {Y = Answer × List ℕ} (λ x. (answer x.0, x.1.now)) result (Ok (a, rest)) }
    // Incomplete bytes hold no whole answer, and can be completed. Other bytes have a first wrong
    // byte. Up to it, and with it, malformed bytes begin no answer of any depth, and bytes that are
    // too deep begin a deeper one.
    ensures cause { IfErr result (λ e. Cause bytes.now e) }
{
    response_at(alloc, bytes, MAX_LEVELS)
}

/// The items so far, or the first error among them, and one answer more.
fn added(
    items: Result<Vec<Value>, Vec<u8>>,
    response: Response,
) -> Result<Result<Vec<Value>, Vec<u8>>, ReadError>
    ensures { Gives answers_in result (Ok (answer_after (answers_in items) (answer response))) }
{
    match (items, response) {
        (Err(text), _) => Ok(Err(text)),
        (Ok(_), Response::Error(text)) => Ok(Err(text)),
        (Ok(values), Response::Value(value)) => {
            let mut values = values;
            values.push(value)?;
            Ok(Ok(values))
        }
    }
}

/// The array of the items, or the error.
fn gathered(items: Result<Vec<Value>, Vec<u8>>) -> Response
    ensures { answer result ≡ array_of_all (answers_in items) }
{
    match items {
        Ok(values) => Response::Value(Value::Array(values)),
        Err(text) => Response::Error(text),
    }
}

/// The reply at the front, with at most this many levels of arrays, and the bytes after it.
#[cycle(reading)]
fn response_at(alloc: Global, bytes: &[u8], levels: u8) -> Result<(Response, &[u8]), ReadError>
    ensures { Gives (λ x. (answer x.0, x.1.now)) result (answer_at levels bytes.now) }
{
    let [mark, bytes @ ..] = bytes else {
        return Err(ReadError::Fault(Fault::Incomplete));
    };
    let (text, after) = line_of(bytes);
    if *mark != b'*' {
        return flat_of(alloc, *mark, text, after);
    }
    if levels == 0 {
        return Err(ReadError::Fault(Fault::TooDeep));
    }
    let (count, rest) = length_at(text, after)?;
    let Some(count) = count else {
        return Ok((Response::Value(Value::Nil), rest));
    };
    let (items, rest) = items_at(alloc, count, rest, levels - 1)?;
    Ok((gathered(items), rest))
}

/// This many replies at the front, or the first error among them, and the bytes after them.
#[cycle(reading)]
fn items_at(
    alloc: Global,
    count: u64,
    bytes: &[u8],
    levels: u8,
) -> Result<(Result<Vec<Value>, Vec<u8>>, &[u8]), ReadError>
    ensures { Gives (λ x. (answers_in x.0, x.1.now)) result
        (times_at (answer_at levels) count bytes.now) }
{
    let mut items = Ok(Vec::with_capacity(alloc, count.min(MOST_ITEMS) as usize)?);
    let mut rest = bytes;
    for _ in 0..count {
        let (response, after) = response_at(alloc, rest, levels)?;
        items = added(items, response)?;
        rest = after;
    }
    Ok((items, rest))
}
