ghost use Rattle.std.specs.Prelude.{◌≡◌, ◌++◌, ◌<◌, ◌^◌, ℕ, List, length, map, Ok, false, IfOk, IfErr, MatchResult};
ghost use Rattle.resp.specs.Forms.{IsRequest};
ghost use Rattle.resp.specs.Reading.{IsRead, rest_of};
ghost use Rattle.resp.specs.Requests.{Tells, byte_at, with_digit, digits_at, line_at, so_many_at, bulk_at, bulks_at, request_at, IsStopIn, fault_at, RequestCause, RequestErrorCause};

use crate::fault::{RequestError, RequestFault};
use crate::reading::MOST_ITEMS;
use crate::stop::{Stop, Unread};
use resp_core::Cmd;
use std::alloc::{AllocError, Global};

/// Reads the request at the front of some bytes, and returns it with the bytes after it. A request
/// is an array of bulk strings, as `*1\r\n$4\r\nPING\r\n`.
///
/// Any bytes may be passed. `*0\r\n` is a command of no argument. Inline commands are `Malformed`,
/// and so are numbers with a sign or a leading zero.
///
/// Memory is taken for bytes that are there, and for at most 16 arguments that are announced. This
/// is tested, not proved. The cost is O(bytes). A call after more bytes have come reads all bytes
/// again.
///
/// # Errors
///
/// `Incomplete` if more bytes can complete the request. `Malformed` has the index of the first byte
/// that no request can have there. `Memory` if memory runs out.
pub fn read_request(alloc: Global, bytes: &[u8]) -> Result<(Cmd, &[u8]), RequestError>
    // What is read is a request at the front of the bytes.
    ensures found { IfOk result (λ x. (form : List ℕ)
        × (bytes.now ≡ form ++ x.1.now) × IsRequest x.0 form) }
    // Each request at the front is read, whatever follows, unless memory runs out.
    ensures only { (args : List (List ℕ)) (form rest : List ℕ) → IsRequest args form
        → bytes.now ≡ form ++ rest
        → MatchResult result (λ x. (x.0 ≡ args) × (x.1.now ≡ rest)) (λ e. e ≡ RequestError.Memory) }
    // Incomplete bytes hold no whole request, and can be completed. The byte that is reported is
    // the first that no request can have there.
    ensures cause { IfErr result (λ e. RequestErrorCause bytes.now e) }
{
    let (args, rest) = read_args(alloc, bytes)?;
    match command_of(alloc, &args, bytes.len() - rest.len()) {
        Ok(command) => Ok((command, rest)),
        Err(_) => Err(RequestError::Memory),
    }
}

/// Reads a request as `read_request` does, and copies nothing: the arguments are pieces of the
/// bytes. `*1\r\n$4\r\nPING\r\n` has the one argument `PING`.
///
/// # Errors
///
/// As `read_request`.
pub fn read_args(alloc: Global, bytes: &[u8]) -> Result<(Vec<&[u8]>, &[u8]), RequestError>
    ensures found { IfOk result (λ x. (form : List ℕ) × (bytes.now ≡ form ++ x.1.now)
        × IsRequest (map (λ arg. arg.now) x.0.items) form) }
    ensures only { (args : List (List ℕ)) (form rest : List ℕ) → IsRequest args form
        → bytes.now ≡ form ++ rest
        → MatchResult result (λ x. (map (λ arg. arg.now) x.0.items ≡ args) × (x.1.now ≡ rest))
        (λ e. e ≡ RequestError.Memory) }
    ensures cause { IfErr result (λ e. RequestErrorCause bytes.now e) }
{
    match args_at(alloc, bytes) {
        Ok(found) => Ok(found),
        Err(Unread::Memory) => Err(RequestError::Memory),
        Err(Unread::Stopped(stop)) => Err(RequestError::Fault(fault_at(bytes, stop))),
    }
}

/// The command with these arguments, which have at most `room` bytes.
fn command_of(alloc: Global, args: &[&[u8]], room: usize) -> Result<Cmd, AllocError>
    ensures { IfOk result (λ command. command ≡ map (λ arg. arg.now) args.now) }
{
    let mut command = Cmd::with_room(alloc, args.len(), room)?;
    for arg in args {
        command.write_arg(*arg)?;
    }
    Ok(command)
}

/// Number of bytes of the request at the front. Takes no memory.
///
/// # Errors
///
/// As `read_request`.
pub fn request_len(bytes: &[u8]) -> Result<usize, RequestFault>
    ensures found { IfOk result (λ len. (args : List (List ℕ)) × (form rest : List ℕ)
        × (bytes.now ≡ form ++ rest) × IsRequest args form × (len ≡ length form)) }
    ensures only { (args : List (List ℕ)) (form rest : List ℕ) → IsRequest args form
        → bytes.now ≡ form ++ rest → result ≡ Ok (length form) }
    ensures cause { IfErr result (λ fault. RequestCause bytes.now fault) }
{
    match after_request(bytes) {
        Ok(rest) => Ok(bytes.len() - rest.len()),
        Err(stop) => Err(fault_at(bytes, stop)),
    }
}

/// The fault where reading stopped, with its index in all of the bytes.
fn fault_at(bytes: &[u8], stop: Stop) -> RequestFault
    requires { IsStopIn bytes.now stop }
    ensures { result ≡ fault_at bytes.now stop }
{
    match stop {
        Stop::WantsMore => RequestFault::Incomplete,
        Stop::StopsAt(left) => RequestFault::Malformed(bytes.len() - left),
    }
}

/// The arguments of the request at the front, and what follows it.
#[tactic(auto, unfolding(crate::specs::Requests::request_at))]
fn args_at(alloc: Global, bytes: &[u8]) -> Result<(Vec<&[u8]>, &[u8]), Unread>
    ensures { Tells (λ x. (map (λ arg. arg.now) x.0.items, x.1.now)) result
        (request_at bytes.now) }
{
    let (count, rest) = line_at(bytes, b'*')?;
    bulks_at(alloc, count, rest)
}

/// `count` bulk strings.
fn bulks_at(alloc: Global, count: u64, bytes: &[u8]) -> Result<(Vec<&[u8]>, &[u8]), Unread>
    ensures { Tells (λ x. (map (λ arg. arg.now) x.0.items, x.1.now)) result
        (bulks_at count bytes.now) }
{
    let mut words = Vec::with_capacity(alloc, count.min(MOST_ITEMS) as usize)?;
    let mut rest = bytes;
    for _ in 0..count {
        let (word, after) = bulk_at(rest)?;
        words.push(word)?;
        rest = after;
    }
    Ok((words, rest))
}

/// What follows the request at the front.
#[tactic(auto, unfolding(crate::specs::Requests::request_at))]
fn after_request(bytes: &[u8]) -> Result<&[u8], Stop>
    ensures { IsRead (λ rest. rest.now) result (rest_of (request_at bytes.now)) }
{
    let (count, rest) = line_at(bytes, b'*')?;
    after_bulks(count, rest)
}

/// What follows `count` bulk strings.
fn after_bulks(count: u64, bytes: &[u8]) -> Result<&[u8], Stop>
    ensures { IsRead (λ rest. rest.now) result (rest_of (bulks_at count bytes.now)) }
{
    let mut rest = bytes;
    for _ in 0..count {
        let (_, after) = bulk_at(rest)?;
        rest = after;
    }
    Ok(rest)
}

/// A bulk string.
#[tactic(auto, unfolding(crate::specs::Requests::bulk_at, crate::specs::Requests::word_at))]
pub(super) fn bulk_at(bytes: &[u8]) -> Result<(&[u8], &[u8]), Stop>
    ensures { IsRead (λ x. (x.0.now, x.1.now)) result (bulk_at bytes.now) }
{
    let (count, rest) = line_at(bytes, b'$')?;
    let (word, after) = so_many_at(count, rest)?;
    let last = after_byte(b'\r', after)?;
    let rest = after_byte(b'\n', last)?;
    Ok((word, rest))
}

#[tactic(auto, unfolding(crate::specs::Requests::so_many_at))]
fn so_many_at(count: u64, bytes: &[u8]) -> Result<(&[u8], &[u8]), Stop>
    ensures { IsRead (λ x. (x.0.now, x.1.now)) result (so_many_at count bytes.now) }
{
    if (bytes.len() as u64) < count {
        return Err(Stop::WantsMore);
    }
    Ok(bytes.split_at(count as usize))
}

/// A line with this mark and a number.
#[tactic(auto, unfolding(crate::specs::Requests::line_at))]
pub(super) fn line_at(bytes: &[u8], mark: u8) -> Result<(u64, &[u8]), Stop>
    ensures { IsRead (λ x. (x.0, x.1.now)) result (line_at mark bytes.now) }
{
    let text = after_byte(mark, bytes)?;
    let (number, after) = digits_at(text)?;
    let rest = after_byte(b'\n', after)?;
    Ok((number, rest))
}

/// What follows `byte` at the front.
#[tactic(auto, unfolding(crate::specs::Requests::byte_at))]
fn after_byte(byte: u8, bytes: &[u8]) -> Result<&[u8], Stop>
    ensures { IsRead (λ rest. (byte, rest.now)) result (byte_at byte bytes.now) }
{
    match bytes {
        [] => Err(Stop::WantsMore),
        [first, rest @ ..] if *first == byte => Ok(rest),
        _ => Err(Stop::StopsAt(bytes.len())),
    }
}

/// A number with no leading zero, and what follows the first byte of the line's end.
fn digits_at(bytes: &[u8]) -> Result<(u64, &[u8]), Stop>
    ensures { IsRead (λ x. (x.0, x.1.now)) result (digits_at (2 ^ 63) false 0 bytes.now) }
{
    let mut number = 0;
    for (index, b) in bytes.iter().enumerate() {
        let Some(more) = with_digit(number, index > 0, *b) else {
            if index > 0 && *b == b'\r' {
                let (_, rest) = bytes.split_at(index + 1);
                return Ok((number, rest));
            }
            return Err(Stop::StopsAt(bytes.len() - index));
        };
        number = more;
    }
    Err(Stop::WantsMore)
}

/// The number with one digit more, if it has 63 bits. No zero stands before other digits.
fn with_digit(number: u64, has_digits: bool, b: u8) -> Option<u64>
    requires { number < 2 ^ 63 }
    ensures { result ≡ with_digit (2 ^ 63) has_digits number b }
{
    if !b.is_ascii_digit() || (has_digits && number == 0) {
        return None;
    }
    let value = u64::from(b - b'0');
    if ((1 << 63) - 1 - value) / 10 < number {
        return None;
    }
    Some(10 * number + value)
}
