ghost use Rattle.std.specs.Prelude.{ℕ, List, ◌≡◌, ◌++◌, ◌≤◌, ◌<◌, ◌^◌, ◌↔◌, length, decimal, map, OnOk, IfOk, IfErr, IsTrue, Ok};
ghost use Rattle.std.specs.List.{AllByRecursion};
ghost use Rattle.resp_core.specs.Reply.{simple, replies_of};
ghost use Rattle.resp_core.specs.View.{view};
ghost use Rattle.resp.specs.Forms.{line, form, forms, bulk_form, request, IsRequest, depth, depth_items, HasForm, HaveForm, IsInLine, IsForm};

use crate::fault::WriteError;
use crate::reading::MAX_LEVELS;
use itoa::Buffer;
use resp_core::{Cmd, Value};
use std::alloc::{AllocError, Global};

/// The bytes that room is made for at first, as for most replies.
const SHORT_BYTES: usize = 64;

/// The bytes of a value. `read` reads them as the same value.
///
/// # Errors
///
/// `NoForm` if the value is or holds a map, or arrays nested deeper than `MAX_LEVELS`. Also for a
/// simple string that is `OK`, which is `Value::Okay`, or has a `\r` or `\n`. `Memory` if memory
/// runs out.
pub fn write(alloc: Global, value: &Value) -> Result<Vec<u8>, WriteError>
    ensures bytes { IfOk result (λ bytes. bytes.items ≡ form (view value.now)) }
    // `read` reads the bytes as this value, whatever follows.
    ensures readable { IfOk result (λ bytes. IsForm MAX_LEVELS (Ok (view value.now)) bytes.items) }
    ensures form { IfOk result (λ bytes. HasForm (view value.now)) }
    ensures depth { IfOk result (λ bytes. depth (view value.now) ≤ MAX_LEVELS) }
    // A value that has a form, and is not nested too deep, is never refused with `NoForm`.
    ensures refused { HasForm (view value.now) → depth (view value.now) ≤ MAX_LEVELS
        → IfErr result (λ e. e ≡ WriteError.Memory) }
{
    let mut out = Vec::with_capacity(alloc, SHORT_BYTES)?;
    push_value(&mut out, value, MAX_LEVELS)?;
    Ok(out)
}

/// The bytes of a request: an array of bulk strings, which `read_request` reads as this command.
///
/// # Errors
///
/// If memory runs out.
pub fn write_command(alloc: Global, command: &Cmd) -> Result<Vec<u8>, AllocError>
    ensures { IfOk result (λ bytes. IsRequest command.now bytes.items) }
{
    let mut out = Vec::new(alloc);
    push_command(&mut out, command)?;
    Ok(out)
}

/// Appends the bytes of a request to a buffer, as `write_command` returns them.
///
/// # Errors
///
/// If memory runs out. Then the buffer may end with a beginning of the request.
pub fn push_command(out: &mut Vec<u8>, command: &Cmd) -> Result<(), AllocError>
    ensures bytes { OnOk result (out.new.items ≡ out.old.items ++ request command.now) }
    // `read_request` reads the appended bytes as this command.
    ensures readable { OnOk result (IsRequest command.now (request command.now)) }
    // What was there stays.
    ensures before { (more : List ℕ) × (out.new.items ≡ out.old.items ++ more) }
{
    push_count(out, b'*', command.len())?;
    for index in 0..command.len() {
        if let Some(arg) = command.arg_idx(index) {
            push_bulk(out, arg)?;
        }
    }
    Ok(())
}

/// Appends the first line of an array of `count` items: `*2\r\n` for two.
///
/// # Errors
///
/// If memory runs out. Then the buffer may end with a beginning of the line.
pub fn push_array_line(out: &mut Vec<u8>, count: usize) -> Result<(), AllocError>
    ensures line { OnOk result (out.new.items ≡ out.old.items ++ line 42 (decimal count)) }
    ensures before { (more : List ℕ) × (out.new.items ≡ out.old.items ++ more) }
{
    push_count(out, b'*', count)
}

/// Appends a bulk string: `$3\r\nfoo\r\n` for `foo`.
///
/// # Errors
///
/// If memory runs out. Then the buffer may end with a beginning of the bulk string.
pub fn push_bulk(out: &mut Vec<u8>, bytes: &[u8]) -> Result<(), AllocError>
    ensures bytes { OnOk result (out.new.items ≡ out.old.items ++ bulk_form bytes.now) }
    ensures short { OnOk result (length bytes.now < 2 ^ 63) }
    ensures before { (more : List ℕ) × (out.new.items ≡ out.old.items ++ more) }
{
    push_count(out, b'$', bytes.len())?;
    out.extend_from_slice(bytes)?;
    out.extend_from_slice(b"\r\n")
}

fn push_count(out: &mut Vec<u8>, mark: u8, count: usize) -> Result<(), AllocError>
    ensures line { OnOk result (out.new.items ≡ out.old.items ++ line mark (decimal count)) }
    ensures before { (more : List ℕ) × (out.new.items ≡ out.old.items ++ more) }
{
    if count < 10 {
        return out.extend_from_slice(&[mark, b'0' + count as u8, b'\r', b'\n']);
    }
    let mut buffer = Buffer::new();
    push_line(out, mark, buffer.format(count).as_bytes())
}

fn push_line(out: &mut Vec<u8>, mark: u8, text: &[u8]) -> Result<(), AllocError>
    ensures line { OnOk result (out.new.items ≡ out.old.items ++ line mark text.now) }
    ensures before { (more : List ℕ) × (out.new.items ≡ out.old.items ++ more) }
{
    out.push(mark)?;
    out.extend_from_slice(text)?;
    out.extend_from_slice(b"\r\n")
}

/// Whether a text has neither of the bytes that end lines.
fn is_one_line(text: &[u8]) -> bool
    ensures { IsTrue result ↔ AllByRecursion IsInLine text.now }
{
    for b in text {
        if *b == b'\r' || *b == b'\n' {
            return false;
        }
    }
    true
}

/// Adds a simple string. `OK` has no such form: it is read as `Value::Okay`.
fn push_simple(out: &mut Vec<u8>, text: &str) -> Result<(), WriteError>
    ensures bytes { OnOk result (out.new.items ≡ out.old.items ++ form (simple text.now)) }
    ensures form { OnOk result (HasForm (simple text.now)) }
    ensures refused { HasForm (simple text.now) → IfErr result (λ e. e ≡ WriteError.Memory) }
{
    if text == "OK" || !is_one_line(text.as_bytes()) {
        return Err(WriteError::NoForm);
    }
    push_line(out, b'+', text.as_bytes())?;
    Ok(())
}

/// Adds the form of a value that has at most this many levels of arrays.
#[cycle(writing)]
fn push_value(out: &mut Vec<u8>, value: &Value, levels: u8) -> Result<(), WriteError>
    ensures bytes { OnOk result (out.new.items ≡ out.old.items ++ form (view value.now)) }
    ensures form { OnOk result (HasForm (view value.now)) }
    ensures depth { OnOk result (depth (view value.now) ≤ levels) }
    ensures refused { HasForm (view value.now) → depth (view value.now) ≤ levels
        → IfErr result (λ e. e ≡ WriteError.Memory) }
{
    match value {
        Value::Nil => out.extend_from_slice(b"$-1\r\n")?,
        Value::Okay => out.extend_from_slice(b"+OK\r\n")?,
        Value::Int(n) => {
            let mut buffer = Buffer::new();
            push_line(out, b':', buffer.format(*n).as_bytes())?;
        }
        Value::BulkString(bytes) => push_bulk(out, bytes)?,
        Value::SimpleString(text) => push_simple(out, text)?,
        Value::Array(items) => {
            if levels == 0 {
                return Err(WriteError::NoForm);
            }
            push_count(out, b'*', items.len())?;
            push_values(out, items, levels - 1)?;
        }
        Value::Map(_) => return Err(WriteError::NoForm),
    }
    Ok(())
}

/// Adds the forms of values, one after another.
#[cycle(writing)]
fn push_values(out: &mut Vec<u8>, values: &[Value], levels: u8) -> Result<(), WriteError>
    ensures bytes { OnOk result (out.new.items
        ≡ out.old.items ++ forms (replies_of (map view values.now))) }
    ensures form { OnOk result (HaveForm (replies_of (map view values.now))) }
    ensures depth { OnOk result (depth_items (replies_of (map view values.now)) ≤ levels) }
    ensures refused { HaveForm (replies_of (map view values.now))
        → depth_items (replies_of (map view values.now)) ≤ levels
        → IfErr result (λ e. e ≡ WriteError.Memory) }
{
    for value in values {
        push_value(out, value, levels)?;
    }
    Ok(())
}
