//! Commands, values and errors.
use fixtures::{
    bad_row, cmd, debug, debug_result, equality_result, number, plain, shown, shown_result, two,
    two_numbers, value,
};
use resp::write_command;
use resp_core::{Cmd, ErrorKind, RedisError, RedisResult};
use std::alloc::Global;

/// What a call of this name returns.
pub fn call(alloc: Global, name: &str, words: &str) -> RedisResult<String> {
    match name {
        "debug" => debug_result(alloc, cmd(alloc, words)),
        "with_capacity" => debug_result(alloc, Cmd::with_capacity(alloc, number(words)?)),
        "with_room" => with_room(alloc, words),
        "arg" => arg(alloc, words),
        "request" => debug_result(alloc, write_command(alloc, &cmd(alloc, words)?)),
        "copied" => equality_result(alloc, cmd(alloc, words)),
        "copied_value" => equality_result(alloc, value(alloc, words)),
        "error" => shown_result(alloc, error(alloc, words)),
        "same_error" => same_error(alloc, words),
        _ => Err(bad_row("no call of this name")),
    }
}

/// A new command with room for these numbers of items and bytes.
fn with_room(alloc: Global, words: &str) -> RedisResult<String> {
    let (items, bytes) = two_numbers(words, " ")?;
    debug_result(alloc, Cmd::with_room(alloc, items, bytes))
}

/// A command of two words. If the second one is refused, the command must not change.
fn arg(alloc: Global, words: &str) -> RedisResult<String> {
    let (first, second) = two(words);
    let mut command = cmd(alloc, first)?;
    let before = command.clone()?;
    if command.arg(second.as_bytes()).is_ok() {
        return debug(alloc, &command);
    }
    if command == before {
        Err(bad_row("out of memory"))
    } else {
        plain(alloc, "changed")
    }
}

/// An error with this detail.
fn error(alloc: Global, detail: &str) -> RedisResult<RedisError> {
    let detail = plain(alloc, detail)?;
    Ok(RedisError::from((ErrorKind::Client, "bad text", detail)))
}

/// Whether the errors of two details are equal.
fn same_error(alloc: Global, words: &str) -> RedisResult<String> {
    let (one, other) = two(words);
    let same = error(alloc, one)? == error(alloc, other)?;
    shown(alloc, &same)
}
