//! What keeps the order of a caller.
use fixtures::{bad_row, debug, number};
use resp_core::RedisResult;
use session_core::{CallerOrder, PartOrder};
use std::alloc::Global;

/// What a call of this name returns.
pub fn call(alloc: Global, name: &str, words: &str) -> RedisResult<String> {
    match name {
        "join" => joined(alloc, number(words)?),
        "barred" => barred(alloc, number(words)?),
        _ => Err(bad_row("no call of this name")),
    }
}

/// The first part of a caller, if it may be asked.
fn joined(alloc: Global, slot: u16) -> RedisResult<String> {
    let mut parts = CallerOrder::new(alloc);
    parts.join(alloc, 7, &[PartOrder::OfSlot(slot)])?;
    debug(alloc, &parts.askable(0))
}

/// A part without a slot after one with a slot, if it may be asked.
fn barred(alloc: Global, slot: u16) -> RedisResult<String> {
    let mut parts = CallerOrder::new(alloc);
    parts.join(alloc, 7, &[PartOrder::OfSlot(slot)])?;
    parts.join(alloc, 8, &[PartOrder::Whole])?;
    debug(alloc, &parts.askable(1))
}
