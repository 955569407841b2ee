//! Where the command of a route goes, attempt by attempt.
use crate::driving::redirect;
use cluster_map::{Route, SlotMap};
use fixtures::{
    bad_row, cut, lines, map, number, plain, push, push_shown, put, slot_addr, two, two_numbers,
};
use redis_cluster::driver::Retry;
use resp_core::RedisResult;
use std::alloc::{AllocError, Global};

/// What a call of this name returns. The map is that of earlier rows.
pub fn call(slots: &mut SlotMap, alloc: Global, name: &str, words: &str) -> RedisResult<String> {
    match name {
        "map" => put(alloc, slots, map(alloc, words)),
        "retry" => retry(alloc, slots, words),
        _ => Err(bad_row("no call of this name")),
    }
}

/// The route, the pick and the number of retries of a row.
#[derive(Drop)]
struct Begin {
    route: Route,
    pick: usize,
    retries: usize,
}

fn begin_of(words: &str) -> RedisResult<Begin> {
    let (slot, rest) = two(words);
    let (addr, rest) = two(rest);
    let (pick, retries) = two_numbers(rest, " ")?;
    Ok(Begin {
        route: Route::new(number(slot)?, slot_addr(addr)?),
        pick,
        retries,
    })
}

fn retry_of(alloc: Global, map: &SlotMap, begin: &Begin) -> Result<Option<Retry>, AllocError> {
    Retry::new(alloc, map, begin.route, None, begin.pick, begin.retries)
}

/// Whether the call for an event names a new target. An event that is not one of these is the text
/// of a redirect.
fn tell(alloc: Global, retry: &mut Retry, event: &str) -> RedisResult<bool> {
    match event {
        "failure" => Ok(retry.on_failure()),
        "TRYAGAIN" => Ok(retry.on_try_again()),
        _ => Ok(retry.on_redirect(redirect(alloc, event)?).is_ok()),
    }
}

/// Adds where the next attempt goes, and how many retries are left.
fn push_target(alloc: Global, text: &mut String, retry: &Retry) -> RedisResult<()> {
    match retry.target() {
        Some(target) => push_shown(alloc, text, "", target)?,
        None => push(text, "none")?,
    }
    push_shown(alloc, text, " ", &retry.left())
}

/// Where each attempt goes and how many retries are left then, before the first event and after
/// each one, where the call for the event says whether it names a target.
fn retry(alloc: Global, map: &SlotMap, words: &str) -> RedisResult<String> {
    let (begin, events) = cut(words, "; ");
    let Some(mut retry) = retry_of(alloc, map, &begin_of(begin)?)? else {
        return plain(alloc, "none");
    };
    let mut text = String::new(alloc);
    push_target(alloc, &mut text, &retry)?;
    for event in &lines(alloc, events)? {
        let is_named = tell(alloc, &mut retry, event)?;
        push_shown(alloc, &mut text, "; ", &is_named)?;
        push(&mut text, " ")?;
        push_target(alloc, &mut text, &retry)?;
    }
    Ok(text)
}
