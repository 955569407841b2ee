//! A session, of which earlier rows tell what happened.
ghost use Rattle.std.specs.Prelude.{◌≡◌};
ghost use Rattle.session_core.specs.Channel.{Channel};
ghost use Rattle.session_core.specs.State.{IsLink};
ghost use Rattle.session_core.specs.declared.link.Standing.TheVariants.{Open};

mod parts;

use crate::sessions::parts::can_begin;
use fixtures::{
    bad_row, bytes, cut, debug, debug_result, done, number, okay, pieces, plain, push_next, two,
    two_numbers,
};
use resp_core::RedisResult;
use session_core::{PartOrder, Standing};
use session_machine::{Call, Machine, Part};
use std::alloc::Global;

/// What a call of this name returns.
pub fn call(session: &mut Machine, alloc: Global, name: &str, words: &str) -> RedisResult<String> {
    let (first, rest) = two(words);
    match name {
        "session" => restart(session, alloc),
        "trim" => debug(alloc, &session.trim()),
        "part" => phase(session, alloc, words),
        "end-part" => end_part(session, alloc, first, rest),
        _ => on_number(session, alloc, name, number(first)?, rest),
    }
}

fn restart(session: &mut Machine, alloc: Global) -> RedisResult<String> {
    *session = Machine::new(alloc);
    okay(alloc)
}

/// What a call of this name returns that begins with a number: of a call, a caller or a link.
fn on_number(
    session: &mut Machine,
    alloc: Global,
    name: &str,
    number: usize,
    words: &str,
) -> RedisResult<String> {
    let call = number as u64;
    match name {
        "open" => debug_result(alloc, session.open(alloc, number)),
        "begin" => begin(session, alloc, call, words),
        "give-up" => debug(alloc, &session.give_up(call)),
        "overtaken" => overtaken(session, alloc, call, words),
        "next" => debug(alloc, &session.next_call(call)),
        "finish" => finish(session, alloc, call),
        "leave" => debug(alloc, &session.leave(alloc, call)),
        _ => on_link(session, alloc, name, number, words),
    }
}

/// What a call of this name returns that names a link.
fn on_link(
    session: &mut Machine,
    alloc: Global,
    name: &str,
    link: usize,
    words: &str,
) -> RedisResult<String> {
    match name {
        "standing" => debug(alloc, &session.standing(link)),
        "unwritten" => debug(alloc, &session.unwritten(link)),
        "forget" => debug(alloc, &session.forget(link)),
        "wrote" => wrote(session, alloc, link, words),
        "end" => end(session, alloc, link),
        "lose" => lose(session, alloc, link),
        _ => on_open(session, alloc, name, link, words),
    }
}

/// What a call of this name returns that takes an open link.
fn on_open(
    session: &mut Machine,
    alloc: Global,
    name: &str,
    link: usize,
    words: &str,
) -> RedisResult<String> {
    let Some(Standing::Open) = session.standing(link) else {
        return Err(bad_row("not on a link that stands so"));
    };
    match name {
        "hear" => done(alloc, session.hear(link, &bytes(alloc, words)?)),
        "login" => done(alloc, login(session, alloc, link, words)),
        "map" => done(alloc, map(session, alloc, link, words)),
        "take" => debug_result(alloc, session.take(alloc, link)),
        "ask" => ask(session, alloc, link, words),
        "asking" => ask_asking(session, alloc, link, words),
        _ => Err(bad_row("no call of this name")),
    }
}

fn ask(session: &mut Machine, alloc: Global, link: usize, seat: &str) -> RedisResult<String>
    requires { (c : Channel) × IsLink session.old link c × (c.standing ≡ Open) }
{
    let (call, part) = two_numbers(seat, ".")?;
    debug_result(alloc, session.ask(link, call, part))
}

fn ask_asking(session: &mut Machine, alloc: Global, link: usize, seat: &str) -> RedisResult<String>
    requires { (c : Channel) × IsLink session.old link c × (c.standing ≡ Open) }
{
    let (call, part) = two_numbers(seat, ".")?;
    debug_result(alloc, session.ask_asking(link, call, part))
}

/// Asks the login of a link.
fn login(session: &mut Machine, alloc: Global, link: usize, word: &str) -> RedisResult<()>
    requires { (c : Channel) × IsLink session.old link c × (c.standing ≡ Open) }
{
    let request = bytes(alloc, word)?;
    if request.is_empty() {
        return Err(bad_row("no request"));
    }
    Ok(session.ask_login(link, &request)?)
}

/// Asks for a map after so many `MOVED`.
fn map(session: &mut Machine, alloc: Global, link: usize, words: &str) -> RedisResult<()>
    requires { (c : Channel) × IsLink session.old link c × (c.standing ≡ Open) }
{
    let (count, request) = two(words);
    let request = bytes(alloc, request)?;
    if request.is_empty() {
        return Err(bad_row("no request"));
    }
    Ok(session.ask_map(link, number(count)?, &request)?)
}

/// Notes that bytes were written, if there are so many.
fn wrote(session: &mut Machine, alloc: Global, link: usize, count: &str) -> RedisResult<String> {
    let count = number(count)?;
    let (Some(Standing::Open) | Some(Standing::Broken)) = session.standing(link) else {
        return Err(bad_row("not on a link that stands so"));
    };
    if count > session.count_unwritten(link) {
        return Err(bad_row("more than is to be written"));
    }
    session.wrote(link, count);
    okay(alloc)
}

fn end(session: &mut Machine, alloc: Global, link: usize) -> RedisResult<String> {
    let (Some(Standing::Open) | Some(Standing::Broken)) = session.standing(link) else {
        return Err(bad_row("not on a link that stands so"));
    };
    session.end(link);
    okay(alloc)
}

fn lose(session: &mut Machine, alloc: Global, link: usize) -> RedisResult<String> {
    let Some(Standing::Ended) = session.standing(link) else {
        return Err(bad_row("not on a link that stands so"));
    };
    debug(alloc, &session.lose(link))
}

/// Begins a call of the parts that the words are.
fn begin(session: &mut Machine, alloc: Global, caller: u64, words: &str) -> RedisResult<String> {
    let mut parts = Vec::new(alloc);
    for word in pieces(alloc, words, " ")? {
        parts.push(new_part(alloc, word)?)?;
    }
    if !can_begin(&parts) {
        return Err(bad_row("no parts of one call"));
    }
    debug_result(alloc, session.begin(alloc, caller, parts))
}

/// The part of a word, as `15495:2:yes:GET`: its order, its retries, whether nodes refuse it before they run it,
/// and its request.
fn new_part(alloc: Global, word: &str) -> RedisResult<Part> {
    let (order, rest) = cut(word, ":");
    let (retries, rest) = cut(rest, ":");
    let (may_refuse, request) = cut(rest, ":");
    let order = match order {
        "whole" => PartOrder::Whole,
        "free" => PartOrder::Free,
        slot => PartOrder::OfSlot(number(slot)?),
    };
    Ok(Part::new(
        bytes(alloc, request)?,
        order,
        may_refuse == "yes",
        number(retries)?,
    ))
}

fn end_part(session: &mut Machine, alloc: Global, seat: &str, why: &str) -> RedisResult<String> {
    let (call, part) = two_numbers(seat, ".")?;
    match why {
        "late" => debug(alloc, &session.end_late(call, part)),
        "no-node" => debug(alloc, &session.end_without_node(call, part)),
        _ => Err(bad_row("no cause of this name")),
    }
}

fn overtaken(session: &mut Machine, alloc: Global, caller: u64, slot: &str) -> RedisResult<String> {
    debug(alloc, &session.end_overtaken(caller, number(slot)?))
}

/// How far the parts are of which a reply is made, if it is.
fn finish(session: &mut Machine, alloc: Global, call: u64) -> RedisResult<String> {
    if !session.finish(call) {
        return plain(alloc, "None");
    }
    let mut text = String::new(alloc);
    if let Some(state) = session.call(call) {
        push_phases(alloc, &mut text, state)?;
    }
    Ok(format!(in alloc; "Some([{text}])")?)
}

fn push_phases(alloc: Global, text: &mut String, state: &Call) -> RedisResult<()> {
    for part in state.parts() {
        push_next(text, ", ", &debug(alloc, part.phase())?)?;
    }
    Ok(())
}

/// How far a part is.
fn phase(session: &Machine, alloc: Global, seat: &str) -> RedisResult<String> {
    let (call, part): (u64, usize) = two_numbers(seat, ".")?;
    let Some(state) = session.call(call) else {
        return plain(alloc, "None");
    };
    match state.parts().get(part) {
        Some(part) => debug(alloc, &Some(part.phase())),
        None => plain(alloc, "None"),
    }
}
