//! One connection of a session, of which earlier rows tell what happened.
use fixtures::{bad_row, bytes, debug, debug_result, done, number, okay, two, two_numbers};
use resp_core::RedisResult;
use session_core::{Link, Standing, Ticket};
use std::alloc::Global;

/// What a call of this name returns.
pub fn call(link: &mut Link, alloc: Global, name: &str, words: &str) -> RedisResult<String> {
    match name {
        "link" => *link = Link::new(alloc, number(words)?),
        "end" if link.standing() != Standing::Ended => link.end(),
        "wrote" => wrote(link, number(words)?)?,
        "standing" => return debug(alloc, &link.standing()),
        "unwritten" => return debug(alloc, &link.unwritten()),
        "lose" if link.standing() == Standing::Ended => return debug(alloc, &link.lose()),
        _ => return on_open(link, alloc, name, words),
    }
    okay(alloc)
}

/// What a call of this name returns that takes an open link.
fn on_open(link: &mut Link, alloc: Global, name: &str, words: &str) -> RedisResult<String> {
    if link.standing() != Standing::Open {
        return Err(bad_row("not on a link that stands so"));
    }
    match name {
        "ask" => ask(link, alloc, words),
        "hear" => done(alloc, link.hear(&bytes(alloc, words)?)),
        "take" => debug_result(alloc, link.take(alloc)),
        _ => Err(bad_row("no call of this name")),
    }
}

/// Asks a request, for `login`, for `map`, or for a part as `7.0`, before which `asking:` may stand.
fn ask(link: &mut Link, alloc: Global, words: &str) -> RedisResult<String> {
    let (word, rest) = two(words);
    let request = bytes(alloc, rest)?;
    if request.is_empty() || link.standing() != Standing::Open {
        return Err(bad_row("no request on an open link"));
    }
    let asking = word.strip_prefix("asking:");
    match word {
        "login" => done(alloc, link.ask(Ticket::Login, &request)),
        "map" => done(alloc, link.ask(Ticket::Map(0), &request)),
        _ => {
            let (call, part) = two_numbers(asking.unwrap_or(word), ".")?;
            if asking.is_some() {
                done(alloc, link.ask_asking(call, part, &request))
            } else {
                done(alloc, link.ask(Ticket::Part(call, part), &request))
            }
        }
    }
}

/// Notes that bytes were written, if there are so many.
fn wrote(link: &mut Link, count: usize) -> RedisResult<()> {
    if link.standing() == Standing::Ended || count > link.count_unwritten() {
        return Err(bad_row("more than is to be written"));
    }
    link.wrote(count);
    Ok(())
}
