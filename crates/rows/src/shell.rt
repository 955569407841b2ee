//! A session, as its shell calls it.
use cluster_map::NodeAddress;
use fixtures::{
    bad_row, bytes, cut, debug, debug_or_none, debug_result, done, number, okay, plain, put, shown,
    two,
};
use redis_routing::{ReadOnlyNames, Registry};
use redis_session::{AddedNames, Session, Settings};
use resp_core::RedisResult;
use std::alloc::Global;
use uses::session::everyday;

/// A session whose links begin with this login. It takes the commands of these names, too.
pub fn new_session(alloc: Global, login: Vec<u8>, added: AddedNames) -> Session {
    Session::new(
        alloc,
        Settings {
            login,
            most_reply_bytes: 4_000,
            most_calls: 50,
            most_bytes: 3_000,
            silence: Some(60),
            retries: 16,
            pause: 10,
            registry: Registry::new(alloc),
            added,
            read_only: ReadOnlyNames::new(alloc),
        },
    )
}

/// A session by the login and the added name of a row, if there are any.
fn session_of(alloc: Global, words: &str) -> RedisResult<Session> {
    let (login, name) = cut(words, " | ");
    let mut added = AddedNames::new(alloc);
    if !name.is_empty() {
        added.add(alloc, name.as_bytes(), true)?;
    }
    Ok(new_session(alloc, bytes(alloc, login)?, added))
}

/// What a call of this name returns. The session is that of earlier rows.
pub fn call(session: &mut Session, alloc: Global, name: &str, words: &str) -> RedisResult<String> {
    match name {
        "shell" => put(alloc, session, session_of(alloc, words)),
        "wanted" => debug(alloc, &session.wanted_node()),
        "to-write" => debug(alloc, &session.link_to_write()),
        "close" => debug(alloc, &session.link_to_close()),
        "time" => debug(alloc, &session.next_time()),
        "faults" => shown(alloc, &session.map_faults()),
        "next" => next(session, alloc),
        "everyday" => shown(alloc, &everyday(alloc)?.as_bytes().escape_ascii()),
        "node" => node(session, alloc, words),
        _ => on_number(session, alloc, name, words),
    }
}

/// What a call of this name returns that begins with a number: of a node, a link, a caller or a call,
/// or a time.
fn on_number(session: &mut Session, alloc: Global, name: &str, words: &str) -> RedisResult<String> {
    let (first, rest) = two(words);
    let number = number(first)?;
    match name {
        "advance" => done(alloc, session.advance(alloc, number as u64)),
        "unreachable" => unreachable(session, alloc, number),
        "ended" => done(alloc, session.ended(alloc, number)),
        "read" => read(session, alloc, number, rest),
        "address" => debug_or_none(alloc, session.address(number)),
        "connected" => debug_result(alloc, session.connected(alloc, number)),
        "unwritten" => shown(alloc, &session.unwritten(number).escape_ascii()),
        "wrote" => wrote(session, alloc, number, rest),
        "begin" => begin(session, alloc, number as u64, rest),
        "give-up" => shown(alloc, &session.give_up(alloc, number as u64)),
        _ => Err(bad_row("no call of this name")),
    }
}

fn unreachable(session: &mut Session, alloc: Global, node: usize) -> RedisResult<String> {
    session.unreachable(node);
    okay(alloc)
}

/// Passes bytes that came on a link.
fn read(session: &mut Session, alloc: Global, link: usize, heard: &str) -> RedisResult<String> {
    let heard = bytes(alloc, heard)?;
    done(alloc, session.read(alloc, link, &heard))
}

/// The number of a node.
fn node(session: &mut Session, alloc: Global, address: &str) -> RedisResult<String> {
    let address = NodeAddress::try_from(alloc, address)?;
    debug_result(alloc, session.add_node(&address))
}

/// Whether so many bytes were to be written on a link.
fn wrote(session: &mut Session, alloc: Global, link: usize, count: &str) -> RedisResult<String> {
    shown(alloc, &session.wrote(link, number(count)?))
}

/// The number of a call by its caller, its deadline and its request, or why it is refused.
fn begin(session: &mut Session, alloc: Global, caller: u64, words: &str) -> RedisResult<String> {
    let (deadline, request) = two(words);
    let deadline = number(deadline)?;
    match session.begin(alloc, caller, &bytes(alloc, request)?, deadline) {
        Ok(call) => shown(alloc, &call),
        Err(refusal) => debug(alloc, &refusal),
    }
}

/// The caller and the call of the next reply, and the reply.
fn next(session: &mut Session, alloc: Global) -> RedisResult<String> {
    let Some((caller, call)) = session.next_reply(alloc)? else {
        return plain(alloc, "none");
    };
    Ok(format!(in alloc; "{caller} {call} {}", session.reply().escape_ascii())?)
}
