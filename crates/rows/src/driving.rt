//! Commands that are driven over nodes in memory.
use crate::traces::trace_text;
use cluster_map::ReadRoutingStrategy;
use fixtures::{Cluster, bad_row, cmd, lines, number, numbers, okay, reply_text, two, value};
use memory_nodes::{MemoryNodes, Planned};
use redis_cluster::driver::{DriveError, drive, drive_retrying};
use redis_cluster::routing::{Redirect, Routable};
use resp_core::{Cmd, RedisResult, Value};
use std::alloc::Global;

/// Nodes in memory, and their cluster.
#[derive(Drop)]
pub struct Driven {
    cluster: Cluster,
    nodes: MemoryNodes,
}

impl Driven {
    /// Nodes that serve no slot, and no name that only reads.
    pub fn new(alloc: Global) -> Driven {
        Driven {
            cluster: Cluster::new(alloc),
            nodes: MemoryNodes::new(alloc),
        }
    }
}

/// What a call of this name returns. The nodes are those of earlier rows.
pub fn call(driven: &mut Driven, alloc: Global, name: &str, words: &str) -> RedisResult<String> {
    match name {
        "nodes" => start(alloc, driven, words),
        "reads" => driven.cluster.set_read_only(alloc, words),
        "strategy" => driven.cluster.set_strategy(alloc, words),
        "asked" => driven.cluster.asked(alloc),
        "plan" => plan(alloc, driven, words),
        "fuse" => fuse(alloc, driven, words),
        "sent" => sent(alloc, driven),
        "drive" => drive_words(alloc, driven, words),
        "retry" => retry(alloc, driven, words),
        _ => Err(bad_row("no call of this name")),
    }
}

/// Begins anew with nodes of these ranges, with no keys.
fn start(alloc: Global, driven: &mut Driven, text: &str) -> RedisResult<String> {
    driven.nodes = MemoryNodes::new(alloc);
    driven.cluster.set_map(alloc, text)
}

/// The redirect of an error's text.
pub fn redirect(alloc: Global, text: &str) -> RedisResult<Redirect> {
    match Redirect::from_error_text(alloc, text, "")? {
        Some((_, redirect)) => Ok(redirect),
        None => Err(bad_row("no redirect")),
    }
}

/// What the plan of a send says: an answer, a refusal, or the text of a redirect.
fn planned(alloc: Global, text: &str) -> RedisResult<Planned> {
    match text {
        "answer" => Ok(Planned::Answer),
        "refuse" => Ok(Planned::Refuse),
        _ => Ok(Planned::Redirect(redirect(alloc, text)?)),
    }
}

/// What the next sends do.
fn plan(alloc: Global, driven: &mut Driven, words: &str) -> RedisResult<String> {
    let mut plan = Vec::new(alloc);
    for text in &lines(alloc, words)? {
        plan.push(planned(alloc, text)?)?;
    }
    driven.nodes.plan(plan);
    okay(alloc)
}

/// Refuses the send of this number, counted from 1, and each later one.
fn fuse(alloc: Global, driven: &mut Driven, word: &str) -> RedisResult<String> {
    driven.nodes.fuse(number(word)?);
    okay(alloc)
}

/// What was sent since the last call. The fuse and the plan go.
fn sent(alloc: Global, driven: &mut Driven) -> RedisResult<String> {
    let text = trace_text(alloc, driven.nodes.trace())?;
    driven.nodes.clear_trace();
    Ok(text)
}

/// Drives a command over the nodes of the rows.
fn drive_once<R: Routable>(
    alloc: Global,
    driven: &mut Driven,
    command: &R,
    order: &[usize],
) -> Result<Value, DriveError> {
    let strategy: Option<&dyn ReadRoutingStrategy> = match &driven.cluster.strategy {
        Some(strategy) => Some(strategy),
        None => None,
    };
    drive(
        alloc,
        command,
        &driven.cluster.read_only,
        &driven.cluster.map,
        strategy,
        0,
        order,
        &mut driven.nodes,
    )
}

/// The outcome of a command in an order. The command may be an array of values.
fn drive_words(alloc: Global, driven: &mut Driven, words: &str) -> RedisResult<String> {
    let (order, command) = two(words);
    let order = numbers(alloc, order)?;
    if command.starts_with("[ ") {
        let command = value(alloc, command)?;
        return reply_text(alloc, &drive_once(alloc, driven, &command, &order));
    }
    let command = cmd(alloc, command)?;
    reply_text(alloc, &drive_once(alloc, driven, &command, &order))
}

/// Drives a command over the nodes of the rows with retries.
fn drive_again(
    alloc: Global,
    driven: &mut Driven,
    command: &Cmd,
    retries: usize,
    order: &[usize],
) -> Result<Value, DriveError> {
    drive_retrying(
        alloc,
        command,
        &driven.cluster.read_only,
        &driven.cluster.map,
        None,
        0,
        retries,
        order,
        &mut driven.nodes,
    )
}

/// The outcome of a command with this many retries, in an order.
fn retry(alloc: Global, driven: &mut Driven, words: &str) -> RedisResult<String> {
    let (retries, rest) = two(words);
    let (order, command) = two(rest);
    let retries = number(retries)?;
    let order = numbers(alloc, order)?;
    let command = cmd(alloc, command)?;
    reply_text(
        alloc,
        &drive_again(alloc, driven, &command, retries, &order),
    )
}
