//! Calls on commands.
use crate::fault::Fault;
use crate::given::{Given, command_of, read_only_of};
use crate::watch::Watch;
use memory_nodes::MemoryNodes;
use redis_cluster::driver::drive;
use redis_cluster::routing::{ResponsePolicy, RoutingInfo, SingleNodeRoutingInfo, SplitCommand};
use redis_commands::CommandPlan;
use resp_core::{Cmd, Value};
use std::alloc::{AllocError, Global};

/// A command of words, made and dropped.
pub fn made(given: &Given<'_>, _turn: usize) -> Result<usize, Fault> {
    Ok(command_of(given.alloc, given.words)?.len())
}

/// Names that only read, looked up among all words.
pub fn looked_up(watch: &mut Watch<'_>, given: &Given<'_>) -> Result<(), Fault> {
    let names = read_only_of(given.alloc, given.words)?;
    watch.time(given, |given, turn| {
        let at = (turn.wrapping_mul(40_503) & 0xFFFF).wrapping_mul(given.words.len()) >> 16;
        match given.words.get(at) {
            Some(word) => Ok(usize::from(names.contains(word))),
            None => Err(Fault::Refused),
        }
    })
}

/// The policy of each of 16 names in turn.
pub fn policy(given: &Given<'_>, turn: usize) -> Result<usize, Fault> {
    let name = given.words.get(turn & 15).ok_or(Fault::Refused)?;
    match ResponsePolicy::for_command(name) {
        Some(ResponsePolicy::AllSucceeded) => Ok(2),
        Some(_) => Ok(1),
        None => Ok(0),
    }
}

/// The slot that a command of one key goes to.
pub fn route(given: &Given<'_>, _turn: usize) -> Result<usize, Fault> {
    let info = RoutingInfo::for_routable(given.alloc, given.command, given.names.read_only)?;
    match &info {
        Some(RoutingInfo::SingleNode(SingleNodeRoutingInfo::SpecificNode(route))) => {
            Ok(usize::from(route.slot()))
        }
        _ => Err(Fault::Refused),
    }
}

/// The split of the command.
pub fn split_of<'a>(given: &Given<'a>) -> Result<SplitCommand<'a, Cmd>, Fault> {
    SplitCommand::new(given.alloc, given.command, given.names)?.ok_or(Fault::Refused)
}

/// The split of a command, without its parts.
pub fn split(given: &Given<'_>, _turn: usize) -> Result<usize, Fault> {
    Ok(split_of(given)?.len())
}

/// The parts of a split command, all at once, as a client has them that sends them itself.
fn parts_of(alloc: Global, split: &SplitCommand<Cmd>) -> Result<Vec<Cmd>, AllocError> {
    let mut parts = Vec::with_capacity(alloc, split.len())?;
    for number in 0..split.len() {
        parts.push(split.part(alloc, number)?)?;
    }
    Ok(parts)
}

/// The split of a command and its parts, with no plan, nodes or replies.
pub fn split_with_parts(given: &Given<'_>, _turn: usize) -> Result<usize, Fault> {
    Ok(parts_of(given.alloc, &split_of(given)?)?.len())
}

/// The one reply to a command of which each target answers 1.
pub fn planned(given: &Given<'_>, _turn: usize) -> Result<usize, Fault> {
    let Ok(mut plan) = CommandPlan::new(given.alloc, given.command, given.names, given.map, None, 0)
    else {
        return Err(Fault::Refused);
    };
    let count = plan.len();
    for number in 0..count {
        let _ = plan.tell(number, Ok(Value::Int(1)));
    }
    let _ = plan.combine(given.alloc)?;
    Ok(count)
}

/// A command, driven over nodes in memory that hold no key.
pub fn driven(watch: &mut Watch<'_>, given: &Given<'_>) -> Result<(), Fault> {
    let order: Vec<usize> = (0..split_of(given)?.len()).collect(given.alloc)?;
    watch.time(given, |given, _| sent(given, &order))
}

/// Drives the command in an order, and counts what was sent.
fn sent(given: &Given<'_>, order: &[usize]) -> Result<usize, Fault> {
    let mut nodes = MemoryNodes::new(given.alloc);
    let read_only = given.names.read_only;
    match drive(
        given.alloc,
        given.command,
        read_only,
        given.map,
        None,
        0,
        order,
        &mut nodes,
    ) {
        Ok(_) => Ok(nodes.trace().len()),
        Err(_) => Err(Fault::Refused),
    }
}
