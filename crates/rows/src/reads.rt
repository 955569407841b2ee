//! How often the plan of a command asks a strategy.
use crate::plans::nodes;
use crate::routing::Known;
use cluster_map::SlotMap;
use fixtures::{Turns, cmd, cut, or_text, push_shown, read_only_names};
use redis_cluster::routing::Names;
use redis_commands::CommandPlan;
use resp_core::{Cmd, RedisResult};
use std::alloc::Global;

/// The targets of a command, and how often a strategy was asked for them, if the commands of these
/// names only read.
pub fn asked(alloc: Global, slots: &SlotMap, words: &str) -> RedisResult<String> {
    let (names, command) = cut(words, "; ");
    let mut known = Known::new(alloc);
    known.read_only = read_only_names(alloc, names)?;
    let command = cmd(alloc, command)?;
    targets(alloc, slots, known.names(), &command)
}

/// The targets of a command, and how often a strategy was asked for them.
fn targets(alloc: Global, slots: &SlotMap, names: Names<'_>, command: &Cmd) -> RedisResult<String> {
    let turns = Turns::new();
    let plan = or_text(
        alloc,
        CommandPlan::new(alloc, command, names, slots, Some(&turns), 0),
    )?;
    let mut text = nodes(alloc, &plan)?;
    push_shown(alloc, &mut text, ", asked ", &turns.asked())?;
    Ok(text)
}
