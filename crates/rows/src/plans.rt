//! Plans of commands: their targets, and the one reply of their answers, if no name only reads and
//! none is registered.
use crate::reads::asked;
use crate::routing::Known;
use crate::split_plans::{combine, once};
use cluster_map::SlotMap;
use fixtures::{
    answer_of, bad_row, cmd, cut, number, or_text, push_next, shown, two, value_text, values,
};
use redis_commands::CommandPlan;
use resp_core::{Cmd, RedisResult, Value};
use std::alloc::Global;

/// What a call of this name returns.
pub fn call(slots: &SlotMap, alloc: Global, name: &str, words: &str) -> RedisResult<String> {
    match name {
        "made" => {
            let (command, answers) = cut(words, "; ");
            let command = cmd(alloc, command)?;
            let answers = values(alloc, answers)?;
            value_text(alloc, &made(alloc, slots, &command, answers)?)
        }
        "nodes" => {
            let (pick, command) = two(words);
            let command = cmd(alloc, command)?;
            nodes(alloc, &plan_of(alloc, slots, &command, number(pick)?)?)
        }
        "asked" => asked(alloc, slots, words),
        "combine" => combine(alloc, slots, words),
        "once" => once(alloc, words),
        _ => Err(bad_row("no call of this name")),
    }
}

/// The one reply to a command if its targets answer these in their order.
fn made(alloc: Global, slots: &SlotMap, command: &Cmd, answers: Vec<Value>) -> RedisResult<Value> {
    let mut plan = plan_of(alloc, slots, command, 0)?;
    for (number, answer) in answers.into_iter().enumerate() {
        let _ = plan.tell(number, answer_of(alloc, answer)?);
    }
    plan.combine(alloc)
}

/// The targets of a plan, a space apart.
pub fn nodes(alloc: Global, plan: &CommandPlan<'_, Cmd>) -> RedisResult<String> {
    let mut text = String::new(alloc);
    for number in 0..plan.len() {
        if let Some(node) = plan.node(number) {
            push_next(&mut text, " ", &shown(alloc, node)?)?;
        }
    }
    Ok(text)
}

fn plan_of<'a>(
    alloc: Global,
    slots: &'a SlotMap,
    command: &'a Cmd,
    pick: usize,
) -> RedisResult<CommandPlan<'a, Cmd>> {
    let none = Known::new(alloc);
    or_text(
        alloc,
        CommandPlan::new(alloc, command, none.names(), slots, None, pick),
    )
}
