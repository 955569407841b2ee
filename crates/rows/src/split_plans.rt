//! Plans of split commands, if no name is registered: the order of their parts, and the one reply of their
//! answers.
use crate::routing::Known;
use cluster_map::SlotMap;
use fixtures::{answer_of, cmd, cut, number, numbers, or_text, shown, two, value_text, values};
use redis_cluster::driver::{SplitPlan, names_once};
use resp_core::{Cmd, RedisResult, Value};
use std::alloc::Global;

/// The outcome of answers that are passed to the plan of a command.
pub fn combine(alloc: Global, slots: &SlotMap, words: &str) -> RedisResult<String> {
    let (command, answers) = cut(words, "; ");
    let command = cmd(alloc, command)?;
    let answers = values(alloc, answers)?;
    value_text(alloc, &combined(alloc, slots, &command, answers)?)
}

/// The reply of a command whose parts have these answers.
fn combined(
    alloc: Global,
    slots: &SlotMap,
    command: &Cmd,
    answers: Vec<Value>,
) -> RedisResult<Value> {
    let mut plan = plan_of(alloc, slots, command)?;
    for (number, answer) in answers.into_iter().enumerate() {
        let _ = plan.tell(number, answer_of(alloc, answer)?);
    }
    plan.combine(alloc)
}

fn plan_of<'a>(
    alloc: Global,
    slots: &'a SlotMap,
    command: &'a Cmd,
) -> RedisResult<SplitPlan<'a, Cmd>> {
    let none = Known::new(alloc);
    or_text(
        alloc,
        SplitPlan::new(alloc, command, none.names(), slots, None, 0),
    )
}

/// Whether an order names this many parts, each once.
pub fn once(alloc: Global, words: &str) -> RedisResult<String> {
    let (count, order) = two(words);
    let is_once = names_once(alloc, number(count)?, &numbers(alloc, order)?)?;
    shown(alloc, &is_once)
}
