//! Commands that are driven over connections, which return what a row says.
use cluster_map::{NodeAddress, SlotMap};
use fixtures::{bad_row, cmd, cut, numbers, push_shown, reply_text, two, values};
use redis_cluster::routing::{ReadOnlyNames, Registry};
use resp_core::{Cmd, ErrorKind, RedisError, RedisResult, Value};
use std::alloc::Global;
use wire::{Any, Logged, SendError, Transport, WireNodes, drive_over};

/// Connections that return these values, the last one first, whatever is sent. In place of a simple
/// string the reply is lost, and in place of `+refused` the node refuses. They have no contract.
#[derive(Drop)]
struct Script {
    values: Vec<Value>,
    /// How often something was sent.
    sent: usize,
}

fn error(text: &'static str) -> RedisError {
    RedisError::from((ErrorKind::Client, text))
}

fn outcome(value: Value) -> Result<Value, SendError> {
    match &value {
        Value::SimpleString(text) if text.as_str() == "refused" => {
            Err(SendError::Refused(error("READONLY")))
        }
        Value::SimpleString(_) => Err(SendError::Lost(error("no reply"))),
        _ => Ok(value),
    }
}

impl Transport for Script {
    fn exchange(&mut self, _node: &NodeAddress, _cmd: &Cmd) -> Result<Value, SendError> {
        self.sent = self.sent.saturating_add(1);
        match self.values.pop() {
            Some(value) => outcome(value),
            None => Err(SendError::Memory),
        }
    }
}

/// What a call of this name returns over a map.
pub fn call(map: &SlotMap, alloc: Global, name: &str, words: &str) -> RedisResult<String> {
    let (values, words) = cut(words, "; ");
    let script = script_of(alloc, values)?;
    match name {
        "command" => command(alloc, map, script, words),
        _ => Err(bad_row("no call of this name")),
    }
}

fn script_of(alloc: Global, text: &str) -> RedisResult<Script> {
    let mut values = values(alloc, text)?;
    values.reverse();
    Ok(Script { values, sent: 0 })
}

/// The outcome of a command over connections.
fn driven(alloc: Global, map: &SlotMap, script: &mut Script, words: &str) -> RedisResult<String> {
    let (order, command) = two(words);
    let order = numbers(alloc, order)?;
    let command = cmd(alloc, command)?;
    let mut nodes = WireNodes::<Logged<&mut Script>, Any>::over(script, Registry::new(alloc));
    let names = ReadOnlyNames::new(alloc);
    let given = drive_over(alloc, &command, &names, map, None, 0, &order, &mut nodes);
    reply_text(alloc, &given)
}

/// The outcome of a command, and how many parts were sent.
fn command(alloc: Global, map: &SlotMap, mut script: Script, words: &str) -> RedisResult<String> {
    let mut text = driven(alloc, map, &mut script, words)?;
    push_shown(alloc, &mut text, ", sent ", &script.sent)?;
    Ok(text)
}
