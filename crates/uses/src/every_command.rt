//! A client that answers any command through one function: `GET`, `MGET`, `DBSIZE`, `KEYS`.
ghost use Rattle.std.specs.Prelude.{◌≡◌, Some, map, IfErr};
ghost use Rattle.redis_routing.specs.Names.{names_in};
ghost use Rattle.redis_commands.specs.Targets.{IsCommandPlanFault};

use cluster_map::{NodeAddress, SlotMap};
use redis_cluster::routing::Names;
use redis_commands::{CommandPlan, CommandPlanFault};
use resp_core::{Cmd, RedisError, RedisResult, Value};
use std::alloc::Global;

/// Connections to the nodes of a cluster.
pub trait Connections {
    /// Sends the command to the node, and reads its answer: a value, or an error of the server.
    fn ask(&mut self, node: &NodeAddress, command: &Cmd) -> RedisResult<Value>;
}

/// Why there is no reply to a command.
#[derive(Debug, Drop)]
pub enum CallError {
    /// It has no plan. Nothing was sent.
    NotPlanned(CommandPlanFault),
    /// A server answered this error, or the answers make no reply.
    NotAnswered(RedisError),
}

/// Sends a command to each node that it goes to, and makes one reply of their answers.
pub fn call<C: Connections>(
    alloc: Global,
    command: &Cmd,
    names: Names<'_>,
    slot_map: &SlotMap,
    connections: &mut C,
) -> Result<Value, CallError>
    ensures not_planned { IfErr result (λ error. (fault : CommandPlanFault)
        → error ≡ CallError.NotPlanned fault
        → IsCommandPlanFault slot_map.now (names_in names.entry) (map Some command.now) fault) }
{
    let mut plan = match CommandPlan::new(alloc, command, names, slot_map, None, 0) {
        Ok(plan) => plan,
        Err(fault) => return Err(CallError::NotPlanned(fault)),
    };
    for number in 0..plan.len() {
        if let (Some(node), Some(part)) = (plan.node(number), plan.part(number)) {
            let answer = connections.ask(node, part.command());
            let _ = plan.tell(number, answer);
        }
    }
    plan.combine(alloc).map_err(CallError::NotAnswered)
}
