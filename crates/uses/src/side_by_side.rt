//! A client that sends the parts of a command side by side. `batcher` is one with theorems.
use cluster_map::{NodeAddress, SlotMap};
use redis_cluster::driver::{PlanFault, SplitPlan};
use redis_cluster::routing::Names;
use resp_core::{Cmd, RedisError, Value};
use std::alloc::{AllocError, Global};

/// What came back for a part: a reply, or why there is none.
pub type Answer = Result<Value, RedisError>;

/// Connections to the nodes of a cluster.
pub trait Connections {
    /// Sends each part to its node, and then reads an answer to each, in their order.
    fn exchange(&mut self, parts: &[(&NodeAddress, &Cmd)]) -> Result<Vec<Answer>, AllocError>;
}

/// Why there is no reply to a command.
#[derive(Debug, Drop)]
pub enum BatchError {
    /// It has no plan. Nothing was sent.
    NotPlanned(PlanFault),
    /// The first error of an answer, or the answers make no reply. Parts may have taken effect.
    NotAnswered(RedisError),
    /// Memory ran out. Parts may have taken effect.
    Memory,
}

/// Sends the parts of a command side by side, and makes one reply of what comes back.
pub fn batch<C: Connections>(
    alloc: Global,
    command: &Cmd,
    names: Names<'_>,
    slot_map: &SlotMap,
    connections: &mut C,
) -> Result<Value, BatchError> {
    let mut plan = match SplitPlan::new(alloc, command, names, slot_map, None, 0) {
        Ok(plan) => plan,
        Err(fault) => return Err(BatchError::NotPlanned(fault)),
    };
    let Ok(answers) = send_parts(alloc, &plan, connections) else {
        return Err(BatchError::Memory);
    };
    for (number, answer) in answers.into_iter().enumerate() {
        let _ = plan.tell(number, answer);
    }
    plan.combine(alloc).map_err(BatchError::NotAnswered)
}

/// Sends each part to its node, and gives an answer to each.
fn send_parts<C: Connections>(
    alloc: Global,
    plan: &SplitPlan<'_, Cmd>,
    connections: &mut C,
) -> Result<Vec<Answer>, AllocError> {
    let mut parts = Vec::with_capacity(alloc, plan.len())?;
    for number in 0..plan.len() {
        if let (Some(node), Some(part)) = (plan.node(number), plan.part(number)) {
            parts.push((node, part))?;
        }
    }
    connections.exchange(&parts)
}
