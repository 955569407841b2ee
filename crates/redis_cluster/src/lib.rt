//! Where a Redis command goes in a cluster, how the replies to its parts make one, and a driver that
//! sends a multi-key command so that the nodes answer as one server would.
#![tactic(auto)]

mod attempts;
/// Multi-key commands, split by slot, sent in any order, and answered as by one server.
pub mod driver;
mod fault;
mod log;
mod nodes;
mod order;
/// Pipelines of commands, and which of them a cluster refuses.
pub mod pipeline;
mod plan;
mod retry;
mod retrying;
pub mod routing;
mod send;
