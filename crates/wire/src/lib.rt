//! Nodes behind connections: what they answer is whatever a connection gives. A client sends single
//! commands, as `Nodes`.
#![tactic(auto)]

/// Connections whose log contracts see.
pub mod connections;
/// Connections over a transport, and their log.
pub mod logged;
/// What commands are thought to mean.
pub mod meaning;
mod over;
/// What moves a command to a node, and what comes back.
pub mod transport;
/// A client over connections, as `Nodes`.
pub mod wire_nodes;

pub use cluster_slots::NodeAddress;
pub use connections::Wire;
pub use logged::Logged;
pub use meaning::{Any, Meaning};
pub use over::drive_over;
pub use redis_cluster::driver::{Nodes, SendError};
pub use redis_routing::{Redirect, Registry};
pub use resp_core::{Cmd, RedisError, Value};
pub use transport::Transport;
pub use wire_nodes::{Client, WireNodes};
