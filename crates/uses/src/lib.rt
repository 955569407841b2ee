//! What a user of the layer writes: one file for each example.
#![tactic(auto)]

pub mod batcher;
pub mod bytes;
pub mod client;
pub mod commands;
pub mod deleting;
pub mod every_command;
pub mod first_drive;
pub mod interleaved;
pub mod node_of_key;
pub mod pipelines;
pub mod planning;
pub mod redirects;
pub mod registering;
pub mod replies;
pub mod retrying;
pub mod routing;
pub mod sending;
pub mod session;
pub mod shared_strategy;
pub mod side_by_side;
pub mod splitting_bytes;
pub mod threads;
