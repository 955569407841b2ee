//! Nodes that keep their keys in memory, and read strategies, for tests of programs that send
//! commands to nodes.
#![tactic(auto)]

mod action;
mod cells;
mod change;
mod name;
mod nodes;
mod planned;
mod results;
pub mod strategies;
mod trace_entry;
mod tree;
mod tuples;
mod whole_command;

pub use nodes::MemoryNodes;
pub use planned::Planned;
pub use trace_entry::TraceEntry;
