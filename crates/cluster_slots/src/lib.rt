//! Addresses of nodes, slots of keys, and numbers in texts. Patterns of arguments and operations on
//! replies, which routing and combining share.
#![tactic(auto)]

mod aggregate_op;
mod arg_pattern;
mod host_text;
/// Addresses of nodes: a host and a port.
pub mod node_address;
mod numbers;
/// Slots of keys, and routes to them.
pub mod slot;

pub use aggregate_op::{AggregateOp, LogicalAggregateOp};
pub use arg_pattern::MultiSlotArgPattern;
pub use node_address::{NodeAddress, split_node_address};
pub use numbers::{parse_u16, parse_u64};
pub use slot::{Route, SLOT_SIZE, Slot, SlotAddr};
