//! One plan for every command: the nodes that a command goes to, what each is sent, and the one reply
//! that their answers make.
#![tactic(auto)]

mod answers;
mod combining;
mod fault;
mod part;
mod plan;
mod scan;
mod ways;

pub use combining::combine_answers;
pub use fault::CommandPlanFault;
pub use part::CommandPart;
pub use plan::CommandPlan;
pub use scan::{ScanPosition, each_node_once, next_cursor};
