//! Names of commands and what the tables know of them, where a Redis command goes in a cluster, and
//! how a multi-key command is split by slot.
#![tactic(auto)]

mod info;
mod lookup;
mod name_rule;
mod names;
mod places;
mod policy;
mod read_only;
mod redirect;
mod registry;
mod routable;
mod route_by;
mod routed;
mod rules;
mod slot_pages;
mod split_command;
mod splitting;
mod sub_commands;
mod tables;
mod upper_case;
mod words;

pub use cluster_slots::{AggregateOp, LogicalAggregateOp, MultiSlotArgPattern};
pub use info::{MultipleNodeRoutingInfo, Redirect, RoutingInfo, SingleNodeRoutingInfo};
pub use lookup::{contains, look_up};
pub use names::Names;
pub use policy::ResponsePolicy;
pub use read_only::ReadOnlyNames;
pub use registry::{RegisterError, Registry};
pub use routable::Routable;
pub use route_by::{RouteBy, base_routing};
pub use routed::{NodeGroup, Routed};
pub use split_command::{SplitCommand, multi_slot_routes};
pub use sub_commands::{command_for_multi_slot_indices, command_for_multi_slot_indices_with};
pub use words::name_words;
