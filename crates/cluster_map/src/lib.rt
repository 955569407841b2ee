//! Addresses of nodes, slots of keys, the map from slots to nodes, its `CLUSTER SLOTS` reply, and
//! read routing.
#![tactic(auto)]

/// Strategies that choose the nodes of reads, and what they choose from.
pub mod read_routing;
/// The map from slots to nodes.
pub mod slot_map;
mod slot_range;
/// The map from ranges of slots to values.
pub mod slot_range_map;
/// The command `CLUSTER SLOTS`, and the ranges in a reply to it.
pub mod topology;

pub use cluster_slots::{
    NodeAddress, Route, SLOT_SIZE, Slot, SlotAddr, node_address, slot, split_node_address,
};
pub use read_routing::{
    AnyNodeCandidates, ClusterTopology, DefaultFactory, ReadCandidates, ReadRoutingStrategy,
    ReadRoutingStrategyFactory, Replicas, ReplicasOnlyCandidates, Shard,
};
pub use slot_map::{SlotAddrs, SlotMap, SlotRange, number_nodes_counting};
pub use slot_range_map::SlotRangeMap;
pub use topology::{parse_slots, slot_cmd};
