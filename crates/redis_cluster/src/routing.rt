//! Where a command goes, how it is split by slot, and how the replies to its parts make one.
pub use cluster_slots::{Route, Slot, SlotAddr};
pub use redis_combiners::{
    aggregate, combine_and_sort_array_results, combine_array_results, combine_map_results,
    logical_aggregate,
};
pub use redis_routing::{
    AggregateOp, LogicalAggregateOp, MultiSlotArgPattern, MultipleNodeRoutingInfo, Names,
    NodeGroup, ReadOnlyNames, Redirect, RegisterError, Registry, ResponsePolicy, Routable, Routed,
    RoutingInfo, SingleNodeRoutingInfo, SplitCommand, command_for_multi_slot_indices,
    command_for_multi_slot_indices_with, multi_slot_routes, name_words,
};
