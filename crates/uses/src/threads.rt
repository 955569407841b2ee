//! What threads may share.

use cluster_map::{
    AnyNodeCandidates, ClusterTopology, NodeAddress, ReadCandidates, Replicas,
    ReplicasOnlyCandidates, Route, Shard, Slot, SlotAddr, SlotAddrs, SlotMap, SlotRange,
    SlotRangeMap,
};
use redis_cluster::driver::{DriveError, DriveFault, PlanFault, Retry, SendError, SplitPlan};
use redis_cluster::pipeline::ClusterPipeline;
use redis_cluster::routing::{
    AggregateOp, LogicalAggregateOp, MultiSlotArgPattern, MultipleNodeRoutingInfo, ReadOnlyNames,
    Redirect, RegisterError, Registry, ResponsePolicy, RoutingInfo, SingleNodeRoutingInfo,
    SplitCommand,
};
use resp_core::{Cmd, ErrorKind, RedisError, Value};

/// Takes any type whose values threads may hand over and share.
fn is_shared<T: Send + Sync>() {}

/// The types whose values threads may hand over and share, each asked for both.
pub fn types_that_threads_share() {
    is_shared::<Cmd>();
    is_shared::<Value>();
    is_shared::<RedisError>();
    is_shared::<ErrorKind>();
    is_shared::<NodeAddress>();
    is_shared::<Slot>();
    is_shared::<Route>();
    is_shared::<SlotAddr>();
    is_shared::<SlotRange>();
    is_shared::<SlotRangeMap<NodeAddress>>();
    is_shared::<SlotAddrs>();
    is_shared::<SlotMap>();
    is_shared::<Shard>();
    is_shared::<ClusterTopology>();
    is_shared::<Replicas<'_>>();
    is_shared::<AnyNodeCandidates<'_>>();
    is_shared::<ReplicasOnlyCandidates<'_>>();
    is_shared::<ReadCandidates<'_>>();
    is_shared::<ReadOnlyNames>();
    is_shared::<Registry>();
    is_shared::<RegisterError>();
    is_shared::<RoutingInfo>();
    is_shared::<SingleNodeRoutingInfo>();
    is_shared::<MultipleNodeRoutingInfo>();
    is_shared::<MultiSlotArgPattern>();
    is_shared::<ResponsePolicy>();
    is_shared::<AggregateOp>();
    is_shared::<LogicalAggregateOp>();
    is_shared::<Redirect>();
    is_shared::<SplitCommand<'_, Cmd>>();
    is_shared::<SplitPlan<'_, Cmd>>();
    is_shared::<Retry>();
    is_shared::<PlanFault>();
    is_shared::<SendError>();
    is_shared::<DriveFault>();
    is_shared::<DriveError>();
    is_shared::<ClusterPipeline>();
}
