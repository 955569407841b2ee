//! Names of a module's commands.
use redis_cluster::routing::{
    AggregateOp, MultiSlotArgPattern, RegisterError, Registry, ResponsePolicy,
};
use std::alloc::Global;

/// A registry that has `JSON.MDEL`, of which each argument is a key and the counts are added up,
/// and `OBJECT PUT`, whose arguments are keys and values in turn.
pub fn module_names(alloc: Global) -> Result<Registry, RegisterError> {
    let mut registry = Registry::new(alloc);
    let counts = ResponsePolicy::Aggregate(AggregateOp::Sum);
    registry.register(alloc, b"JSON.MDEL", MultiSlotArgPattern::KeysOnly, counts)?;
    let pairs = MultiSlotArgPattern::KeyValuePairs;
    registry.register(alloc, b"OBJECT PUT", pairs, ResponsePolicy::AllSucceeded)?;
    Ok(registry)
}
