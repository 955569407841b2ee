//! Three strategies, written as a user would write them: the first replica, the node at an index,
//! and one that goes by the shards.
mod candidates;
mod first_replica;
mod pick_index;
mod shard_aware;

pub use first_replica::FirstReplica;
pub use pick_index::PickIndex;
pub use shard_aware::ShardAware;
