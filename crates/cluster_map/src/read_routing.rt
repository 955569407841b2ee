ghost use Rattle.cluster_map.specs.Candidates.{Candidates, IsCandidate};
ghost use Rattle.cluster_map.specs.ReadCandidates.{candidates_of};
ghost use Rattle.cluster_slots.specs.Address.{Address};

use std::marker::PhantomData;

mod candidates;
mod cluster_topology;
mod replicas;
mod shard;
mod shards;

pub use candidates::{AnyNodeCandidates, ReadCandidates, ReplicasOnlyCandidates};
use cluster_slots::NodeAddress;
pub use cluster_topology::ClusterTopology;
pub use replicas::Replicas;
pub use shard::Shard;
pub use shards::Shards;

/// Chooses the node of reads that need not go to the primary.
///
/// ```
/// fn route_read<'a>(&self, candidates: &ReadCandidates<'a>) -> &'a NodeAddress {
///     match candidates {
///         ReadCandidates::AnyNode(candidates) => candidates.replicas().first(),
///         ReadCandidates::ReplicasOnly(candidates) => candidates.replicas().first(),
///     }
/// }
/// ```
pub trait ReadRoutingStrategy: Drop {
    /// The addresses that a read of these candidates may go to.
    ghost picks: { Self → Candidates → Address → Type 0 };

    /// Passes the cluster's shards to the strategy. The owner of the strategy calls this for each
    /// new map.
    fn on_topology_changed(&mut self, topology: ClusterTopology) {
        let _ = topology;
    }

    /// The node that a read goes to. Called only if the slot has replicas.
    fn route_read<'a>(&self, candidates: &ReadCandidates<'a>) -> &'a NodeAddress
        ensures picked { picks self.now (candidates_of candidates.now) result.now }
        ensures candidate { IsCandidate (candidates_of candidates.now) result.now };

    /// A strategy picks only candidates.
    ghost picks_candidates: { (s : Self) (c : Candidates) (address : Address) → picks s c address
        → IsCandidate c address };
}

/// Makes strategies.
pub trait ReadRoutingStrategyFactory {
    /// The type of the strategies.
    type Strategy: ReadRoutingStrategy;

    /// The strategies that the factory may make; any, by default.
    ghost creates: { Self → Self.Strategy → Type 0 } = { λ factory strategy. Unit {0} };

    /// A new strategy, one for each connection to a cluster.
    fn create_strategy(&self) -> Self::Strategy
        ensures made { creates self.now result };
}

/// Makes strategies by their `Default`.
#[derive(Drop)]
pub struct DefaultFactory<T> {
    strategy: PhantomData<T>,
}

impl<T> DefaultFactory<T> {
    /// A factory of default strategies.
    pub fn new() -> Self {
        DefaultFactory {
            strategy: PhantomData,
        }
    }
}

impl<T: ReadRoutingStrategy + Default> ReadRoutingStrategyFactory for DefaultFactory<T> {
    type Strategy = T;

    ghost creates = { λ factory strategy. T.is_default strategy };

    fn create_strategy(&self) -> T {
        T::default()
    }
}
