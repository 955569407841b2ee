//! A strategy in a box that threads may share.
ghost use Rattle.std.specs.Prelude.{◌≡◌, Some, slice_get};
ghost use Rattle.cluster_map.specs.CandidatePlaces.{IsCandidate-replica};

use cluster_map::{NodeAddress, ReadCandidates, ReadRoutingStrategy, Route, SlotMap};

/// Picks the first replica.
#[derive(Drop)]
pub struct FirstReplica;

impl ReadRoutingStrategy for FirstReplica {
    ghost picks = { λ strategy candidates address. slice_get candidates.replicas 0 ≡ Some address };

    ghost picks_candidates = { λ strategy candidates address first.
        IsCandidate-replica candidates address 0 first };

    fn route_read<'a>(&self, candidates: &ReadCandidates<'a>) -> &'a NodeAddress {
        match candidates {
            ReadCandidates::AnyNode(candidates) => candidates.replicas().first(),
            ReadCandidates::ReplicasOnly(candidates) => candidates.replicas().first(),
        }
    }
}

/// The node of a route, by a strategy that other threads may hold too.
pub fn node_by<'a>(
    slot_map: &'a SlotMap,
    route: Route,
    strategy: &Box<dyn ReadRoutingStrategy + Send + Sync>,
) -> Option<&'a NodeAddress> {
    slot_map.slot_addr_for_route(route, Some(&**strategy), 0)
}
