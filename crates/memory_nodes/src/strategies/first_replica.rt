ghost use Rattle.cluster_map.specs.CandidatePlaces.{IsCandidate-replica};
ghost use Rattle.memory_nodes.specs.Picks.{IsFirstReplica};

use crate::strategies::candidates::replicas_of;
use cluster_map::{NodeAddress, ReadCandidates, ReadRoutingStrategy};

/// Picks the first replica.
#[derive(Debug, Default, Drop)]
pub struct FirstReplica;

impl ReadRoutingStrategy for FirstReplica {
    ghost picks = { λ s c address. IsFirstReplica c address };

    ghost picks_candidates = { λ s c address first. IsCandidate-replica c address 0 first };

    fn route_read<'a>(&self, candidates: &ReadCandidates<'a>) -> &'a NodeAddress {
        replicas_of(candidates).first()
    }
}
