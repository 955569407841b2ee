ghost use Rattle.std.specs.Prelude.{◌≡◌, ◌%◌, ◌∷◌, length, Some, slice_get};
ghost use Rattle.cluster_map.specs.Candidates.{primary_then_replicas};
ghost use Rattle.cluster_map.specs.ReadCandidates.{addresses_of};
ghost use Rattle.cluster_map.specs.CandidatePlaces.{IsCandidate-in_order};
ghost use Rattle.memory_nodes.specs.Picks.{IsAtIndex};

use cluster_map::{ClusterTopology, NodeAddress, ReadCandidates, ReadRoutingStrategy, Replicas};

/// Picks the candidate at an index modulo their number. The primary comes first, if a read may go
/// there, and then the replicas.
#[derive(Debug, Drop)]
pub struct PickIndex(pub usize);

impl PickIndex {
    /// Picks the candidate at this index.
    pub fn new(index: usize) -> Self
        ensures { result ≡ record { 0 = index } }
    {
        PickIndex(index)
    }
}

impl ReadRoutingStrategy for PickIndex {
    ghost picks = { λ s c address. IsAtIndex s.0 c address };

    ghost picks_candidates = { λ s c address there.
        IsCandidate-in_order c address (s.0 % length (primary_then_replicas c)) there };

    /// Keeps its index, whatever the shards are.
    fn on_topology_changed(&mut self, topology: ClusterTopology)
        ensures unchanged { self.new ≡ self.old }
    {
        let _ = topology;
    }

    fn route_read<'a>(&self, candidates: &ReadCandidates<'a>) -> &'a NodeAddress {
        match candidates {
            ReadCandidates::AnyNode(candidates) => {
                node_at(candidates.primary(), candidates.replicas(), self.0)
            }
            ReadCandidates::ReplicasOnly(candidates) => candidates.replicas().choose_random(self.0),
        }
    }
}

/// The node at an index modulo the number of nodes, the primary first.
fn node_at<'a>(primary: &'a NodeAddress, replicas: Replicas<'a>, index: usize) -> &'a NodeAddress
    ensures { let nodes = primary.now ∷ addresses_of replicas.entry in
        slice_get nodes (index % length nodes) ≡ Some result.now }
{
    let place = index % (replicas.len() + 1);
    if place == 0 {
        primary
    } else {
        replicas.choose_random(place - 1)
    }
}
