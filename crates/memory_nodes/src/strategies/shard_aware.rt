ghost use Rattle.std.specs.Prelude.{◌≡◌, ◌-◌, ◌↔◌, length, Some, None, IsTrue};
ghost use Rattle.std.proofs.Common.{inl, inr};
ghost use Rattle.cluster_map.specs.CandidatePlaces.{IsCandidate-replica};
ghost use Rattle.memory_nodes.specs.Picks.{HasManyRanges, IsShardPick};

use crate::strategies::candidates::{last_of, replicas_of};
use cluster_map::{ClusterTopology, NodeAddress, ReadCandidates, ReadRoutingStrategy};
use std::marker::Model;

/// Picks the last replica if the slot's shard has two ranges or more, else the first replica.
///
/// The shard is looked up in the last topology that was passed. A slot without a shard there gets
/// the first replica, and so does each slot before a topology is passed.
#[derive(Debug, Drop)]
pub struct ShardAware {
    topology: Option<ClusterTopology>,
}

impl Model for ShardAware {
    ghost use Rattle.std.specs.Prelude.{Option};
    ghost use Rattle.cluster_map.specs.Topology.{Topology};

    ghost Value = { Option Topology };

    ghost view = { λ s. s.topology };
}

impl ShardAware {
    /// A strategy without a topology.
    pub fn new() -> Self
        ensures { result ≡ None }
    {
        ShardAware { topology: None }
    }

    /// Whether the slot's shard has two ranges or more.
    fn has_many_ranges(&self, slot: u16) -> bool
        ensures { IsTrue result ↔ HasManyRanges self.now slot }
    {
        let Some(topology) = &self.topology else {
            return false;
        };
        let Some(shard) = topology.shard_for_slot(slot) else {
            return false;
        };
        shard.slot_ranges().len() >= 2
    }
}

impl ReadRoutingStrategy for ShardAware {
    ghost picks = { λ s c address. IsShardPick s c address };

    ghost picks_candidates = { λ s c address. elim [
      | inl (many, last) ↦ IsCandidate-replica c address (length c.replicas - 1) last
      | inr (few, first) ↦ IsCandidate-replica c address 0 first
    ] };

    /// Replaces the topology.
    fn on_topology_changed(&mut self, topology: ClusterTopology)
        ensures told { self.new ≡ Some topology }
    {
        self.topology = Some(topology);
    }

    fn route_read<'a>(&self, candidates: &ReadCandidates<'a>) -> &'a NodeAddress {
        let replicas = replicas_of(candidates);
        if self.has_many_ranges(candidates.slot()) {
            last_of(replicas)
        } else {
            replicas.first()
        }
    }
}
