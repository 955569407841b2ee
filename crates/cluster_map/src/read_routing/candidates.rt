ghost use Rattle.std.specs.Prelude.{◌≡◌, Some, None};

use crate::read_routing::replicas::Replicas;
use cluster_slots::NodeAddress;

/// The nodes that a read may go to, the primary among them.
#[derive(Clone, Copy, Debug)]
pub struct AnyNodeCandidates<'a> {
    slot: u16,
    primary: &'a NodeAddress,
    replicas: Replicas<'a>,
}

impl<'a> AnyNodeCandidates<'a> {
    ghost use Rattle.cluster_map.specs.ReadCandidates.{addresses_of, any_node_of};

    /// The slot of the key that is read.
    pub fn slot(&self) -> u16
        ensures { result ≡ (any_node_of self.now).slot }
    {
        self.slot
    }

    /// The primary, which may be picked too.
    pub fn primary(&self) -> &'a NodeAddress
        ensures { (any_node_of self.now).primary ≡ Some result.now }
    {
        self.primary
    }

    /// The replicas, at least one.
    pub fn replicas(&self) -> Replicas<'a>
        ensures { addresses_of result ≡ (any_node_of self.now).replicas }
    {
        self.replicas
    }
}

/// The nodes that a read may go to, if it must go to a replica.
#[derive(Clone, Copy, Debug)]
pub struct ReplicasOnlyCandidates<'a> {
    slot: u16,
    replicas: Replicas<'a>,
}

impl<'a> ReplicasOnlyCandidates<'a> {
    ghost use Rattle.cluster_map.specs.ReadCandidates.{addresses_of, replicas_only_of};

    /// The slot of the key that is read.
    pub fn slot(&self) -> u16
        ensures { result ≡ (replicas_only_of self.now).slot }
    {
        self.slot
    }

    /// The replicas, at least one.
    pub fn replicas(&self) -> Replicas<'a>
        ensures { addresses_of result ≡ (replicas_only_of self.now).replicas }
    {
        self.replicas
    }
}

/// The nodes that a strategy picks from.
#[derive(Clone, Copy, Debug)]
pub enum ReadCandidates<'a> {
    /// The primary and its replicas.
    AnyNode(AnyNodeCandidates<'a>),
    /// The replicas only.
    ReplicasOnly(ReplicasOnlyCandidates<'a>),
}

impl<'a> ReadCandidates<'a> {
    ghost use Rattle.cluster_map.specs.ReadCandidates.{addresses_of, candidates_of};

    /// The slot of the key that is read.
    pub fn slot(&self) -> u16
        ensures { result ≡ (candidates_of self.now).slot }
    {
        match self {
            ReadCandidates::AnyNode(candidates) => candidates.slot,
            ReadCandidates::ReplicasOnly(candidates) => candidates.slot,
        }
    }

    /// Candidates of a read that the primary may serve too.
    pub fn any_node(slot: u16, primary: &'a NodeAddress, replicas: Replicas<'a>) -> Self
        ensures { candidates_of result ≡ record {
          slot = slot;
          primary = Some primary.now;
          replicas = addresses_of replicas.entry;
        } }
    {
        ReadCandidates::AnyNode(AnyNodeCandidates {
            slot,
            primary,
            replicas,
        })
    }

    /// Candidates of a read that a replica must serve.
    pub fn replicas_only(slot: u16, replicas: Replicas<'a>) -> Self
        ensures { candidates_of result
            ≡ record { slot = slot; primary = None; replicas = addresses_of replicas.entry } }
    {
        ReadCandidates::ReplicasOnly(ReplicasOnlyCandidates { slot, replicas })
    }
}
