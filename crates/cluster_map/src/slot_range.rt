ghost use Rattle.std.specs.Prelude.{◌≡◌, IsTrue, ◌↔◌};
ghost use Rattle.std.specs.Cmp.Rules.{comparing};
ghost use Rattle.std.proofs.Common.{rules};
ghost use Rattle.cluster_map.specs.SlotNodes.{RangeNodes, same_range};

use cluster_slots::NodeAddress;
use std::alloc::AllocError;
use std::marker::Model;

/// A range of slots, both ends included, and the nodes that serve it.
#[derive(Clone, Debug, Drop)]
pub struct SlotRange {
    /// The first slot.
    pub start: u16,
    /// The last slot, which belongs to the range.
    pub end: u16,
    /// The primary.
    pub master: NodeAddress,
    /// The replicas in order.
    pub replicas: Vec<NodeAddress>,
}

impl Model for SlotRange {
    ghost use Rattle.cluster_map.specs.SlotNodes.{RangeNodes};

    ghost Value = { RangeNodes };

    ghost view = { λ r. record {
      start = r.start;
      end = r.end;
      master = r.master;
      replicas = r.replicas.items;
    } };
}

impl SlotRange {
    /// The slots from `start` to `end`, both included, and the nodes that serve them.
    pub fn new(start: u16, end: u16, master: NodeAddress, replicas: Vec<NodeAddress>) -> Self
        ensures { result
            ≡ record { start = start; end = end; master = master; replicas = replicas.items } }
    {
        SlotRange {
            start,
            end,
            master,
            replicas,
        }
    }
}

impl PartialEq for SlotRange {
    ghost eq = { same_range };

    ghost laws = { Prim.search (comparing, rules) depth 9 };

    fn eq(&self, other: &Self) -> bool
        ensures value { result ≡ same_range self.now other.now }
        ensures same { IsTrue result ↔ (self.now ≡ other.now) }
    {
        self.start == other.start
            && self.end == other.end
            && self.master == other.master
            && self.replicas == other.replicas
    }
}

impl Eq for SlotRange {
    ghost laws = { Prim.search (comparing, rules) depth 9 };
}
