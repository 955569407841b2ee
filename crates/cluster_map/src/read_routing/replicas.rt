ghost use Rattle.std.specs.Prelude.{◌≡◌, ◌<◌, ◌%◌, ◌^◌, ◌↔◌, length, Some, slice_get, IsNone, IfSome, option_copied};
ghost use Rattle.std.specs.Slice.Iter.{iter_rest};

use cluster_slots::NodeAddress;
use std::slice;

/// The replicas of a slot, at least one.
#[derive(Clone, Copy, Debug)]
pub struct Replicas<'a> {
    nodes: &'a [NodeAddress],
    ghost some: { 0 < length nodes.now },
}

impl<'a> Replicas<'a> {
    ghost use Rattle.cluster_map.specs.ReadCandidates.{addresses_of};

    /// These replicas. `None` if there are none.
    pub fn new(nodes: &'a [NodeAddress]) -> Option<Self>
        ensures none { IsNone result ↔ (length nodes.now ≡ 0) }
        ensures some { IfSome result (λ replicas. addresses_of replicas ≡ nodes.now) }
    {
        if nodes.is_empty() {
            None
        } else {
            Some(Replicas { nodes })
        }
    }

    /// How many replicas there are, at least 1.
    pub fn len(&self) -> usize
        ensures value { result ≡ length (addresses_of self.now) }
        ensures some { 0 < result }
        // So the count fits in a `usize` with the primary, too.
        ensures below { result < 2 ^ 63 }
    {
        self.nodes.len()
    }

    /// The first replica.
    pub fn first(&self) -> &'a NodeAddress
        ensures { slice_get (addresses_of self.now) 0 ≡ Some result.now }
    {
        &self.nodes[0]
    }

    /// The replica at an index, counted from 0, if there is one.
    pub fn get(&self, index: usize) -> Option<&'a NodeAddress>
        ensures { option_copied result ≡ slice_get (addresses_of self.now) index }
    {
        self.nodes.get(index)
    }

    /// The replica at `pick` modulo their number. The caller draws `pick`.
    pub fn choose_random(&self, pick: usize) -> &'a NodeAddress
        ensures { slice_get (addresses_of self.now) (pick % length (addresses_of self.now))
            ≡ Some result.now }
    {
        &self.nodes[pick % self.len()]
    }

    /// The replicas in order.
    pub fn iter(&self) -> slice::Iter<'a, NodeAddress>
        ensures { iter_rest result ≡ addresses_of self.now }
    {
        self.nodes.iter()
    }
}
