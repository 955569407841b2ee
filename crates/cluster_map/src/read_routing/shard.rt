ghost use Rattle.std.specs.Prelude.{◌≡◌, ◌++◌, ◌∷◌, [], OnOk, OnErr, IfOk};

use cluster_slots::NodeAddress;
use std::alloc::{AllocError, Global};
use std::marker::Model;

/// A primary with its replicas, and the ranges of slots that they serve, as (start, end), both
/// included.
#[derive(Clone, Debug, Drop)]
pub struct Shard {
    ranges: Vec<(u16, u16)>,
    primary: NodeAddress,
    replicas: Vec<NodeAddress>,
}

impl Model for Shard {
    ghost use Rattle.cluster_map.specs.Shards.{ShardNodes};

    ghost Value = { ShardNodes };

    ghost view = { λ s. record {
      ranges = s.ranges.items;
      primary = s.primary;
      replicas = s.replicas.items;
    } };
}

impl Shard {
    /// A shard of these ranges, both ends of each included, and these nodes.
    pub fn new(ranges: Vec<(u16, u16)>, primary: NodeAddress, replicas: Vec<NodeAddress>) -> Self
        ensures { result
            ≡ record { ranges = ranges.items; primary = primary; replicas = replicas.items } }
    {
        Shard {
            ranges,
            primary,
            replicas,
        }
    }

    /// The ranges of slots, as (start, end), both included.
    pub fn slot_ranges(&self) -> &[(u16, u16)]
        ensures { result.now ≡ self.now.ranges }
    {
        self.ranges.as_slice()
    }

    /// The node that writes go to.
    pub fn primary(&self) -> &NodeAddress
        ensures { result.now ≡ self.now.primary }
    {
        &self.primary
    }

    /// The replicas, in the order in which they were given.
    pub fn replicas(&self) -> &[NodeAddress]
        ensures { result.now ≡ self.now.replicas }
    {
        self.replicas.as_slice()
    }

    /// Adds a range at the end.
    ///
    /// # Errors
    ///
    /// If memory runs out, the shard stays as it was.
    pub fn push_range(&mut self, start: u16, end: u16) -> Result<(), AllocError>
        ensures unchanged { OnErr result (self.new ≡ self.old) }
        ensures added { OnOk result (self.new ≡ record {
          ranges = self.old.ranges ++ (start, end) ∷ [];
          primary = self.old.primary;
          replicas = self.old.replicas;
        }) }
    {
        self.ranges.push((start, end))?;
        Ok(())
    }

    /// A shard of one range, with copies of these nodes.
    ///
    /// # Errors
    ///
    /// If memory runs out.
    pub fn of_range(
        alloc: Global,
        start: u16,
        end: u16,
        primary: &NodeAddress,
        replicas: &Vec<NodeAddress>,
    ) -> Result<Self, AllocError>
        ensures { IfOk result (λ s. s ≡ record {
          ranges = (start, end) ∷ [];
          primary = primary.now;
          replicas = replicas.now.items;
        }) }
    {
        let mut ranges = Vec::new(alloc);
        ranges.push((start, end))?;
        Ok(Shard {
            ranges,
            primary: primary.clone()?,
            replicas: replicas.clone()?,
        })
    }
}
