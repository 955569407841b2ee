ghost use Rattle.std.specs.Prelude.{ℕ, ◌<◌, length, slice_index};
ghost use Rattle.std.specs.Iterator.{YieldsFirstRef, item_count};

use crate::read_routing::shard::Shard;

/// The shards of a `ClusterTopology` that still have a range.
#[derive(Drop)]
pub struct Shards<'a> {
    pub(crate) shards: &'a [Shard],
    pub(crate) order: &'a [usize],
    ghost within: { (k : ℕ) → k < length order.now → slice_index order.now k < length shards.now },
}

impl<'a> Iterator for Shards<'a> {
    ghost use Rattle.cluster_map.specs.ShardsToGive.{shards_to_give};

    type Item = &'a Shard;

    ghost next_gives = { YieldsFirstRef shards_to_give };

    ghost remaining = { item_count (λ s. s.order.now) };

    fn next(&mut self) -> Option<&'a Shard> {
        let (first, others) = self.order.split_first()?;
        let shard = &self.shards[*first];
        self.order = others;
        Some(shard)
    }
}
