ghost use Rattle.std.specs.Prelude.{◌≡◌, ◌++◌, map, IfOk, OnOk, MatchOption};
ghost use Rattle.cluster_map.specs.RangeMap.{Ascends, IsUncovered};
ghost use Rattle.cluster_map.specs.Inner.Topology.{AllPlaces};
ghost use Rattle.cluster_map.specs.ShardsToGive.{shards_to_give};
ghost use Rattle.cluster_map.specs.Topology.{place_entry, topology_of, places_left, shards_left, IsShardAt};

use crate::read_routing::shard::Shard;
use crate::read_routing::shards::Shards;
use crate::slot_range_map::SlotRangeMap;
use std::alloc::{AllocError, Global};
use std::marker::Model;

/// The shards of a cluster, found by slot.
#[derive(Debug, Drop)]
pub struct ClusterTopology {
    shards: Vec<Shard>,
    // the index of each range's shard
    ranges: SlotRangeMap<usize>,
    // the indices of shards that have a range, in order of the first range
    order: Vec<usize>,
}

impl Model for ClusterTopology {
    ghost use Rattle.std.specs.Prelude.{◌≡◌, ◌<◌, ℕ, length, Contains, slice_index};
    ghost use Rattle.cluster_map.specs.RangeMap.{RangeEntry, value_of};
    ghost use Rattle.cluster_map.specs.Topology.{Topology, places_left};

    ghost Value = { Topology };

    ghost view = { λ t. record { shards = t.shards.items; ranges = t.ranges } };

    ghost invariant = { λ t. (t.order.items ≡ places_left t.ranges) ×
        ((k : ℕ) → k < length t.order.items → slice_index t.order.items k < length t.shards.items) ×
        ((e : RangeEntry ℕ) → Contains t.ranges e → value_of e < length t.shards.items) };
}

impl ClusterTopology {
    /// The topology of these shards. Their ranges are inserted in order, and a range replaces an
    /// earlier one with the same end.
    ///
    /// # Errors
    ///
    /// If memory runs out.
    pub fn from_shards(alloc: Global, shards: Vec<Shard>) -> Result<Self, AllocError>
        ensures put { IfOk result (λ topology. topology ≡ topology_of shards.items) }
    {
        let mut entries = Vec::with_capacity(alloc, range_count(&shards))?;
        for place in 0..shards.len() {
            let shard = &shards[place];
            push_ranges(&mut entries, shard.slot_ranges(), place)?;
        }
        let mut ranges: SlotRangeMap<usize> = SlotRangeMap::new(alloc);
        ranges.extend(entries)?;
        let order = first_places(alloc, shards.len(), &ranges)?;
        Ok(ClusterTopology {
            shards,
            ranges,
            order,
        })
    }

    /// The shard that serves the slot, if a range covers it. O(log n).
    #[inline]
    pub fn shard_for_slot(&self, slot: u16) -> Option<&Shard>
        ensures shard { MatchOption result (IsUncovered self.now.ranges slot)
            (λ shard. IsShardAt self.now slot shard.now) }
        ensures order { Ascends self.now.ranges }
    {
        let place = self.ranges.get(slot)?;
        Some(&self.shards[*place])
    }

    /// The shards that still have a range, in order of the end of the first range.
    pub fn shards(&self) -> Shards<'_>
        ensures all { shards_to_give result ≡ shards_left self.now }
    {
        Shards {
            shards: self.shards.as_slice(),
            order: self.order.as_slice(),
        }
    }
}

impl Clone for ClusterTopology {
    ghost is_clone = { λ a b. b ≡ a };

    fn clone(&self) -> Result<Self, AllocError> {
        Ok(ClusterTopology {
            shards: copy_shards(&self.shards)?,
            ranges: self.ranges.clone()?,
            order: copy_places(&self.order)?,
        })
    }
}

fn copy_shards(shards: &Vec<Shard>) -> Result<Vec<Shard>, AllocError>
    ensures { IfOk result (λ copies. copies.items ≡ shards.now.items) }
{
    shards.clone()
}

fn copy_places(places: &Vec<usize>) -> Result<Vec<usize>, AllocError>
    ensures { IfOk result (λ copies. copies.items ≡ places.now.items) }
{
    places.clone()
}

/// Number of ranges of the shards. It has no contract, since it only makes room.
fn range_count(shards: &[Shard]) -> usize {
    let mut count = 0_usize;
    for shard in shards {
        count = count.saturating_add(shard.slot_ranges().len());
    }
    count
}

/// Adds the ranges of a shard, each with the index of the shard.
fn push_ranges(
    entries: &mut Vec<(u16, u16, usize)>,
    shard_ranges: &[(u16, u16)],
    place: usize,
) -> Result<(), AllocError>
    ensures { OnOk result
        (entries.new.items ≡ entries.old.items ++ map (place_entry place) shard_ranges.now) }
{
    for range in shard_ranges {
        entries.push((range.0, range.1, place))?;
    }
    Ok(())
}

/// The indices of shards that have a range, in order of the first range. Each is below `count`.
fn first_places(
    alloc: Global,
    count: usize,
    ranges: &SlotRangeMap<usize>,
) -> Result<Vec<usize>, AllocError>
    requires { AllPlaces count ranges.now }
    ensures { IfOk result (λ places. places.items ≡ places_left ranges.now) }
{
    let mut is_listed = vec![in alloc; false; count]?;
    let mut places = Vec::with_capacity(alloc, count)?;
    for place in ranges.values() {
        if !is_listed[*place] {
            is_listed[*place] = true;
            places.push(*place)?;
        }
    }
    Ok(places)
}
