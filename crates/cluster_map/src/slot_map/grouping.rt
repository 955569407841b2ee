ghost use Rattle.std.specs.Prelude.{◌≡◌, ◌<◌, ◌^◌, ◌++◌, ◌∷◌, [], List, All, map, IfOk, OnOk};
ghost use Rattle.cluster_map.specs.SlotNodes.{SlotNodes};
ghost use Rattle.cluster_map.specs.RangeMap.{RangeEntry, Ascends, end_of};
ghost use Rattle.cluster_map.specs.Topology.{shards_of};
ghost use Rattle.cluster_map.specs.Inner.Topology.{primary_of};

use crate::read_routing::Shard;
use crate::slot_map::SlotAddrs;
use crate::slot_map::node_set::NodeSet;
use crate::slot_range_map::SlotRangeMap;
use std::alloc::{AllocError, Global};
use std::cell::Cell;

/// The shards of the ranges, by first appearance of their primaries.
pub(crate) fn shards_of(
    alloc: Global,
    ranges: &SlotRangeMap<SlotAddrs>,
) -> Result<Vec<Shard>, AllocError>
    ensures shards { IfOk result (λ shards. shards.items ≡ shards_of ranges.now) }
    ensures ends { IfOk result (λ shards. All (λ e. end_of e < 2 ^ 16) ranges.now) }
    ensures order { Ascends ranges.now }
{
    let entries = ranges.iter();
    let misses = Cell::new(0);
    let mut seen = NodeSet::new(alloc, ranges, &misses)?;
    let mut shards = Vec::new(alloc);
    for (start, end, addrs) in entries {
        add_range(alloc, &mut seen, &mut shards, start, end, addrs)?;
    }
    Ok(shards)
}

/// Adds a range to the shard with its primary, or makes that shard. The primaries of the shards are
/// in the set, each at the index of its shard.
fn add_range<'a>(
    alloc: Global,
    seen: &mut NodeSet<'a, '_, &SlotRangeMap<SlotAddrs>>,
    shards: &mut Vec<Shard>,
    start: u16,
    end: u16,
    addrs: &'a SlotAddrs,
) -> Result<(), AllocError>
    requires { seen.old ≡ map primary_of shards.old.items }
    ensures nodes { OnOk result (seen.new ≡ map primary_of shards.new.items) }
    ensures shards { OnOk result ((es : List (RangeEntry SlotNodes)) → shards.old.items ≡ shards_of es
        → shards.new.items ≡ shards_of (es ++ (start, end, addrs.now) ∷ [])) }
    ensures end { end < 2 ^ 16 }
{
    let (place, is_new) = seen.insert_full(addrs.primary())?;
    if is_new {
        shards.push(Shard::of_range(alloc, start, end, addrs.primary(), addrs.replicas())?)?;
    } else {
        let shard = &mut shards[place];
        shard.push_range(start, end)?;
    }
    Ok(())
}
