ghost use Rattle.std.specs.Prelude.{◌≡◌, IfOk};
ghost use Rattle.cluster_map.specs.EachOnce.{primaries_in};
ghost use Rattle.cluster_map.specs.Targets.{addresses_behind};

use crate::slot_map::SlotAddrs;
use crate::slot_map::node_set::{NodeSet, index_in};
use crate::slot_range_map::SlotRangeMap;
use cluster_slots::NodeAddress;
use std::alloc::{AllocError, Global};
use std::cell::Cell;

/// Each primary of a few ranges once. Compares each with those before it.
pub(crate) fn primaries_of_few<'a>(
    alloc: Global,
    ranges: &'a SlotRangeMap<SlotAddrs>,
) -> Result<Vec<&'a NodeAddress>, AllocError>
    ensures { IfOk result (λ found. addresses_behind found.items ≡ primaries_in ranges.now) }
{
    let mut found: Vec<&'a NodeAddress> = Vec::with_capacity(alloc, ranges.len())?;
    for addrs in ranges.values() {
        let node = addrs.primary();
        let index = index_in(&found, node);
        if index == found.len() {
            found.push(node)?;
        }
    }
    Ok(found)
}

/// Each primary of any ranges once. A set finds those before it.
pub(crate) fn primaries_of_many<'a>(
    alloc: Global,
    ranges: &'a SlotRangeMap<SlotAddrs>,
) -> Result<Vec<&'a NodeAddress>, AllocError>
    ensures { IfOk result (λ found. addresses_behind found.items ≡ primaries_in ranges.now) }
{
    let misses = Cell::new(0);
    let mut seen = NodeSet::new(alloc, ranges, &misses)?;
    for addrs in ranges.values() {
        seen.insert_full(addrs.primary())?;
    }
    seen.into_nodes()
}
