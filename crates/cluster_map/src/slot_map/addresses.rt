ghost use Rattle.std.specs.Prelude.{◌≡◌, ◌++◌, List, OnOk};
ghost use Rattle.std.specs.Iterator.{YieldsFirstRef, item_count};
ghost use Rattle.cluster_slots.specs.Address.{Address};
ghost use Rattle.cluster_map.specs.EachOnce.{each_once};
ghost use Rattle.cluster_map.specs.SlotNodes.{nodes_in};
ghost use Rattle.cluster_map.specs.Targets.{left_in};

use crate::slot_map::SlotAddrs;
use crate::slot_map::node_set::NodeSet;
use crate::slot_range_map::SlotRangeMap;
use cluster_slots::NodeAddress;
use std::alloc::AllocError;

/// The nodes of a range of slots: the primary, and then the replicas.
#[derive(Drop)]
pub struct NodeAddresses<'a> {
    primary: Option<&'a NodeAddress>,
    replicas: &'a [NodeAddress],
}

impl<'a> Iterator for NodeAddresses<'a> {
    type Item = &'a NodeAddress;

    ghost next_gives = { YieldsFirstRef left_in };

    ghost remaining = { item_count left_in };

    fn next(&mut self) -> Option<&'a NodeAddress> {
        if let Some(primary) = self.primary.take() {
            return Some(primary);
        }
        let (first, rest) = self.replicas.split_first()?;
        self.replicas = rest;
        Some(first)
    }
}

impl<'a> IntoIterator for &'a SlotAddrs {
    type Item = &'a NodeAddress;

    type IntoIter = NodeAddresses<'a>;

    ghost into_iter_gives = { λ addrs it. left_in it ≡ nodes_in addrs.now };

    fn into_iter(self) -> NodeAddresses<'a> {
        NodeAddresses {
            primary: Some(&self.primary),
            replicas: self.replicas.as_slice(),
        }
    }
}

/// Inserts the nodes of a range.
pub(crate) fn insert_all<'a>(
    seen: &mut NodeSet<'a, '_, &SlotRangeMap<SlotAddrs>>,
    addrs: &'a SlotAddrs,
) -> Result<(), AllocError>
    ensures { OnOk result ((before : List Address) → seen.old ≡ each_once before
        → seen.new ≡ each_once (before ++ nodes_in addrs.now)) }
{
    for address in addrs {
        seen.insert_full(address)?;
    }
    Ok(())
}
