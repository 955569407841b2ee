//! The node of a key.
ghost use Rattle.std.specs.Prelude.{MatchOption};
ghost use Rattle.cluster_map.specs.KeySlot.{key_slot};
ghost use Rattle.cluster_map.specs.RangeMap.{IsUncovered};
ghost use Rattle.cluster_map.specs.RouteNode.{IsNodeOfRoute};
ghost use Rattle.cluster_slots.specs.declared.slot.SlotAddr.TheVariants.{Master};

use cluster_map::{NodeAddress, Route, SlotAddr, SlotMap};

/// The primary that a `SET` of the key goes to, if the map has the key's slot.
pub fn primary_of<'a>(map: &'a SlotMap, key: &[u8]) -> Option<&'a NodeAddress>
    ensures { MatchOption result
        (IsUncovered map.now (key_slot key.now))
        (λ node. IsNodeOfRoute map.now (record { slot = key_slot key.now; addr = Master }) 0
        node.now) }
{
    map.slot_addr_for_route(Route::with_key(key, SlotAddr::Master), None, 0)
}
