//! The lanes of one caller, by slot.

ghost use Rattle.std.specs.Prelude.{◌≡◌, ◌<◌, ◌≤◌, ℕ, [], OnOk, OnErr, IfSome, IfNone};
ghost use Rattle.session_core.specs.declared.part.PartOrder.TheVariants.{OfSlot};
ghost use Rattle.session_core.specs.declared.ordered_part.Status.{Status};
ghost use Rattle.session_core.specs.Inner.Lane.{In, joined, with_status, MayJoin, MayBecome, IsNext, IsLinkOf};
ghost use Rattle.session_core.specs.Inner.Tied.{lane_of, Stepped, AreSame};

use crate::lane::Lane;
use crate::lane_part::{LaneAskable, LanePart};
use crate::ordered_part::Status;
use std::alloc::{AllocError, Global};
use std::collections::BTreeMap;
use std::collections::btree_map::Entry;

/// The lanes of one caller, by slot. A slot without open parts has none.
pub(crate) type Lanes = BTreeMap<u16, Lane>;

/// Takes each lane away. A tree that is empty keeps its memory, which its own `clear` would free.
pub(crate) fn clear(lanes: &mut Lanes)
    ensures { lanes.new.entries ≡ [] }
{
    if !lanes.is_empty() {
        lanes.clear();
    }
}

/// Adds a part to the lane of its slot.
pub(crate) fn join(
    alloc: Global,
    lanes: &mut Lanes,
    slot: u16,
    place: u64,
) -> Result<(), AllocError>
    requires { MayJoin place (lane_of slot lanes.old.entries) }
    ensures joined { OnOk result (Stepped (OfSlot slot) (joined place) lanes.old.entries lanes.new.entries) }
    ensures err { OnErr result (AreSame lanes.old.entries lanes.new.entries) }
{
    match lanes.entry(slot)? {
        Entry::Occupied(lane) => lane.into_mut().join(alloc, place),
        Entry::Vacant(vacant) => {
            vacant.insert(Lane::new(LanePart::new(place)));
            Ok(())
        }
    }
}

/// Gives a part of a slot a status in its lane.
pub(crate) fn change(lanes: &mut Lanes, slot: u16, place: u64, status: Status)
    requires { MayBecome place status (lane_of slot lanes.old.entries) }
    ensures { Stepped (OfSlot slot) (with_status place status) lanes.old.entries lanes.new.entries }
{
    if let Ok(Entry::Occupied(mut lane)) = lanes.entry(slot) {
        if !lane.get_mut().change(place, status) {
            lane.remove();
        }
    }
}

/// The part of the lane that may be asked now.
pub(crate) fn askable(lanes: &Lanes, slot: u16) -> Option<LaneAskable>
    ensures next { IfSome result (λ next. IsNext next.place (lane_of slot lanes.now.entries)) }
    ensures link { IfSome result (λ next. IsLinkOf next.link (lane_of slot lanes.now.entries)) }
    ensures none { IfNone result ((place : ℕ) → IsNext place (lane_of slot lanes.now.entries) → ⊥) }
{
    match lanes.get(&slot) {
        Some(lane) => lane.askable(),
        None => None,
    }
}

/// The first part of the lane that is overtaken.
pub(crate) fn overtaken(lanes: &Lanes, slot: u16) -> Option<u64>
    ensures overtaken { IfSome result (λ place. In place (lane_of slot lanes.now.entries).waiting
        × (place < (lane_of slot lanes.now.entries).settled_end)) }
    ensures none { IfNone result ((place : ℕ) → In place (lane_of slot lanes.now.entries).waiting
        → (lane_of slot lanes.now.entries).settled_end ≤ place) }
{
    match lanes.get(&slot) {
        Some(lane) => lane.overtaken(),
        None => None,
    }
}
