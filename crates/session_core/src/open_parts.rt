//! The open parts of one caller, by slot.

ghost use Rattle.std.specs.Prelude.{◌≡◌, ◌<◌, ◌≤◌, ℕ, true, [], None, OnOk, OnErr, IfSome, IfNone};
ghost use Rattle.session_core.specs.declared.part.PartOrder.TheVariants.{OfSlot};
ghost use Rattle.session_core.specs.Inner.Lane.{In, joined, with_status, MayJoin, MayBecome, IsNext, IsLinkOf};
ghost use Rattle.session_core.specs.Inner.Lone.{with_lone, IsApart};
ghost use Rattle.session_core.specs.Inner.Tied.{lane_of, Stepped, AreSame};

use crate::lane::Lane;
use crate::lane_part::LaneAskable;
use crate::lanes;
use crate::lanes::Lanes;
use crate::lone_part::LonePart;
use crate::ordered_part::Status;
use crate::part::PartOrder;
use std::alloc::{AllocError, Global};
use std::collections::BTreeMap;
use std::marker::Model;

/// The open parts of one caller, by slot. Mostly a caller has one, which takes no memory. When another
/// part joins it, both go to lanes. Later parts do so, too, until all lanes are empty.
#[derive(Drop)]
pub(crate) struct OpenParts {
    /// The only open part. Then there is no lane.
    lone: Option<LonePart>,
    lanes: Lanes,
}

impl Model for OpenParts {
    ghost use Rattle.session_core.specs.Inner.Tied.{Lanes};
    ghost use Rattle.session_core.specs.Inner.Lone.{with_lone, IsApart};

    ghost Value = { Lanes };

    ghost view = { λ s. with_lone s.lone s.lanes.entries };

    ghost invariant = { λ s. IsApart s.lone s.lanes.entries };
}

impl OpenParts {
    /// No parts. Takes no memory.
    pub(crate) fn new(alloc: Global) -> OpenParts
        ensures { result ≡ [] }
    {
        OpenParts {
            lone: None,
            lanes: BTreeMap::new(alloc),
        }
    }

    /// Takes each part away. It keeps its memory.
    pub(crate) fn clear(&mut self)
        ensures { self.new ≡ [] }
    {
        self.lone = None;
        lanes::clear(&mut self.lanes);
    }

    /// Adds a part, if it has a slot.
    ///
    /// # Errors
    ///
    /// If memory runs out. Nothing changes then.
    pub(crate) fn join(
        &mut self,
        alloc: Global,
        order: PartOrder,
        place: u64,
    ) -> Result<(), AllocError>
        requires { (slot : ℕ) → order ≡ OfSlot slot → MayJoin place (lane_of slot self.old) }
        ensures joined { OnOk result (Stepped order (joined place) self.old self.new) }
        ensures err { OnErr result (AreSame self.old self.new) }
        ensures slot { OnErr result ((slot : ℕ) × (order ≡ OfSlot slot)) }
    {
        let PartOrder::OfSlot(slot) = order else {
            return Ok(());
        };
        if self.is_empty() {
            self.lone = Some(LonePart::new(slot, place));
            return Ok(());
        }
        enter_lanes(&mut self.lone, &mut self.lanes)?;
        lanes::join(alloc, &mut self.lanes, slot, place)
    }

    /// Gives a part of a slot this status.
    #[inline(always)]
    pub(crate) fn change(&mut self, order: PartOrder, place: u64, status: Status)
        requires { (slot : ℕ) → order ≡ OfSlot slot → MayBecome place status (lane_of slot self.old) }
        ensures { Stepped order (with_status place status) self.old self.new }
    {
        let PartOrder::OfSlot(slot) = order else {
            return;
        };
        match self.lone {
            Some(lone) => self.lone = lone.with_status(status),
            None => lanes::change(&mut self.lanes, slot, place, status),
        }
    }

    /// The part of a slot that may be asked now, by its order with the others of the slot.
    pub(crate) fn askable(&self, slot: u16) -> Option<LaneAskable>
        ensures next { IfSome result (λ next. IsNext next.place (lane_of slot self.now)) }
        ensures link { IfSome result (λ next. IsLinkOf next.link (lane_of slot self.now)) }
        ensures none { IfNone result ((place : ℕ) → IsNext place (lane_of slot self.now) → ⊥) }
    {
        match self.lone {
            Some(lone) => lone.askable(slot),
            None => lanes::askable(&self.lanes, slot),
        }
    }

    /// The first part of a slot that is overtaken. A part that stands alone is not.
    pub(crate) fn overtaken(&self, slot: u16) -> Option<u64>
        ensures overtaken { IfSome result (λ place. In place (lane_of slot self.now).waiting
            × (place < (lane_of slot self.now).settled_end)) }
        ensures none { IfNone result ((place : ℕ) → In place (lane_of slot self.now).waiting
            → (lane_of slot self.now).settled_end ≤ place) }
    {
        match self.lone {
            Some(_) => None,
            None => lanes::overtaken(&self.lanes, slot),
        }
    }

    /// Whether there is no part.
    fn is_empty(&self) -> bool
        ensures { result ≡ true → self.now ≡ [] }
    {
        self.lone.is_none() && self.lanes.is_empty()
    }
}

/// Puts the part that stands alone into a lane, if there is one.
fn enter_lanes(lone: &mut Option<LonePart>, lanes: &mut Lanes) -> Result<(), AllocError>
    requires { IsApart lone.old lanes.old.entries }
    ensures entered { OnOk result (lone.new ≡ None) }
    ensures apart { IsApart lone.new lanes.new.entries }
    ensures same { AreSame (with_lone lone.old lanes.old.entries) (with_lone lone.new lanes.new.entries) }
{
    let Some(LonePart { slot, part }) = *lone else {
        return Ok(());
    };
    lanes.insert(slot, Lane::new(part))?;
    *lone = None;
    Ok(())
}
