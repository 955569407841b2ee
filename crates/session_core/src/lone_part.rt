//! A part that stands alone: no other part of its caller is open and has a slot.

ghost use Rattle.std.specs.Prelude.{◌≡◌, ℕ, false, IfSome, IfNone};
ghost use Rattle.session_core.specs.Inner.Lane.{with_status, MayBecome, IsNext, IsLinkOf};
ghost use Rattle.session_core.specs.Inner.LaneForms.{part_lane};
ghost use Rattle.session_core.specs.Inner.Lone.{alone};
ghost use Rattle.session_core.specs.Inner.Tied.{lane_of, IsEmpty};

use crate::lane_part::{LaneAskable, LanePart};
use crate::ordered_part::Status;

/// The only open part of a caller that has a slot.
#[derive(Debug, Clone, Copy)]
pub(crate) struct LonePart {
    pub(crate) slot: u16,
    pub(crate) part: LanePart,
}

impl LonePart {
    /// A part that waits, and was not asked yet.
    pub(crate) fn new(slot: u16, place: u64) -> LonePart
        ensures { result ≡ record { slot = slot; part = record { place = place; is_asked = false; link = 0 } } }
    {
        LonePart {
            slot,
            part: LanePart::new(place),
        }
    }

    /// The part with this status, if it is open then.
    pub(crate) fn with_status(&self, status: Status) -> Option<LonePart>
        requires { MayBecome self.now.part.place status (part_lane self.now.part) }
        ensures slot { IfSome result (λ lone. lone.slot ≡ self.now.slot) }
        ensures some { IfSome result (λ lone. part_lane lone.part ≡ with_status self.now.part.place status (part_lane self.now.part)) }
        ensures none { IfNone result (IsEmpty (with_status self.now.part.place status (part_lane self.now.part))) }
    {
        match self.part.with_status(status) {
            Some(part) => Some(LonePart {
                slot: self.slot,
                part,
            }),
            None => None,
        }
    }

    /// The part, if it is of this slot and waits. It may be asked on any link.
    pub(crate) fn askable(&self, slot: u16) -> Option<LaneAskable>
        ensures next { IfSome result (λ next. IsNext next.place (lane_of slot (alone self.now))) }
        ensures link { IfSome result (λ next. IsLinkOf next.link (lane_of slot (alone self.now))) }
        ensures none { IfNone result ((place : ℕ) → IsNext place (lane_of slot (alone self.now)) → ⊥) }
    {
        if self.slot != slot {
            return None;
        }
        self.part.askable()
    }
}
