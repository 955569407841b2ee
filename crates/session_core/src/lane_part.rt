//! A part that is the only open one of its caller on its slot.

ghost use Rattle.std.specs.Prelude.{◌≡◌, ℕ, false, IfOk, IfSome, IfNone};
ghost use Rattle.session_core.specs.Inner.Lane.{with_status, MayBecome, IsNext, IsLinkOf};
ghost use Rattle.session_core.specs.Inner.LaneForms.{part_lane};
ghost use Rattle.session_core.specs.Inner.Tied.{IsEmpty};

use crate::lane_queues::LaneQueues;
use crate::ordered_part::Status;
use std::alloc::{AllocError, Global};

/// The part of a lane that may be asked now.
#[derive(Debug, Clone, Copy)]
pub(crate) struct LaneAskable {
    /// Its place among all parts of the caller.
    pub(crate) place: u64,
    /// The only link that it may be asked on, since earlier parts are on their way there. If none is
    /// on its way, it may be asked on any link.
    pub(crate) link: Option<usize>,
}

/// The only open part of its caller on a slot.
#[derive(Debug, Clone, Copy)]
pub(crate) struct LanePart {
    /// Its place among all parts of the caller.
    place: u64,
    /// Whether it is on its way. Else it waits.
    is_asked: bool,
    /// The link that it was asked on last, or 0.
    link: usize,
}

impl LanePart {
    /// A part that waits, and was not asked yet.
    pub(crate) fn new(place: u64) -> LanePart
        ensures { result ≡ record { place = place; is_asked = false; link = 0 } }
    {
        LanePart {
            place,
            is_asked: false,
            link: 0,
        }
    }

    /// The part with this status, if it is open then.
    pub(crate) fn with_status(&self, status: Status) -> Option<LanePart>
        requires { MayBecome self.now.place status (part_lane self.now) }
        ensures some { IfSome result (λ part. part_lane part ≡ with_status self.now.place status (part_lane self.now)) }
        ensures none { IfNone result (IsEmpty (with_status self.now.place status (part_lane self.now))) }
    {
        let LanePart { place, link, .. } = *self;
        match status {
            Status::Waits => Some(LanePart {
                place,
                is_asked: false,
                link,
            }),
            Status::Asked(link) => Some(LanePart {
                place,
                is_asked: true,
                link,
            }),
            Status::Settled | Status::Unsent => None,
        }
    }

    /// The part, if it waits. It may be asked on any link.
    pub(crate) fn askable(&self) -> Option<LaneAskable>
        ensures next { IfSome result (λ next. IsNext next.place (part_lane self.now)) }
        ensures link { IfSome result (λ next. IsLinkOf next.link (part_lane self.now)) }
        ensures none { IfNone result ((place : ℕ) → IsNext place (part_lane self.now) → ⊥) }
    {
        if self.is_asked {
            return None;
        }
        Some(LaneAskable {
            place: self.place,
            link: None,
        })
    }

    /// Queues that have this part alone.
    ///
    /// # Errors
    ///
    /// If memory runs out.
    pub(crate) fn queues(&self, alloc: Global) -> Result<LaneQueues, AllocError>
        ensures { IfOk result (λ queues. queues ≡ part_lane self.now) }
    {
        let mut queues = LaneQueues::new(alloc);
        queues.join(self.place)?;
        queues.change(self.place, Status::Asked(self.link));
        if !self.is_asked {
            queues.change(self.place, Status::Waits);
        }
        Ok(queues)
    }
}
