//! The open parts of one caller on one slot.
//!
//! A cluster may refuse a command and run the next one. `SET a 1` and `SET a 2` went out on one link,
//! and the replies are `-ASK 15495 n3:1` and `+OK`. If `SET a 1` were asked again, `a` would end as 1.
//! So the first part is *overtaken*, and is never asked again.

ghost use Rattle.std.specs.Prelude.{◌≡◌, ◌<◌, ◌≤◌, true, false, ℕ, OnOk, OnErr, IfSome, IfNone};
ghost use Rattle.session_core.specs.Inner.Lane.{In, joined, with_status, MayJoin, MayBecome, IsNext, IsLinkOf};
ghost use Rattle.session_core.specs.Inner.LaneForms.{part_lane};
ghost use Rattle.session_core.specs.Inner.Tied.{IsEmpty};

use crate::lane_part::{LaneAskable, LanePart};
use crate::lane_queues::LaneQueues;
use crate::ordered_part::Status;
use std::alloc::{AllocError, Global};
use std::marker::Model;

/// Mostly one part is open on a slot, and takes no memory. When another one joins it, both go to queues.
/// Later parts do so, too, until none is open.
#[derive(Drop)]
enum LaneForm {
    /// The only open part.
    One(LanePart),
    /// Any open parts.
    Many(Box<LaneQueues>),
}

/// The open parts of one caller on one slot, by their places among all parts of the caller.
///
/// The order is kept by one rule. A part may be asked if it waits, each earlier part is done or on its
/// way on the same link, and no later part is on its way or settled.
#[derive(Drop)]
pub(crate) struct Lane {
    form: LaneForm,
}

impl Model for Lane {
    ghost use Rattle.session_core.specs.Inner.Lane as lane;
    ghost use Rattle.session_core.specs.Inner.LaneForms.{lane_in};

    ghost Value = { lane.Lane };

    ghost view = { λ s. lane_in s.form };
}

impl Lane {
    /// A lane that has this part alone. Takes no memory.
    pub(crate) fn new(part: LanePart) -> Lane
        ensures { result ≡ part_lane part }
    {
        Lane {
            form: LaneForm::One(part),
        }
    }

    /// Adds a part at the end, which waits. It may be asked and refused without more memory.
    ///
    /// # Errors
    ///
    /// If memory runs out. Nothing changes then.
    pub(crate) fn join(&mut self, alloc: Global, place: u64) -> Result<(), AllocError>
        requires { MayJoin place self.old }
        ensures joined { OnOk result (self.new ≡ joined place self.old) }
        ensures err { OnErr result (self.new ≡ self.old) }
    {
        match &mut self.form {
            LaneForm::One(part) => {
                let mut queues = part.queues(alloc)?;
                queues.join(place)?;
                self.form = LaneForm::Many(Box::new(alloc, queues)?);
                Ok(())
            }
            LaneForm::Many(queues) => queues.join(place),
        }
    }

    /// The part that may be asked now. There is one at most.
    ///
    /// With `SET a 1` and `SET a 2`, the first may be asked on any link. When that is on its way on
    /// link 7, the second may be asked on link 7 only.
    pub(crate) fn askable(&self) -> Option<LaneAskable>
        ensures next { IfSome result (λ next. IsNext next.place self.now) }
        ensures link { IfSome result (λ next. IsLinkOf next.link self.now) }
        ensures none { IfNone result ((place : ℕ) → IsNext place self.now → ⊥) }
    {
        match &self.form {
            LaneForm::One(part) => part.askable(),
            LaneForm::Many(queues) => queues.askable(),
        }
    }

    /// The first part that is overtaken: it waits, and a later part is settled. One part alone is not.
    pub(crate) fn overtaken(&self) -> Option<u64>
        ensures overtaken { IfSome result (λ place. In place self.now.waiting × (place < self.now.settled_end)) }
        ensures none { IfNone result ((place : ℕ) → In place self.now.waiting → self.now.settled_end ≤ place) }
    {
        match &self.form {
            LaneForm::One(_) => None,
            LaneForm::Many(queues) => queues.overtaken(),
        }
    }

    /// Gives the part at a place this status. Returns whether a part is open then. If none is, the lane has
    /// to be let go.
    pub(crate) fn change(&mut self, place: u64, status: Status) -> bool
        requires { MayBecome place status self.old }
        ensures changed { result ≡ true → self.new ≡ with_status place status self.old }
        ensures empty { result ≡ false → IsEmpty (with_status place status self.old) }
    {
        match &mut self.form {
            LaneForm::One(part) => match part.with_status(status) {
                Some(changed) => {
                    *part = changed;
                    true
                }
                None => false,
            },
            LaneForm::Many(queues) => {
                queues.change(place, status);
                !queues.is_empty()
            }
        }
    }
}
