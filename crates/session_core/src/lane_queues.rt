//! The open parts of one caller on one slot, as queues.

ghost use Rattle.std.specs.Prelude.{◌≡◌, ◌+◌, ◌<◌, ◌≤◌, true, ℕ, OnOk, OnErr, IfSome, IfNone};
ghost use Rattle.session_core.specs.declared.ordered_part.Status.{Status};
ghost use Rattle.session_core.specs.declared.ordered_part.Status.TheVariants.{Waits, Asked};
ghost use Rattle.session_core.specs.Inner.Lane.{In, no_lane, joined, with_status, MayJoin, MayBecome, IsFirst, IsNext, IsLinkOf};
ghost use Rattle.session_core.specs.Inner.Tied.{IsEmpty};

use crate::lane_part::LaneAskable;
use crate::ordered_part::Status;
use crate::sorted_places::{move_before, put_place, take_first, take_place};
use std::alloc::{AllocError, Global};
use std::collections::VecDeque;
use std::marker::Model;

/// The open parts of one caller on one slot, in queues by whether they are on their way.
#[derive(Drop)]
pub(crate) struct LaneQueues {
    /// Parts that wait again: each was refused while another was on its way. When none is on its way, they move
    /// to `later`. So a part that is refused moves no other part of `later`.
    refused: VecDeque<u64>,
    /// The other parts that wait. They come after those of `refused`, and after those on their way.
    later: VecDeque<u64>,
    /// The parts on their way.
    asked: VecDeque<u64>,
    /// The place after the last settled part, or 0.
    settled_end: u64,
    /// The link of all parts that are on their way.
    link: usize,
}

impl Model for LaneQueues {
    ghost use Rattle.std.specs.Prelude.{◌+◌, ◌≤◌, ◌++◌, length};
    ghost use Rattle.std.specs.VecDeque.{deque_capacity};
    ghost use Rattle.session_core.specs.Inner.Lane as lane;

    ghost Value = { lane.Lane };

    ghost view = { λ s. record { waiting = s.refused.items ++ s.later.items; asked = s.asked.items; settled_end = s.settled_end; link = s.link } };

    ghost invariant = { λ s. lane.AreInOrder s.refused.items s.later.items s.asked.items
        × (length s.refused.items + length s.later.items + length s.asked.items ≤ deque_capacity s.refused + 1)
        × (length s.refused.items + length s.later.items + length s.asked.items ≤ deque_capacity s.later)
        × (length s.refused.items + length s.later.items + length s.asked.items ≤ deque_capacity s.asked) };
}

impl LaneQueues {
    /// Queues without parts.
    pub(crate) fn new(alloc: Global) -> LaneQueues
        ensures { result ≡ no_lane }
    {
        LaneQueues {
            refused: VecDeque::new(alloc),
            later: VecDeque::new(alloc),
            asked: VecDeque::new(alloc),
            settled_end: 0,
            link: 0,
        }
    }

    /// Whether no part waits, and none is on its way.
    pub(crate) fn is_empty(&self) -> bool
        ensures { result ≡ true → IsEmpty self.now }
    {
        self.asked.is_empty() && self.later.is_empty() && self.refused.is_empty()
    }

    /// Adds a part at the end, which waits. It may be asked and refused without more memory.
    ///
    /// # Errors
    ///
    /// If memory runs out. Nothing changes then.
    pub(crate) fn join(&mut self, place: u64) -> Result<(), AllocError>
        requires { MayJoin place self.old }
        ensures joined { OnOk result (self.new ≡ joined place self.old) }
        ensures err { OnErr result (self.new ≡ self.old) }
    {
        let (refused, later, asked) = (self.refused.len(), self.later.len(), self.asked.len());
        self.refused.reserve(later + asked)?;
        self.later.reserve(refused + asked + 1)?;
        self.asked.reserve(refused + later + 1)?;
        self.later.push_back_reserved(place);
        Ok(())
    }

    /// The part that may be asked now. There is one at most.
    ///
    /// With `SET a 1` and `SET a 2`, the first may be asked on any link. When that is on its way on
    /// link 7, the second may be asked on link 7 only.
    pub(crate) fn askable(&self) -> Option<LaneAskable>
        ensures next { IfSome result (λ next. IsNext next.place self.now) }
        ensures link { IfSome result (λ next. IsLinkOf next.link self.now) }
        ensures none { IfNone result ((place : ℕ) → IsNext place self.now → ⊥) }
    {
        let place = self.first_waiting()?;
        if place < self.settled_end {
            return None;
        }
        match self.asked.back() {
            Some(last) if place <= *last => None,
            Some(_) => Some(LaneAskable {
                place,
                link: Some(self.link),
            }),
            None => Some(LaneAskable { place, link: None }),
        }
    }

    /// The first part that is overtaken: it waits, and a later part is settled.
    pub(crate) fn overtaken(&self) -> Option<u64>
        ensures overtaken { IfSome result (λ place. In place self.now.waiting × (place < self.now.settled_end)) }
        ensures none { IfNone result ((place : ℕ) → In place self.now.waiting → self.now.settled_end ≤ place) }
    {
        let place = self.first_waiting()?;
        if self.settled_end <= place {
            return None;
        }
        Some(place)
    }

    /// Gives the part at a place this status.
    pub(crate) fn change(&mut self, place: u64, status: Status)
        requires { MayBecome place status self.old }
        ensures { self.new ≡ with_status place status self.old }
    {
        match status {
            Status::Waits => self.put_back(place),
            Status::Asked(link) => self.note_asked(place, link),
            Status::Settled => {
                take_place(&mut self.asked, place);
                self.settled_end = self.settled_end.max(place + 1);
            }
            Status::Unsent => {
                take_place(&mut self.refused, place);
                take_place(&mut self.later, place);
            }
        }
    }

    /// The first part that waits.
    fn first_waiting(&self) -> Option<u64>
        ensures first { IfSome result (λ place. IsFirst place self.now.waiting) }
        ensures none { IfNone result ((place : ℕ) → In place self.now.waiting → ⊥) }
    {
        match self.refused.front() {
            Some(place) => Some(*place),
            None => Some(*self.later.front()?),
        }
    }

    /// The first part that waits is on its way.
    fn note_asked(&mut self, place: u64, link: usize)
        requires { MayBecome place (Asked link) self.old }
        ensures { self.new ≡ with_status place (Asked link) self.old }
    {
        take_first(&mut self.refused, &mut self.later);
        self.asked.push_back_reserved(place);
        self.link = link;
    }

    /// A part that is on its way waits again.
    fn put_back(&mut self, place: u64)
        requires { MayBecome place Waits self.old }
        ensures { self.new ≡ with_status place Waits self.old }
    {
        take_place(&mut self.asked, place);
        if self.asked.is_empty() {
            move_before(&mut self.refused, &mut self.later);
            put_place(&mut self.later, place);
        } else {
            put_place(&mut self.refused, place);
        }
    }
}
