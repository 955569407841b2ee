//! The parts of the calls that are kept.

use super::{Room, Target};
use session_core::Seat;
use std::alloc::{AllocError, Global};
use std::collections::VecDeque;

/// Stands for the number of a part where there is none.
pub(super) const NO_PART: u64 = u64::MAX;

/// Parts that wait for one thing, in the order in which they came: the numbers of the first and of the last one.
#[derive(Clone, Copy, Debug)]
pub(crate) struct PartList {
    pub(super) first: u64,
    pub(super) last: u64,
}

pub(super) const NO_PARTS: PartList = PartList {
    first: NO_PART,
    last: NO_PART,
};

/// A part, as the schedule has it.
#[derive(Debug, Drop)]
pub(super) struct PartRecord {
    pub(super) seat: Seat,
    pub(super) room: Room,
    /// The numbers of the parts before and after it in the list of its room.
    previous: u64,
    next: u64,
    pub(super) pause_end: u64,
    /// How many redirects it got.
    pub(super) redirect_count: u32,
    pub(super) target: Target,
}

/// The parts of the calls that are kept, in their order. Their numbers rise one by one.
#[derive(Drop)]
pub(super) struct Parts {
    /// The number of the first part.
    first: u64,
    records: VecDeque<PartRecord>,
}

impl Parts {
    /// No parts.
    pub(super) fn new(alloc: Global) -> Parts {
        Parts {
            first: 0,
            records: VecDeque::new(alloc),
        }
    }

    /// The number of the next part.
    pub(super) fn end(&self) -> u64 {
        self.first.saturating_add(self.records.len() as u64)
    }

    /// The part of this number, if it is kept.
    pub(super) fn get(&self, number: u64) -> Option<&PartRecord> {
        let index = number.checked_sub(self.first)?;
        self.records.get(index as usize)
    }

    /// The part of this number, to be changed.
    pub(super) fn get_mut(&mut self, number: u64) -> Option<&mut PartRecord> {
        let index = number.checked_sub(self.first)?;
        self.records.get_mut(index as usize)
    }

    /// Adds the parts of a call.
    ///
    /// # Errors
    ///
    /// If memory runs out. Nothing changes then.
    pub(super) fn add(&mut self, call: u64, count: usize) -> Result<(), AllocError> {
        let before = self.records.len();
        for part in 0..count {
            let record = PartRecord::new(Seat { call, part });
            if self.records.push_back(record).is_err() {
                self.records.truncate(before);
                return Err(AllocError);
            }
        }
        Ok(())
    }

    /// Takes back the last parts that were added.
    pub(super) fn take_back(&mut self, count: usize) {
        let left = self.records.len().saturating_sub(count);
        self.records.truncate(left);
    }

    /// Forgets the first parts.
    pub(super) fn forget_first(&mut self, count: usize) {
        for _ in 0..count {
            if self.records.pop_front().is_some() {
                self.first = self.first.saturating_add(1);
            }
        }
    }

    /// Puts a part that is nowhere at the end of the list of a room.
    pub(super) fn push_back(&mut self, list: &mut PartList, room: Room, number: u64) {
        let last = list.last;
        if !self.enter(room, number, last, NO_PART) {
            return;
        }
        if last == NO_PART {
            list.first = number;
        } else {
            self.set_next(last, number);
        }
        list.last = number;
    }

    /// Takes a part out of the list that it is in.
    pub(super) fn take_out(&mut self, list: &mut PartList, number: u64) {
        let Some(part) = self.get_mut(number) else {
            return;
        };
        let (previous, next) = (part.previous, part.next);
        if let Room::Nowhere = part.room {
            return;
        }
        part.room = Room::Nowhere;
        if previous == NO_PART {
            list.first = next;
        } else {
            self.set_next(previous, next);
        }
        if next == NO_PART {
            list.last = previous;
        } else {
            self.set_previous(next, previous);
        }
    }

    /// Puts a part that is nowhere into a room, between these parts of its list. Returns whether it was nowhere.
    fn enter(&mut self, room: Room, number: u64, previous: u64, next: u64) -> bool {
        let Some(part) = self.get_mut(number) else {
            return false;
        };
        let Room::Nowhere = part.room else {
            return false;
        };
        part.room = room;
        part.previous = previous;
        part.next = next;
        true
    }

    fn set_next(&mut self, number: u64, next: u64) {
        if let Some(part) = self.get_mut(number) {
            part.next = next;
        }
    }

    fn set_previous(&mut self, number: u64, previous: u64) {
        if let Some(part) = self.get_mut(number) {
            part.previous = previous;
        }
    }
}

impl PartRecord {
    /// A part that waits for nothing yet.
    fn new(seat: Seat) -> PartRecord {
        PartRecord {
            seat,
            room: Room::Nowhere,
            previous: NO_PART,
            next: NO_PART,
            pause_end: 0,
            redirect_count: 0,
            target: Target::Serving,
        }
    }
}
