//! Which calls are overdue: their time is over, and their reply may be next.

use super::callers::NOWHERE;
use super::{CallRecord, DeadlineRoom, NO_CALL, NewCall, Schedule};

impl CallRecord {
    /// A call that has just come.
    pub(crate) fn new(new: NewCall, place: usize, first_part: u64) -> CallRecord {
        CallRecord {
            caller: new.caller,
            place,
            deadline: new.deadline,
            before: NO_CALL,
            after: NO_CALL,
            next_of_caller: NO_CALL,
            bytes: new.bytes,
            first_part,
            part_count: new.part_count,
            deadline_room: DeadlineRoom::Nowhere,
            is_late: false,
            has_left: false,
        }
    }

    /// The number of its caller.
    pub(crate) fn caller(&self) -> u64 {
        self.caller
    }

    /// Whether its time is over.
    pub(crate) fn is_late(&self) -> bool {
        self.is_late
    }

    /// How many parts it has.
    pub(crate) fn part_count(&self) -> usize {
        self.part_count
    }
}

impl Schedule {
    /// Whether the time of a call is over.
    pub(crate) fn is_late(&self, call: u64) -> bool {
        match self.call(call) {
            Some(record) => record.is_late,
            None => false,
        }
    }

    /// How many parts a call has, if it is kept.
    pub(crate) fn part_count(&self, call: u64) -> usize {
        match self.call(call) {
            Some(record) => record.part_count,
            None => 0,
        }
    }

    /// Notes that the time of a call is over.
    pub(crate) fn note_late(&mut self, call: u64) {
        self.drop_deadline(call);
        if let Some(record) = self.call_mut(call) {
            record.is_late = true;
        }
    }

    /// The place of the caller of a call, if the call did not leave.
    pub(crate) fn place_of(&self, call: u64) -> Option<usize> {
        let record = self.call(call)?;
        if record.has_left {
            None
        } else {
            Some(record.place)
        }
    }

    /// Notes that the next call of the caller at a place is late.
    pub(crate) fn note_overdue(&mut self, place: usize) {
        let Some(record) = self.callers.get_mut(place) else {
            return;
        };
        if record.is_overdue {
            return;
        }
        record.is_overdue = true;
        record.next = NOWHERE;
        match self.callers.get_mut(self.last_overdue) {
            Some(last) => last.next = place,
            None => self.first_overdue = place,
        }
        self.last_overdue = place;
    }

    /// The first caller whose next call may be late.
    pub(crate) fn first_overdue(&self) -> Option<u64> {
        Some(self.callers.get(self.first_overdue)?.number)
    }

    /// Notes that the first overdue caller has no reply to get now. If no call of it is kept, it is forgotten.
    pub(crate) fn drop_overdue(&mut self) {
        if let Some(place) = self.pop_overdue() {
            self.callers.forget_idle(place);
        }
    }

    /// Puts the first overdue caller behind the other ones.
    pub(crate) fn turn_overdue(&mut self) {
        if let Some(place) = self.pop_overdue() {
            self.note_overdue(place);
        }
    }

    /// Takes the first overdue caller out of the list. Returns its place.
    fn pop_overdue(&mut self) -> Option<usize> {
        let place = self.first_overdue;
        let record = self.callers.get_mut(place)?;
        record.is_overdue = false;
        self.first_overdue = record.next;
        if self.first_overdue == NOWHERE {
            self.last_overdue = NOWHERE;
        }
        Some(place)
    }

    /// The first call that is kept of the caller at a place.
    pub(crate) fn first_call(&self, place: usize) -> Option<u64> {
        let record = self.callers.get(place)?;
        if record.has_calls {
            Some(record.first)
        } else {
            None
        }
    }

    /// Notes that the first call left of the caller at a place. Its parts are in no list. Returns how many bytes its
    /// request has.
    pub(crate) fn note_left(&mut self, place: usize) -> usize {
        let Some(call) = self.first_call(place) else {
            return 0;
        };
        let Some(record) = self.call_mut(call) else {
            return 0;
        };
        record.has_left = true;
        let (bytes, count) = (record.bytes, record.part_count);
        let next = record.next_of_caller;
        self.part_count = self.part_count.saturating_sub(count);
        self.set_first_call(place, next);
        bytes
    }

    /// Sets the first call that is kept of the caller at a place. If there is none, the caller is forgotten, unless it
    /// is among the overdue ones.
    fn set_first_call(&mut self, place: usize, call: u64) {
        let Some(record) = self.callers.get_mut(place) else {
            return;
        };
        record.first = call;
        record.has_calls = call != NO_CALL;
        self.callers.forget_idle(place);
    }

    /// Forgets the place of the first call.
    pub(crate) fn trim(&mut self) {
        let Some(record) = self.calls.pop_front() else {
            return;
        };
        self.first = self.first.saturating_add(1);
        self.parts.forget_first(record.part_count);
    }
}
