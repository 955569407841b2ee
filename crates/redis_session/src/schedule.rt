//! What each part of a call waits for, and which calls are overdue. Lists go through the records of the parts and of the
//! calls, so that to move a part takes no memory.

mod callers;
mod deadlines;
mod lists;
mod overdue;
mod parts;

use crate::schedule::callers::{Callers, NOWHERE};
use crate::schedule::parts::{NO_PARTS, PartList, PartRecord, Parts};
use session_core::Seat;
use std::alloc::{AllocError, Global};
use std::collections::{BTreeSet, VecDeque};

/// What a part waits for.
#[derive(Clone, Copy, Debug, PartialEq, Eq)]
pub(crate) enum Room {
    /// Nothing: it is on its way or done, or an earlier part of its slot has to be asked first.
    Nowhere,
    /// To be asked in this step.
    Ready,
    /// A link to the node of this number.
    Node(usize),
    /// A link to any primary.
    AnyPrimary,
    /// A node for its slot.
    Unserved,
    /// The end of its pause.
    Pause,
    /// That parts of earlier calls of its caller are done.
    Barred,
}

/// Where a part is asked.
#[derive(Clone, Copy, Debug)]
pub(crate) enum Target {
    /// At a node that serves it.
    Serving,
    /// At the node to which the last `ASK` sent it, after `ASKING`.
    Asking,
}

/// Stands for the number of a call where there is none.
const NO_CALL: u64 = u64::MAX;

/// A call that is to be added.
#[derive(Debug, Drop)]
pub(crate) struct NewCall {
    pub(crate) caller: u64,
    pub(crate) deadline: u64,
    /// How many bytes its request has.
    pub(crate) bytes: usize,
    pub(crate) part_count: usize,
}

/// Where the deadline of a call stands.
#[derive(Clone, Copy, Debug, PartialEq, Eq)]
enum DeadlineRoom {
    /// In no list: the call is owed no reply any more, or is late.
    Nowhere,
    /// In the list of rising deadlines.
    Rising,
    /// Among the others.
    Other,
}

/// A call, as the schedule has it.
#[derive(Debug, Drop)]
pub(crate) struct CallRecord {
    caller: u64,
    /// The place of its caller.
    place: usize,
    deadline: u64,
    /// The calls before and after it in the list of rising deadlines.
    before: u64,
    after: u64,
    next_of_caller: u64,
    /// How many bytes its request has.
    bytes: usize,
    /// The number of its first part.
    first_part: u64,
    part_count: usize,
    deadline_room: DeadlineRoom,
    is_late: bool,
    /// Whether it left. Its caller may have no place any more.
    has_left: bool,
}

/// What each part waits for, and which calls are overdue.
#[derive(Drop)]
pub(crate) struct Schedule {
    /// The number of the first call that is kept.
    first: u64,
    calls: VecDeque<CallRecord>,
    parts: Parts,
    callers: Callers,
    /// The parts that wait for a link to each node.
    nodes: Vec<PartList>,
    /// The parts that wait for a link to any primary.
    any_primary: PartList,
    ready: PartList,
    unserved: PartList,
    paused: PartList,
    /// The calls that are owed a reply, by rising deadlines, in a list through their records.
    first_rising: u64,
    last_rising: u64,
    /// The deadlines of the other calls that are owed a reply, with their numbers.
    other_deadlines: BTreeSet<(u64, u64)>,
    /// The places of the callers whose next call may be late, in a list through their records.
    first_overdue: usize,
    last_overdue: usize,
    /// How many parts the calls have that began and did not leave.
    part_count: usize,
}

impl Schedule {
    /// No calls.
    pub(crate) fn new(alloc: Global) -> Schedule {
        Schedule {
            first: 0,
            calls: VecDeque::new(alloc),
            parts: Parts::new(alloc),
            callers: Callers::new(alloc),
            nodes: Vec::new(alloc),
            any_primary: NO_PARTS,
            ready: NO_PARTS,
            unserved: NO_PARTS,
            paused: NO_PARTS,
            first_rising: NO_CALL,
            last_rising: NO_CALL,
            other_deadlines: BTreeSet::new(alloc),
            first_overdue: NOWHERE,
            last_overdue: NOWHERE,
            part_count: 0,
        }
    }

    /// How many steps a walk over all parts takes at most, if each part is met twice.
    pub(crate) fn most_steps(&self) -> usize {
        self.part_count.saturating_mul(2).saturating_add(1)
    }

    /// How many steps a walk over all calls takes at most.
    pub(crate) fn most_calls(&self) -> usize {
        self.calls.len()
    }

    /// How many steps a walk over the overdue callers takes at most.
    pub(crate) fn most_callers(&self) -> usize {
        self.callers.place_count().saturating_add(1)
    }

    /// Makes room for a node of this number.
    ///
    /// # Errors
    ///
    /// If memory runs out. Nothing changes then.
    pub(crate) fn make_room(&mut self, node: usize) -> Result<(), AllocError> {
        if self.nodes.len() <= node {
            self.nodes.resize(node.saturating_add(1), NO_PARTS)?;
        }
        Ok(())
    }

    /// Adds the next call, before it begins. [`Schedule::note_begun`] follows, or [`Schedule::take_back`].
    ///
    /// # Errors
    ///
    /// If memory runs out. Nothing changes then.
    pub(crate) fn add_call(&mut self, new: NewCall) -> Result<(), AllocError> {
        let place = self.callers.place_for(new.caller)?;
        if self.push_call(new, place).is_err() {
            self.callers.forget_idle(place);
            return Err(AllocError);
        }
        Ok(())
    }

    /// Adds the next call of the caller at a place.
    fn push_call(&mut self, new: NewCall, place: usize) -> Result<(), AllocError> {
        let call = self.next_call();
        let first_part = self.parts.end();
        let part_count = new.part_count;
        self.parts.add(call, part_count)?;
        if self
            .push_record(call, CallRecord::new(new, place, first_part))
            .is_err()
        {
            self.parts.take_back(part_count);
            return Err(AllocError);
        }
        Ok(())
    }

    /// The number of the next call.
    fn next_call(&self) -> u64 {
        self.first.saturating_add(self.calls.len() as u64)
    }

    /// Takes back the last call that was added, which does not begin.
    pub(crate) fn take_back(&mut self) {
        let Some(call) = self.next_call().checked_sub(1) else {
            return;
        };
        self.drop_deadline(call);
        let Some(record) = self.calls.pop_back() else {
            return;
        };
        self.parts.take_back(record.part_count);
        self.callers.forget_idle(record.place);
    }

    /// Notes that the last call that was added has begun.
    pub(crate) fn note_begun(&mut self) {
        let Some(call) = self.next_call().checked_sub(1) else {
            return;
        };
        let Some(record) = self.call(call) else {
            return;
        };
        let (place, count) = (record.place, record.part_count);
        self.part_count = self.part_count.saturating_add(count);
        self.note_last(place, call);
    }

    /// Notes that a call is the last one of its caller.
    fn note_last(&mut self, place: usize, call: u64) {
        let Some(caller) = self.callers.get_mut(place) else {
            return;
        };
        let before = caller.last;
        caller.last = call;
        if !caller.has_calls {
            caller.has_calls = true;
            caller.first = call;
            return;
        }
        if let Some(record) = self.call_mut(before) {
            record.next_of_caller = call;
        }
    }

    /// Whether a call is the only one of its caller that is kept, and has one part.
    pub(crate) fn is_alone(&self, call: u64) -> bool {
        let Some(record) = self.call(call) else {
            return false;
        };
        let Some(caller) = self.callers.get(record.place) else {
            return false;
        };
        record.part_count == 1 && !record.has_left && caller.first == call && caller.last == call
    }

    /// The call of this number, if it is kept.
    pub(crate) fn call(&self, call: u64) -> Option<&CallRecord> {
        let index = call.checked_sub(self.first)?;
        self.calls.get(index as usize)
    }

    fn call_mut(&mut self, call: u64) -> Option<&mut CallRecord> {
        let index = call.checked_sub(self.first)?;
        self.calls.get_mut(index as usize)
    }

    /// The number of a part, if its call is kept.
    fn number_of(&self, seat: Seat) -> Option<u64> {
        let record = self.call(seat.call)?;
        if seat.part >= record.part_count {
            return None;
        }
        record.first_part.checked_add(seat.part as u64)
    }

    fn part(&self, seat: Seat) -> Option<&PartRecord> {
        self.parts.get(self.number_of(seat)?)
    }

    fn part_mut(&mut self, seat: Seat) -> Option<&mut PartRecord> {
        let number = self.number_of(seat)?;
        self.parts.get_mut(number)
    }
}
