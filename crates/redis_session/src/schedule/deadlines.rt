//! The deadlines of the calls that are owed a reply. Most rise with the numbers of the calls: these are in a list
//! through the records of the calls.

use super::{CallRecord, DeadlineRoom, NO_CALL, Schedule};
use std::alloc::AllocError;

impl Schedule {
    /// Adds the record of the next call, and its deadline. Takes constant time if no call of the list has a later one.
    ///
    /// # Errors
    ///
    /// If memory runs out. Nothing changes then.
    pub(super) fn push_record(&mut self, call: u64, record: CallRecord) -> Result<(), AllocError> {
        if self.is_before_last(record.deadline) {
            return self.push_other(call, record);
        }
        let last = self.last_rising;
        self.calls.push_back(CallRecord {
            deadline_room: DeadlineRoom::Rising,
            before: last,
            ..record
        })?;
        self.last_rising = call;
        self.set_after(last, call);
        Ok(())
    }

    /// Adds the record of the next call, whose deadline is before that of another call.
    fn push_other(&mut self, call: u64, record: CallRecord) -> Result<(), AllocError> {
        let deadline = record.deadline;
        self.calls.push_back(CallRecord {
            deadline_room: DeadlineRoom::Other,
            ..record
        })?;
        if self.other_deadlines.insert((deadline, call)).is_err() {
            self.calls.pop_back();
            return Err(AllocError);
        }
        Ok(())
    }

    /// The first deadline, with the call.
    pub(crate) fn first_deadline(&self) -> Option<(u64, u64)> {
        let other = self.other_deadlines.first().copied();
        let Some(deadline) = self.deadline(self.first_rising) else {
            return other;
        };
        let rising = (deadline, self.first_rising);
        match other {
            Some(other) if other < rising => Some(other),
            _ => Some(rising),
        }
    }

    /// Forgets the deadline of a call that is owed no reply any more, or is late.
    pub(crate) fn drop_deadline(&mut self, call: u64) {
        let Some(record) = self.call_mut(call) else {
            return;
        };
        let room = record.deadline_room;
        record.deadline_room = DeadlineRoom::Nowhere;
        let (deadline, before, after) = (record.deadline, record.before, record.after);
        match room {
            DeadlineRoom::Nowhere => {}
            DeadlineRoom::Rising => {
                self.set_after(before, after);
                self.set_before(after, before);
            }
            DeadlineRoom::Other => {
                self.other_deadlines.remove(&(deadline, call));
            }
        }
    }

    /// Whether a call of the list has a later deadline.
    fn is_before_last(&self, deadline: u64) -> bool {
        match self.deadline(self.last_rising) {
            Some(latest) => deadline < latest,
            None => false,
        }
    }

    fn deadline(&self, call: u64) -> Option<u64> {
        Some(self.call(call)?.deadline)
    }

    /// Sets what follows a call in the list, or the first call.
    fn set_after(&mut self, call: u64, after: u64) {
        if call == NO_CALL {
            self.first_rising = after;
            return;
        }
        if let Some(record) = self.call_mut(call) {
            record.after = after;
        }
    }

    /// Sets what a call follows in the list, or the last call.
    fn set_before(&mut self, call: u64, before: u64) {
        if call == NO_CALL {
            self.last_rising = before;
            return;
        }
        if let Some(record) = self.call_mut(call) {
            record.before = before;
        }
    }
}
