//! The callers that have calls or are overdue.

use super::parts::{NO_PARTS, PartList};
use std::alloc::{AllocError, Global};
use std::collections::BTreeMap;

/// The places of callers below this number stand in a list.
const NEAR: u64 = 16384;

/// Stands for a place where there is none.
pub(super) const NOWHERE: usize = usize::MAX;

/// A caller, as the schedule has it.
#[derive(Debug, Drop)]
pub(crate) struct CallerRecord {
    pub(crate) number: u64,
    /// Its parts that wait for earlier calls.
    pub(crate) barred: PartList,
    /// If a call of it is kept, the first and the last one.
    pub(crate) first: u64,
    pub(crate) last: u64,
    /// The place of the next overdue caller, or that of the next free place.
    pub(crate) next: usize,
    /// Whether a call of it is kept.
    pub(crate) has_calls: bool,
    pub(crate) is_overdue: bool,
}

/// The callers, by places that stay while they have calls or are overdue. A place is found by a number in constant time if
/// that is small, and else in logarithmic time.
#[derive(Drop)]
pub(crate) struct Callers {
    records: Vec<CallerRecord>,
    first_free: usize,
    /// The place of each caller of a small number.
    near: Vec<usize>,
    /// The places of the other callers.
    far: BTreeMap<u64, usize>,
}

impl Callers {
    /// No callers.
    pub(crate) fn new(alloc: Global) -> Callers {
        Callers {
            records: Vec::new(alloc),
            first_free: NOWHERE,
            near: Vec::new(alloc),
            far: BTreeMap::new(alloc),
        }
    }

    /// How many places there are, the free ones too.
    pub(crate) fn place_count(&self) -> usize {
        self.records.len()
    }

    /// The caller at a place.
    pub(crate) fn get(&self, place: usize) -> Option<&CallerRecord> {
        self.records.get(place)
    }

    /// The caller at a place, to be changed.
    pub(crate) fn get_mut(&mut self, place: usize) -> Option<&mut CallerRecord> {
        self.records.get_mut(place)
    }

    /// The place of a caller, which is added if it is not there.
    ///
    /// # Errors
    ///
    /// If memory runs out. Nothing changes then.
    pub(crate) fn place_for(&mut self, number: u64) -> Result<usize, AllocError> {
        if let Some(place) = self.place(number) {
            return Ok(place);
        }
        let place = self.free_place()?;
        self.set_place(number, place)?;
        self.take_free(number);
        Ok(place)
    }

    /// Forgets a caller that has no calls and is not overdue.
    pub(crate) fn forget_idle(&mut self, place: usize) {
        let Some(record) = self.records.get_mut(place) else {
            return;
        };
        if record.has_calls || record.is_overdue {
            return;
        }
        record.next = self.first_free;
        self.first_free = place;
        let number = record.number;
        self.drop_place(number);
    }

    fn place(&self, number: u64) -> Option<usize> {
        if number >= NEAR {
            return self.far.get(&number).copied();
        }
        let place = *self.near.get(number as usize)?;
        if place == NOWHERE { None } else { Some(place) }
    }

    /// The first free place. If there is none, one is added.
    fn free_place(&mut self) -> Result<usize, AllocError> {
        if self.first_free == NOWHERE {
            let place = self.records.len();
            self.records.push(CallerRecord::new(0))?;
            self.first_free = place;
        }
        Ok(self.first_free)
    }

    fn set_place(&mut self, number: u64, place: usize) -> Result<(), AllocError> {
        if number >= NEAR {
            self.far.insert(number, place)?;
            return Ok(());
        }
        let number = number as usize;
        if self.near.len() <= number {
            self.near.resize(number.saturating_add(1), NOWHERE)?;
        }
        if let Some(at) = self.near.get_mut(number) {
            *at = place;
        }
        Ok(())
    }

    fn drop_place(&mut self, number: u64) {
        if number >= NEAR {
            self.far.remove(&number);
            return;
        }
        if let Some(at) = self.near.get_mut(number as usize) {
            *at = NOWHERE;
        }
    }

    /// Puts a caller at the first free place.
    fn take_free(&mut self, number: u64) {
        let Some(record) = self.records.get_mut(self.first_free) else {
            return;
        };
        self.first_free = record.next;
        *record = CallerRecord::new(number);
    }
}

impl CallerRecord {
    /// A caller without calls.
    fn new(number: u64) -> CallerRecord {
        CallerRecord {
            number,
            barred: NO_PARTS,
            first: 0,
            last: 0,
            next: NOWHERE,
            has_calls: false,
            is_overdue: false,
        }
    }
}
