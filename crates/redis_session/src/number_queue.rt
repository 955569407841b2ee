//! Numbers in the order in which they came.

use std::alloc::{AllocError, Global};

/// Where a number stands.
#[derive(Clone, Copy, Debug)]
struct Place {
    is_in: bool,
    previous: Option<usize>,
    next: Option<usize>,
}

/// Numbers, each at most once, in the order in which they came. Each function takes constant time. Only
/// [`NumberQueue::make_room`] takes memory.
#[derive(Drop)]
pub(crate) struct NumberQueue {
    /// The place of each number.
    places: Vec<Place>,
    first: Option<usize>,
    last: Option<usize>,
}

const NO_PLACE: Place = Place {
    is_in: false,
    previous: None,
    next: None,
};

impl NumberQueue {
    /// No numbers.
    pub(crate) fn new(alloc: Global) -> NumberQueue {
        NumberQueue {
            places: Vec::new(alloc),
            first: None,
            last: None,
        }
    }

    /// Makes room for a number.
    ///
    /// # Errors
    ///
    /// If memory runs out. Nothing changes then.
    pub(crate) fn make_room(&mut self, number: usize) -> Result<(), AllocError> {
        if self.places.len() <= number {
            self.places.resize(number.saturating_add(1), NO_PLACE)?;
        }
        Ok(())
    }

    /// The number that came first.
    pub(crate) fn first(&self) -> Option<usize> {
        self.first
    }

    /// Whether a number is in the queue.
    pub(crate) fn contains(&self, number: usize) -> bool {
        match self.places.get(number) {
            Some(place) => place.is_in,
            None => false,
        }
    }

    /// Puts a number at the end, if there is room for it. If it is in the queue, it leaves its place.
    pub(crate) fn push_back(&mut self, number: usize) {
        self.remove(number);
        let previous = self.last;
        let Some(place) = self.places.get_mut(number) else {
            return;
        };
        place.is_in = true;
        place.previous = previous;
        self.last = Some(number);
        self.set_next(previous, Some(number));
    }

    /// Takes a number out, if it is in the queue.
    pub(crate) fn remove(&mut self, number: usize) {
        let Some(place) = self.places.get_mut(number) else {
            return;
        };
        if !place.is_in {
            return;
        }
        let Place { previous, next, .. } = *place;
        *place = NO_PLACE;
        self.set_next(previous, next);
        self.set_previous(next, previous);
    }

    /// Sets what follows a number, or the first number.
    fn set_next(&mut self, number: Option<usize>, next: Option<usize>) {
        let Some(number) = number else {
            self.first = next;
            return;
        };
        if let Some(place) = self.places.get_mut(number) {
            place.next = next;
        }
    }

    /// Sets what a number follows, or the last number.
    fn set_previous(&mut self, number: Option<usize>, previous: Option<usize>) {
        let Some(number) = number else {
            self.last = previous;
            return;
        };
        if let Some(place) = self.places.get_mut(number) {
            place.previous = previous;
        }
    }
}
