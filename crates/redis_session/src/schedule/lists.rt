//! The lists of parts.

use super::parts::{NO_PART, NO_PARTS, PartList};
use super::{Room, Schedule, Target};
use session_core::Seat;

impl Schedule {
    /// Where a part is asked.
    pub(crate) fn target(&self, seat: Seat) -> Target {
        match self.part(seat) {
            Some(part) => part.target,
            None => Target::Serving,
        }
    }

    /// Has a part asked at a node that serves it.
    pub(crate) fn forget_ask(&mut self, seat: Seat) {
        if let Some(part) = self.part_mut(seat) {
            part.target = Target::Serving;
        }
    }

    /// Notes a redirect of a part, and where it is asked next. Returns how many it got.
    pub(crate) fn redirect(&mut self, seat: Seat, target: Target) -> u32 {
        let Some(part) = self.part_mut(seat) else {
            return 0;
        };
        part.target = target;
        part.redirect_count = part.redirect_count.saturating_add(1);
        part.redirect_count
    }

    /// Puts a part that is nowhere at the end of a list.
    pub(crate) fn push_back(&mut self, seat: Seat, room: Room) {
        let Some(number) = self.number_of(seat) else {
            return;
        };
        let mut list = self.list(seat, room);
        self.parts.push_back(&mut list, room, number);
        self.set_list(seat, room, list);
    }

    /// Takes a part out of the list that it is in.
    pub(crate) fn remove(&mut self, seat: Seat) {
        let Some(number) = self.number_of(seat) else {
            return;
        };
        let Some(part) = self.parts.get(number) else {
            return;
        };
        let room = part.room;
        let mut list = self.list(seat, room);
        self.parts.take_out(&mut list, number);
        self.set_list(seat, room, list);
    }

    /// The part of this number, if it is kept.
    fn seat_of(&self, number: u64) -> Option<Seat> {
        Some(self.parts.get(number)?.seat)
    }

    /// Whether a part is to be asked in this step.
    pub(crate) fn has_ready(&self) -> bool {
        self.ready.first != NO_PART
    }

    /// Takes the first part out of the list of those to be asked in this step.
    pub(crate) fn pop_ready(&mut self) -> Option<Seat> {
        let number = self.ready.first;
        let seat = self.seat_of(number)?;
        self.parts.take_out(&mut self.ready, number);
        Some(seat)
    }

    /// Has all parts that wait for a link to a node asked in this step.
    pub(crate) fn release_node(&mut self, node: usize) {
        for _ in 0..self.most_steps() {
            let Some(seat) = self.first_at(node) else {
                return;
            };
            self.remove(seat);
            self.push_back(seat, Room::Ready);
        }
    }

    /// Has all parts asked anew in this step that wait for links to nodes, since the map changed.
    pub(crate) fn release_nodes(&mut self) {
        for node in 0..self.nodes.len() {
            self.release_node(node);
        }
    }

    /// Has all parts asked in this step that wait for a link to any primary.
    pub(crate) fn release_any_primary(&mut self) {
        for _ in 0..self.most_steps() {
            let Some(seat) = self.seat_of(self.any_primary.first) else {
                return;
            };
            self.remove(seat);
            self.push_back(seat, Room::Ready);
        }
    }

    /// Lets all parts pause up to this time that wait for a link to any primary.
    pub(crate) fn pause_any_primary(&mut self, end: u64) {
        for _ in 0..self.most_steps() {
            let Some(seat) = self.seat_of(self.any_primary.first) else {
                return;
            };
            self.remove(seat);
            self.pause(seat, end);
        }
    }

    /// Whether a part waits for a node of its slot.
    pub(crate) fn is_unserved(&self, seat: Seat) -> bool {
        match self.part(seat) {
            Some(part) => part.room == Room::Unserved,
            None => false,
        }
    }

    /// The first part that waits for a link to a node.
    pub(crate) fn first_at(&self, node: usize) -> Option<Seat> {
        self.seat_of(self.nodes.get(node)?.first)
    }

    /// Has all parts asked in this step that wait for a node of their slot.
    pub(crate) fn release_unserved(&mut self) {
        for _ in 0..self.most_steps() {
            let Some(seat) = self.seat_of(self.unserved.first) else {
                return;
            };
            self.remove(seat);
            self.push_back(seat, Room::Ready);
        }
    }

    /// Lets a part pause up to this time.
    pub(crate) fn pause(&mut self, seat: Seat, end: u64) {
        self.push_back(seat, Room::Pause);
        if let Some(part) = self.part_mut(seat) {
            part.pause_end = end;
        }
    }

    /// When the first pause ends, if a part pauses.
    pub(crate) fn first_pause_end(&self) -> Option<u64> {
        Some(self.parts.get(self.paused.first)?.pause_end)
    }

    /// Has all parts asked in this step whose pause is over.
    pub(crate) fn release_paused(&mut self, now: u64) {
        for _ in 0..self.most_steps() {
            let Some(part) = self.parts.get(self.paused.first) else {
                return;
            };
            if part.pause_end > now {
                return;
            }
            let seat = part.seat;
            self.remove(seat);
            self.push_back(seat, Room::Ready);
        }
    }

    /// The first part that waits for earlier calls of the caller at a place.
    pub(crate) fn first_barred(&self, place: usize) -> Option<Seat> {
        self.seat_of(self.callers.get(place)?.barred.first)
    }

    /// The list of a room. For [`Room::Barred`] it is the one of the caller of this part.
    fn list(&self, seat: Seat, room: Room) -> PartList {
        match room {
            Room::Nowhere => NO_PARTS,
            Room::Ready => self.ready,
            Room::Node(node) => self.nodes.get(node).copied().unwrap_or(NO_PARTS),
            Room::AnyPrimary => self.any_primary,
            Room::Unserved => self.unserved,
            Room::Pause => self.paused,
            Room::Barred => self.barred_of(seat),
        }
    }

    fn barred_of(&self, seat: Seat) -> PartList {
        let Some(call) = self.call(seat.call) else {
            return NO_PARTS;
        };
        match self.callers.get(call.place) {
            Some(caller) => caller.barred,
            None => NO_PARTS,
        }
    }

    fn set_list(&mut self, seat: Seat, room: Room, list: PartList) {
        match room {
            Room::Nowhere => {}
            Room::Ready => self.ready = list,
            Room::Node(node) => {
                if let Some(at) = self.nodes.get_mut(node) {
                    *at = list;
                }
            }
            Room::AnyPrimary => self.any_primary = list,
            Room::Unserved => self.unserved = list,
            Room::Pause => self.paused = list,
            Room::Barred => self.set_barred(seat, list),
        }
    }

    fn set_barred(&mut self, seat: Seat, list: PartList) {
        let Some(call) = self.call(seat.call) else {
            return;
        };
        let place = call.place;
        if let Some(caller) = self.callers.get_mut(place) {
            caller.barred = list;
        }
    }
}
