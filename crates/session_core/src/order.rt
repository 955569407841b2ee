//! The order of the commands of one caller.
//!
//! Commands on one slot take effect in the order of their calls. A command without a slot, such as
//! `FLUSHALL`, is asked when each earlier call is done, and no later call is asked until it is done.
//! `PING`, `ECHO` and `TIME` are free of the order, and do not join it.

ghost use Rattle.std.specs.Prelude.{◌≡◌, ◌+◌, ◌<◌, ◌≤◌, ◌-◌, ◌==◌, true, false, ℕ, Option, None, Some, OnOk, OnErr, IfSome, IfNone, length, take};
ghost use Rattle.session_core.specs.declared.ordered_part.OrderedPart.{OrderedPart};
ghost use Rattle.session_core.specs.declared.ordered_part.Status.TheVariants.{Waits, Asked, Settled, Unsent};
ghost use Rattle.session_core.specs.declared.part.PartOrder.TheVariants.{OfSlot, Whole};
ghost use Rattle.session_core.specs.Order.{no_order, ordered_at, IsTrimmed, MayAsk, MayJoin, IsOf, Offers, NamesWaiting, IsWaiting, IsOnItsWay, IsOvertaken, joined, with_status, trimmed};
ghost use Rattle.session_core.specs.Inner.Tied.{IsSorted, IsAlone, IsBar, IsFirstOver, AreLastOpen, first_parts};

use crate::ordered_part::{Askable, OrderedPart, Overtaken, Seat, Status};
use crate::ordered_parts::OrderedParts;
use crate::part::PartOrder;
use std::alloc::{AllocError, Global};
use std::marker::Model;

/// The parts of one caller that have an order, in the order of its calls.
///
/// A part's *place* is its number since the caller came. Places stay when parts are forgotten. Parts at
/// the front that are done are forgotten at once.
///
/// A part may be asked if it waits, each part of an earlier call with which it has an order is done or
/// goes ahead of it on the same link, and no such part of a later call is on its way or settled.
///
/// A call takes a time that grows with the logarithm of the number of parts, averaged over the calls. This
/// assumes that the parts of a slot are refused or settled in the order in which they were asked. A part
/// that becomes unsent between others that wait also moves up to half of their places by one.
#[derive(Drop)]
pub struct CallerOrder {
    parts: OrderedParts,
}

impl Model for CallerOrder {
    ghost use Rattle.session_core.specs.Order.{Order};
    ghost use Rattle.session_core.specs.Inner.Tied.{IsGateKept};

    ghost Value = { Order };

    ghost view = { λ s. s.parts };

    ghost invariant = { λ s. IsGateKept s.parts };
}

impl CallerOrder {
    /// A caller without calls.
    pub fn new(alloc: Global) -> CallerOrder
        ensures { result ≡ no_order }
    {
        CallerOrder {
            parts: OrderedParts::new(alloc),
        }
    }

    /// Makes it a caller without calls. It keeps its memory, for another caller.
    pub fn clear(&mut self)
        ensures { self.new ≡ no_order }
    {
        self.parts.clear();
    }

    /// Whether it has room for few parts at most.
    pub fn is_small(&self) -> bool {
        self.parts.is_small()
    }

    /// The place of the next part that joins.
    pub fn end(&self) -> u64
        ensures { result ≡ self.now.first + length self.now.parts }
    {
        self.parts.end()
    }

    /// The part at a place, if it joined and was not forgotten.
    pub fn part(&self, place: u64) -> Option<OrderedPart>
        ensures { result ≡ ordered_at place self.now }
    {
        self.parts.part(place)
    }

    /// Whether the part at a place was forgotten. The first part that is left is not done.
    pub fn is_past(&self, place: u64) -> bool
        ensures past { result ≡ true → place < self.now.first }
        ensures not { result ≡ false → self.now.first ≤ place }
        ensures front { IsTrimmed self.now }
    {
        place < self.parts.first()
    }

    /// Adds the parts of a call at the end, each of which waits. The first one gets the place
    /// [`CallerOrder::end`].
    ///
    /// # Errors
    ///
    /// If memory runs out, or 2^64 - 1 parts joined. No part joins then.
    pub fn join(&mut self, alloc: Global, call: u64, orders: &[PartOrder]) -> Result<(), AllocError>
        requires { MayJoin call orders.now self.old }
        ensures joined { OnOk result (self.new ≡ joined call orders.now self.old) }
        ensures err { OnErr result (self.new ≡ self.old) }
    {
        join_all(alloc, &mut self.parts, call, orders)?;
        Ok(())
    }

    /// The part of a slot that may be asked now. There is one at most.
    ///
    /// With `SET a 1` and `SET a 2`, the first may be asked on any link. When that is on its way on
    /// link 7, the second may be asked on link 7 only.
    #[inline(always)]
    pub fn askable_in(&self, slot: u16) -> Option<Askable>
        ensures may { (place link : ℕ) → Offers result place link
            → MayAsk place link self.now × IsOf slot place self.now }
        ensures asks { (place link : ℕ) → MayAsk place link self.now → IsOf slot place self.now
            → Offers result place link }
        ensures seat { IfSome result (λ askable. NamesWaiting askable.place askable.seat self.now) }
    {
        let Some(askable) = self.parts.askable(slot) else {
            return None;
        };
        if self.is_barred(askable.seat.call) {
            return None;
        }
        Some(askable)
    }

    /// The part at a place, if it may be asked now.
    pub fn askable(&self, place: u64) -> Option<Askable>
        ensures may { (at link : ℕ) → Offers result at link → (at ≡ place) × MayAsk at link self.now }
        ensures asks { (link : ℕ) → MayAsk place link self.now → Offers result place link }
        ensures seat { IfSome result (λ askable. NamesWaiting askable.place askable.seat self.now) }
    {
        let Some(part) = self.parts.part(place) else {
            return None;
        };
        match part.order {
            PartOrder::OfSlot(slot) => only_at(self.askable_in(slot), place),
            PartOrder::Whole | PartOrder::Free => self.askable_whole(place, part),
        }
    }

    /// The first part of a slot that is overtaken: it waits, and a later one is settled.
    ///
    /// Such a part is never asked again. Call [`CallerOrder::note_unsent`] for it.
    pub fn overtaken_in(&self, slot: u16) -> Option<Overtaken>
        ensures overtaken { IfSome result (λ overtaken.
            IsOvertaken overtaken.place self.now × IsOf slot overtaken.place self.now) }
        ensures seat { IfSome result (λ overtaken. NamesWaiting overtaken.place overtaken.seat self.now) }
        ensures none { IfNone result ((place : ℕ) → IsOvertaken place self.now → IsOf slot place self.now → ⊥) }
    {
        self.parts.overtaken(slot)
    }

    /// Notes that a part was asked on a link.
    pub fn note_asked(&mut self, place: u64, link: usize)
        requires { MayAsk place link self.old }
        ensures { self.new ≡ with_status place (Asked link) self.old }
    {
        self.parts.change(place, Status::Asked(link));
    }

    /// Notes that a part on its way did not run, and waits again.
    ///
    /// Its node refused to run it, or its link ended before a byte of it was written.
    pub fn note_refused(&mut self, place: u64)
        requires { IsOnItsWay place self.old }
        ensures { self.new ≡ with_status place Waits self.old }
    {
        self.parts.change(place, Status::Waits);
    }

    /// Notes that a part on its way ran, or may have run.
    pub fn note_settled(&mut self, place: u64)
        requires { IsOnItsWay place self.old }
        ensures { self.new ≡ trimmed (with_status place Settled self.old) }
    {
        self.parts.change(place, Status::Settled);
        trim(&mut self.parts);
    }

    /// Notes that a part that waits will not be asked any more, and did not run. It may stand behind
    /// a barrier.
    pub fn note_unsent(&mut self, place: u64)
        requires { IsWaiting place self.old }
        ensures { self.new ≡ trimmed (with_status place Unsent self.old) }
    {
        self.parts.change(place, Status::Unsent);
        trim(&mut self.parts);
    }

    /// Whether the part at a place waits for calls before its own, whatever becomes of its slot: it has no slot and an
    /// earlier part is left, or an earlier part without a slot is not done. Then it may be asked on no link.
    pub fn is_held_back(&self, place: u64) -> bool
        ensures { result ≡ true → (link : ℕ) → MayAsk place link self.now → ⊥ }
    {
        let Some(part) = self.parts.part(place) else {
            return false;
        };
        match part.order {
            PartOrder::OfSlot(_) => self.is_barred(part.seat.call),
            PartOrder::Whole => self.is_held(part.seat.call),
            PartOrder::Free => false,
        }
    }

    /// Whether a part without a slot, of an earlier call, is not done.
    fn is_barred(&self, call: u64) -> bool
        ensures barred { result ≡ true → (place : ℕ) × (p : OrderedPart)
            × (ordered_at place self.now ≡ Some p) × (p.seat.call < call) × IsBar place self.now }
        ensures free { result ≡ false → (place : ℕ) (p : OrderedPart)
            → ordered_at place self.now ≡ Some p → p.seat.call < call → IsBar place self.now → ⊥ }
    {
        match self.parts.first_bar() {
            Some(bar) => bar.seat.call < call,
            None => false,
        }
    }

    /// The part at a place, which has no slot, if it may be asked now.
    fn askable_whole(&self, place: u64, part: OrderedPart) -> Option<Askable>
        requires there { ordered_at place self.now ≡ Some part }
        requires whole { part.order ≡ Whole }
        ensures may { (at link : ℕ) → Offers result at link → (at ≡ place) × MayAsk at link self.now }
        ensures asks { (link : ℕ) → MayAsk place link self.now → Offers result place link }
        ensures seat { IfSome result (λ askable. NamesWaiting askable.place askable.seat self.now) }
    {
        let Status::Waits = part.status else {
            return None;
        };
        if self.is_held(part.seat.call) {
            return None;
        }
        let seat = part.seat;
        let link = None;
        Some(Askable { place, seat, link })
    }

    /// Whether a part of an earlier call is left.
    fn is_held(&self, call: u64) -> bool
        ensures held { result ≡ true → (p : OrderedPart) × (ordered_at self.now.first self.now ≡ Some p)
            × (p.seat.call < call) × (IsFirstOver self.now → ⊥) }
        ensures free { result ≡ false → (p : OrderedPart) → ordered_at self.now.first self.now ≡ Some p
            → p.seat.call < call → ⊥ }
        ensures sorted { IsSorted self.now }
        ensures alone { IsAlone self.now }
    {
        match self.parts.part(self.parts.first()) {
            Some(front) => front.seat.call < call,
            None => false,
        }
    }
}

/// The part, if it has this place.
fn only_at(askable: Option<Askable>, place: u64) -> Option<Askable>
    ensures same { IfSome result (λ part. (askable ≡ Some part) × (part.place ≡ place)) }
    ensures none { IfNone result ((part : Askable) → askable ≡ Some part → part.place ≡ place → ⊥) }
{
    match askable {
        Some(part) if part.place == place => Some(part),
        _ => None,
    }
}

/// Adds the parts of a call, all or none.
fn join_all(
    alloc: Global,
    parts: &mut OrderedParts,
    call: u64,
    orders: &[PartOrder],
) -> Result<(), AllocError>
    requires { MayJoin call orders.now parts.old }
    ensures joined { OnOk result (parts.new ≡ joined call orders.now parts.old) }
    ensures err { OnErr result (parts.new ≡ parts.old) }
{
    for part in 0..orders.len() {
        let order = orders[part];
        if let Err(error) = parts.push(alloc, Seat { call, part }, order) {
            take_back(parts, part);
            return Err(error);
        }
    }
    Ok(())
}

/// Takes back the last parts, so many, which wait.
fn take_back(parts: &mut OrderedParts, count: usize)
    requires { AreLastOpen count parts.old }
    ensures { parts.new ≡ first_parts (length parts.old.parts - count) parts.old }
{
    let mut left = count;
    while left > 0 {
        parts.leave_last();
        left -= 1;
    }
}

/// Forgets the done parts at the front.
fn trim(parts: &mut OrderedParts)
    ensures trimmed { parts.new ≡ trimmed parts.old }
    ensures front { IsFirstOver parts.new → ⊥ }
{
    while is_front_done(parts) {
        parts.forget_first();
    }
}

fn is_front_done(parts: &OrderedParts) -> bool
    ensures done { result ≡ true → IsFirstOver parts.now }
    ensures not { result ≡ false → IsFirstOver parts.now → ⊥ }
{
    match parts.part(parts.first()) {
        Some(front) => front.status.is_done(),
        None => false,
    }
}
