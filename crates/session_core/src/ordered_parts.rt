//! The parts of one caller, in the order of its calls and by slot.

ghost use Rattle.std.specs.Prelude.{◌≡◌, ◌+◌, ◌-◌, ◌<◌, ◌^◌, ℕ, Option, None, Some, OnOk, OnErr, IfSome, IfNone, length};
ghost use Rattle.session_core.specs.declared.ordered_part.OrderedPart.{OrderedPart};
ghost use Rattle.session_core.specs.declared.ordered_part.Status.{Status};
ghost use Rattle.session_core.specs.declared.ordered_part.Status.TheVariants.{Waits};
ghost use Rattle.session_core.specs.Part.{have_slot};
ghost use Rattle.session_core.specs.Order.{no_order, ordered_at, MayAskAmong, IsOf, Offers, NamesWaiting, IsOvertaken, marked, with_status};
ghost use Rattle.session_core.specs.Inner.Lane.{Ascends};
ghost use Rattle.session_core.specs.Inner.Tied.{IsSorted, IsBar, IsFirstBar, MayChange, entered, left, without_first, without_last, pushed, MayFollow, IsFirstOver, IsLastOpen};

use crate::open_parts::OpenParts;
use crate::ordered_part::{Askable, FEW, OrderedPart, Overtaken, Seat, Status};
use crate::part::PartOrder;
use crate::sorted_places::take_place;
use std::alloc::{AllocError, Global};
use std::collections::VecDeque;
use std::marker::Model;

/// The parts of one caller in the order of its calls. An open part of a slot also stands with those of
/// its slot.
#[derive(Drop)]
pub(crate) struct OrderedParts {
    first: u64,
    parts: VecDeque<OrderedPart>,
    open_parts: OpenParts,
    /// The places of the parts without a slot that are not done.
    bars: VecDeque<u64>,
}

impl Model for OrderedParts {
    ghost use Rattle.session_core.specs.Order.{Order};
    ghost use Rattle.session_core.specs.Inner.Tied.{IsTied};

    ghost Value = { Order };

    ghost view = { λ s. record { first = s.first; parts = s.parts.items } };

    ghost invariant = { λ s. IsTied (record { first = s.first; parts = s.parts.items }) s.open_parts s.bars.items };
}

impl OrderedParts {
    pub(crate) fn new(alloc: Global) -> OrderedParts
        ensures { result ≡ no_order }
    {
        OrderedParts {
            first: 0,
            parts: VecDeque::new(alloc),
            open_parts: OpenParts::new(alloc),
            bars: VecDeque::new(alloc),
        }
    }

    /// Makes it a caller without calls. It keeps its memory.
    pub(crate) fn clear(&mut self)
        ensures { self.new ≡ no_order }
    {
        self.first = 0;
        self.parts.clear();
        self.open_parts.clear();
        self.bars.clear();
    }

    /// Whether it has room for few parts at most.
    pub(crate) fn is_small(&self) -> bool {
        self.parts.capacity() <= FEW && self.bars.capacity() <= FEW
    }

    /// The place of the first part that is left, or of the next one.
    pub(crate) fn first(&self) -> u64
        ensures first { result ≡ self.now.first }
        ensures sorted { IsSorted self.now }
    {
        self.first
    }

    /// The place of the part that joins next.
    pub(crate) fn end(&self) -> u64
        ensures end { result ≡ self.now.first + length self.now.parts }
        ensures sorted { IsSorted self.now }
    {
        self.first + self.parts.len() as u64
    }

    /// The part at a place, if it joined and was not forgotten.
    pub(crate) fn part(&self, place: u64) -> Option<OrderedPart>
        ensures part { result ≡ ordered_at place self.now }
        ensures sorted { IsSorted self.now }
    {
        if place < self.first {
            return None;
        }
        match self.parts.get((place - self.first) as usize) {
            Some(part) => Some(*part),
            None => None,
        }
    }

    /// Adds a part at the end, which waits.
    ///
    /// # Errors
    ///
    /// If memory runs out, or 2^64 - 1 parts joined. Nothing changes then.
    pub(crate) fn push(
        &mut self,
        alloc: Global,
        seat: Seat,
        order: PartOrder,
    ) -> Result<(), AllocError>
        requires { MayFollow seat.call order self.old }
        ensures pushed { OnOk result (self.new ≡ pushed seat order self.old) }
        ensures err { OnErr result (self.new ≡ self.old) }
    {
        let place = self.end();
        if place == u64::MAX {
            return Err(AllocError);
        }
        self.parts.reserve(1)?;
        enter_bars(&mut self.bars, order, place)?;
        self.open_parts.join(alloc, order, place)?;
        let status = Status::Waits;
        self.parts.push_back_reserved(OrderedPart {
            seat,
            order,
            status,
        });
        Ok(())
    }

    /// Takes back the last part, which waits.
    pub(crate) fn leave_last(&mut self)
        requires { IsLastOpen self.old }
        ensures { self.new ≡ without_last self.old }
    {
        let last = self.parts.len() - 1;
        let order = self.parts[last].order;
        let place = self.first + last as u64;
        self.open_parts.change(order, place, Status::Unsent);
        leave_bars(&mut self.bars, place, Status::Unsent);
        self.parts.truncate(last);
    }

    /// Gives the part at a place this status.
    #[inline(always)]
    pub(crate) fn change(&mut self, place: u64, status: Status)
        requires { MayChange place status self.old }
        ensures changed { self.new ≡ with_status place status self.old }
        ensures sorted { IsSorted self.old }
    {
        let index = (place - self.first) as usize;
        let order = self.parts[index].order;
        self.open_parts.change(order, place, status);
        leave_bars(&mut self.bars, place, status);
        mark(&mut self.parts, index, status);
    }

    /// Forgets the first part, which is done.
    pub(crate) fn forget_first(&mut self)
        requires { IsFirstOver self.old }
        ensures { self.new ≡ without_first self.old }
    {
        self.parts.pop_front();
        self.first += 1;
    }

    /// The part of a slot that may be asked now, by its order with the others of the slot.
    pub(crate) fn askable(&self, slot: u16) -> Option<Askable>
        ensures may { (place link : ℕ) → Offers result place link
            → MayAskAmong have_slot place link self.now × IsOf slot place self.now }
        ensures asks { (place link : ℕ) → MayAskAmong have_slot place link self.now
            → IsOf slot place self.now → Offers result place link }
        ensures seat { IfSome result (λ askable. NamesWaiting askable.place askable.seat self.now) }
        ensures sorted { IsSorted self.now }
    {
        let Some(next) = self.open_parts.askable(slot) else {
            return None;
        };
        let seat = self.parts[(next.place - self.first) as usize].seat;
        Some(Askable {
            place: next.place,
            seat,
            link: next.link,
        })
    }

    /// The first part of a slot that is overtaken.
    pub(crate) fn overtaken(&self, slot: u16) -> Option<Overtaken>
        ensures overtaken { IfSome result (λ overtaken.
            IsOvertaken overtaken.place self.now × IsOf slot overtaken.place self.now) }
        ensures seat { IfSome result (λ overtaken. NamesWaiting overtaken.place overtaken.seat self.now) }
        ensures none { IfNone result ((place : ℕ) → IsOvertaken place self.now → IsOf slot place self.now → ⊥) }
    {
        let Some(place) = self.open_parts.overtaken(slot) else {
            return None;
        };
        let seat = self.parts[(place - self.first) as usize].seat;
        Some(Overtaken { place, seat })
    }

    /// The first part without a slot that is not done.
    pub(crate) fn first_bar(&self) -> Option<OrderedPart>
        ensures bar { IfSome result (λ bar. IsFirstBar bar self.now) }
        ensures none { IfNone result ((place : ℕ) → IsBar place self.now → ⊥) }
        ensures sorted { IsSorted self.now }
    {
        let Some(place) = self.bars.front() else {
            return None;
        };
        Some(self.parts[(*place - self.first) as usize])
    }
}

/// Adds a part without a slot to the bars.
fn enter_bars(bars: &mut VecDeque<u64>, order: PartOrder, place: u64) -> Result<(), AllocError>
    ensures entered { OnOk result (bars.new.items ≡ entered order place bars.old.items) }
    ensures err { OnErr result (bars.new.items ≡ bars.old.items) }
{
    if let PartOrder::Whole = order {
        bars.push_back(place)?;
    }
    Ok(())
}

/// Takes a part that is done now from the bars, if it is one.
fn leave_bars(bars: &mut VecDeque<u64>, place: u64, status: Status)
    requires { Ascends bars.old.items }
    ensures { bars.new.items ≡ left place status bars.old.items }
{
    if bars.is_empty() {
        return;
    }
    if status.is_done() {
        take_place(bars, place);
    }
}

/// Gives the part of an index this status.
fn mark(parts: &mut VecDeque<OrderedPart>, index: usize, status: Status)
    requires { index < length parts.old.items }
    ensures { parts.new.items ≡ marked index status parts.old.items }
{
    let OrderedPart { seat, order, .. } = parts[index];
    parts[index] = OrderedPart {
        seat,
        order,
        status,
    };
}
