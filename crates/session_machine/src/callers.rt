//! The callers of a session.

ghost use Rattle.std.specs.Prelude.{◌≡◌, ◌+◌, ◌<◌, ◌≤◌, ℕ, true, false, Some, None, IfOk, OnOk, OnErr, IfSome, IfNone};
ghost use Rattle.session_core.specs.declared.ordered_part.Status.TheVariants.{Waits, Asked, Settled, Unsent};
ghost use Rattle.session_core.specs.Order.{no_order, IsTrimmed, MayAsk, MayJoin, IsOf, Offers, NamesWaiting, IsWaiting, IsOnItsWay, IsOvertaken, joined, with_status, trimmed};
ghost use Rattle.session_machine.specs.Ties.{Owes, end_of, given_up, is_owed, no_owed, IsFirstOwed, OrderGoes};
ghost use Rattle.session_machine.specs.CallerTable.{kept_in};
ghost use Rattle.session_machine.specs.Callers.{order_of, owed_of, last_of, OthersKept, OnlyOrder, OnlyOwed, CallsKept, ForgetsAfter};

use crate::caller::{CallPlaces, Caller};
use crate::caller_table::CallerTable;
use crate::giving_up::give_up;
use crate::spares::Spares;
use session_core::{Askable, CallerOrder, Overtaken, PartOrder};
use std::alloc::{AllocError, Global};

/// The callers of a session, by the numbers that its users choose for them.
///
/// Each has its own order of parts ([`CallerOrder`]) and its own calls that are owed a reply. A number
/// that was not used yet, or was forgotten, is a caller without calls.
///
/// A call takes a time that grows with the logarithm of the number of parts of a caller, averaged over the
/// calls, and with the logarithm of the number of callers where [`CallerTable`] says so. The exceptions are
/// in [`CallerOrder`], and a call that is given up between others.
#[derive(Drop)]
pub(crate) struct Callers {
    callers: CallerTable,
    spares: Spares,
}

impl Callers {
    /// No caller made a call yet.
    pub(crate) fn new(alloc: Global) -> Callers
        ensures order { (caller : ℕ) → order_of caller result ≡ no_order }
        ensures owed { (caller : ℕ) → owed_of caller result ≡ no_owed }
        ensures last { (caller : ℕ) → last_of caller result ≡ None }
    {
        Callers {
            callers: CallerTable::new(alloc),
            spares: Spares::new(alloc),
        }
    }

    /// Adds a call of this number: its parts join the order of its caller, and the caller is owed its
    /// reply.
    ///
    /// # Errors
    ///
    /// If memory runs out, or 2^64 - 1 parts of the caller joined. No part joins then, and no more
    /// replies are owed.
    pub(crate) fn begin(
        &mut self,
        alloc: Global,
        caller: u64,
        number: u64,
        orders: &[PartOrder],
    ) -> Result<CallPlaces, AllocError>
        requires joins { MayJoin number orders.now (order_of caller self.old) }
        requires later { (call : ℕ) → is_owed call (owed_of caller self.old) ≡ true → call < number }
        ensures caller { IfOk result (λ places. places.caller ≡ caller) }
        ensures place { IfOk result (λ places. places.order ≡ end_of (order_of caller self.old)) }
        ensures joined { OnOk result (order_of caller self.new ≡ joined number orders.now (order_of caller self.old)) }
        ensures owed { OnOk result (Owes (owed_of caller self.old) (owed_of caller self.new) number true) }
        ensures last { OnOk result (last_of caller self.new ≡ Some number) }
        ensures others { OthersKept caller self.old self.new }
        ensures err { OnErr result (CallsKept self.old self.new) }
    {
        match self.callers.get_mut(caller) {
            Some(entry) => entry.begin(alloc, caller, number, orders),
            None => self.begin_first(alloc, caller, number, orders),
        }
    }

    /// Whether the part of a caller at a place was forgotten in the order. The first part that is left
    /// there is not done.
    pub(crate) fn is_past(&self, caller: u64, place: u64) -> bool
        ensures past { result ≡ true → place < (order_of caller self.now).first }
        ensures not { result ≡ false → (order_of caller self.now).first ≤ place }
        ensures front { IsTrimmed (order_of caller self.now) }
    {
        match self.order(caller) {
            Some(order) => order.is_past(place),
            None => false,
        }
    }

    /// The part of a caller at a place, if it may be asked now.
    pub(crate) fn askable(&self, caller: u64, place: u64) -> Option<Askable>
        ensures may { (at link : ℕ) → Offers result at link
            → (at ≡ place) × MayAsk at link (order_of caller self.now) }
        ensures asks { (link : ℕ) → MayAsk place link (order_of caller self.now) → Offers result place link }
        ensures seat { IfSome result (λ askable. NamesWaiting askable.place askable.seat (order_of caller self.now)) }
    {
        match self.order(caller) {
            Some(order) => order.askable(place),
            None => None,
        }
    }

    /// Whether the part of a caller at a place waits for earlier calls, whatever becomes of its slot.
    pub(crate) fn is_held_back(&self, caller: u64, place: u64) -> bool
        ensures { result ≡ true → (link : ℕ) → MayAsk place link (order_of caller self.now) → ⊥ }
    {
        match self.order(caller) {
            Some(order) => order.is_held_back(place),
            None => false,
        }
    }

    /// The part of a caller on a slot that may be asked now. There is one at most.
    pub(crate) fn askable_in(&self, caller: u64, slot: u16) -> Option<Askable>
        ensures may { (place link : ℕ) → Offers result place link
            → MayAsk place link (order_of caller self.now) × IsOf slot place (order_of caller self.now) }
        ensures asks { (place link : ℕ) → MayAsk place link (order_of caller self.now)
            → IsOf slot place (order_of caller self.now) → Offers result place link }
        ensures seat { IfSome result (λ askable. NamesWaiting askable.place askable.seat (order_of caller self.now)) }
    {
        match self.order(caller) {
            Some(order) => order.askable_in(slot),
            None => None,
        }
    }

    /// The first part of a caller on a slot that is overtaken: it waits, and a later one is settled.
    ///
    /// Such a part is never asked again. Call [`Callers::note_unsent`] for it.
    pub(crate) fn overtaken_in(&self, caller: u64, slot: u16) -> Option<Overtaken>
        ensures overtaken { IfSome result (λ overtaken.
            IsOvertaken overtaken.place (order_of caller self.now) × IsOf slot overtaken.place (order_of caller self.now)) }
        ensures seat { IfSome result (λ overtaken. NamesWaiting overtaken.place overtaken.seat (order_of caller self.now)) }
        ensures none { IfNone result ((place : ℕ) → IsOvertaken place (order_of caller self.now)
            → IsOf slot place (order_of caller self.now) → ⊥) }
    {
        match self.order(caller) {
            Some(order) => order.overtaken_in(slot),
            None => None,
        }
    }

    /// Notes that a part was asked on a link.
    pub(crate) fn note_asked(&mut self, caller: u64, place: u64, link: usize)
        requires { MayAsk place link (order_of caller self.old) }
        ensures order { order_of caller self.new ≡ with_status place (Asked link) (order_of caller self.old) }
        ensures only { OnlyOrder caller self.old self.new }
    {
        if let Some(entry) = self.callers.get_mut(caller) {
            entry.order.note_asked(place, link);
        }
    }

    /// Notes that a part on its way did not run, and waits again.
    ///
    /// Its node refused to run it, or its link ended before a byte of it was written.
    pub(crate) fn note_refused(&mut self, caller: u64, place: u64)
        requires { IsOnItsWay place (order_of caller self.old) }
        ensures order { order_of caller self.new ≡ with_status place Waits (order_of caller self.old) }
        ensures only { OnlyOrder caller self.old self.new }
    {
        if let Some(entry) = self.callers.get_mut(caller) {
            entry.order.note_refused(place);
        }
    }

    /// Notes that a part on its way ran, or may have run.
    pub(crate) fn note_settled(&mut self, caller: u64, place: u64)
        requires { IsOnItsWay place (order_of caller self.old) }
        ensures order { order_of caller self.new ≡ trimmed (with_status place Settled (order_of caller self.old)) }
        ensures only { OnlyOrder caller self.old self.new }
    {
        if let Some(entry) = self.callers.get_mut(caller) {
            entry.order.note_settled(place);
        }
    }

    /// Notes that a part that waits will not be asked any more, and did not run.
    pub(crate) fn note_unsent(&mut self, caller: u64, place: u64)
        requires { IsWaiting place (order_of caller self.old) }
        ensures order { order_of caller self.new ≡ trimmed (with_status place Unsent (order_of caller self.old)) }
        ensures only { OnlyOrder caller self.old self.new }
    {
        if let Some(entry) = self.callers.get_mut(caller) {
            entry.order.note_unsent(place);
        }
    }

    /// Notes that the parts of a call that is given up will not be asked any more: those that wait at so
    /// many places. Parts on their way stay so.
    ///
    /// The time also grows with the number of places.
    pub(crate) fn note_all_unsent(&mut self, caller: u64, place: u64, count: usize)
        requires { place + count ≤ end_of (order_of caller self.old) }
        ensures order { OrderGoes (given_up place count) (order_of caller self.old) (order_of caller self.new) }
        ensures only { OnlyOrder caller self.old self.new }
    {
        if let Some(entry) = self.callers.get_mut(caller) {
            give_up(&mut entry.order, place, count);
        }
    }

    /// The call whose reply to a caller is next, if any is owed.
    pub(crate) fn next_reply(&self, caller: u64) -> Option<u64>
        ensures some { IfSome result (λ call. IsFirstOwed call (owed_of caller self.now)) }
        ensures none { IfNone result ((call : ℕ) → is_owed call (owed_of caller self.now) ≡ false) }
    {
        match self.callers.get(caller) {
            Some(entry) => entry.owed.first(),
            None => None,
        }
    }

    /// Notes that a call is owed no reply any more: its reply went out, or it was given up.
    #[inline(always)]
    pub(crate) fn note_over(&mut self, caller: u64, call: u64)
        requires { is_owed call (owed_of caller self.old) ≡ true }
        ensures owed { Owes (owed_of caller self.old) (owed_of caller self.new) call false }
        ensures only { OnlyOwed caller self.old self.new }
    {
        if let Some(entry) = self.callers.get_mut(caller) {
            entry.owed.remove(call);
        }
    }

    /// Forgets a caller, if this was its last call. Its places begin at 0 again.
    pub(crate) fn forget_after(&mut self, caller: u64, call: u64)
        ensures { ForgetsAfter caller call self.old self.new }
    {
        if !self.is_last(caller, call) {
            return;
        }
        let gone = self.callers.remove(caller);
        self.spares.keep(gone);
    }

    /// Whether this was the last call of a caller of which something is kept.
    fn is_last(&self, caller: u64, call: u64) -> bool
        ensures yes { result ≡ true → last_of caller self.now ≡ Some call }
        ensures no { result ≡ false → last_of caller self.now ≡ Some call → ⊥ }
    {
        match self.callers.get(caller) {
            Some(entry) => entry.last == call,
            None => false,
        }
    }

    /// The order of a caller, if something is kept of it.
    fn order(&self, caller: u64) -> Option<&CallerOrder>
        ensures some { IfSome result (λ order. order.now ≡ order_of caller self.now) }
        ensures none { IfNone result (order_of caller self.now ≡ no_order) }
    {
        match self.callers.get(caller) {
            Some(entry) => Some(&entry.order),
            None => None,
        }
    }

    /// Adds the first call of a caller of which nothing is kept.
    fn begin_first(
        &mut self,
        alloc: Global,
        caller: u64,
        number: u64,
        orders: &[PartOrder],
    ) -> Result<CallPlaces, AllocError>
        requires unknown { kept_in caller self.old.callers ≡ None }
        requires joins { MayJoin number orders.now (order_of caller self.old) }
        ensures caller { IfOk result (λ places. places.caller ≡ caller) }
        ensures place { IfOk result (λ places. places.order ≡ end_of (order_of caller self.old)) }
        ensures joined { OnOk result (order_of caller self.new ≡ joined number orders.now (order_of caller self.old)) }
        ensures owed { OnOk result (Owes (owed_of caller self.old) (owed_of caller self.new) number true) }
        ensures last { OnOk result (last_of caller self.new ≡ Some number) }
        ensures others { OthersKept caller self.old self.new }
        ensures err { OnErr result (CallsKept self.old self.new) }
    {
        let mut entry = self.spares.take(alloc)?;
        let places = entry.begin(alloc, caller, number, orders)?;
        self.callers.insert(caller, entry)?;
        Ok(places)
    }
}
