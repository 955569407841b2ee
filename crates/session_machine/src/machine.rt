ghost use Rattle.std.specs.Prelude.{◌≡◌, ◌≢◌, ◌<◌, ◌≤◌, ◌⊎◌, ℕ, List, [], ◌∷◌, true, false, length, Ok, Some, None, IfOk, OnOk, OnErr, IfSome, IfNone, slice_get};
ghost use Rattle.session_core.specs.declared.link.Standing.TheVariants.{Open, Ended};
ghost use Rattle.std.specs.List.{list_all};
ghost use Rattle.session_core.specs.declared.part.Cause.TheVariants.{Overtaken, Late, NoNode};
ghost use Rattle.session_core.specs.declared.link.Ticket.TheVariants.{Login, Map};
ghost use Rattle.session_core.specs.Channel.{Channel, to_write};
ghost use Rattle.session_core.specs.Part.{PartState, is_waiting};
ghost use Rattle.session_machine.specs.Ties.{AreOrdered, AreFree};
ghost use Rattle.session_core.specs.LinkEvents as link;
ghost use Rattle.session_machine.specs.Begun.{HaveRequests};
ghost use Rattle.session_machine.specs.Links.{HasReply};
ghost use Rattle.session_machine.specs.Puts.{put_for};
ghost use Rattle.session_machine.specs.Took.{IsTook};
ghost use Rattle.session_machine.specs.Waiting.{IsOvertakenOn, IsHeldBack};

use crate::call::Call;
use crate::caller::CallPlaces;
use crate::callers::Callers;
use crate::calls::{Calls, call_of, waiting};
use crate::links::Links;
use crate::orders::orders_of;
use crate::part::Part;
use crate::part_places::{
    first_order, is_offered, is_past, note_asked, note_given_up, note_unsent, ordered_place,
    owes_before, place_of,
};
use crate::took::Took;
use crate::{calls, telling};
use session_core::{Cause, Seat, Standing, Taken, Ticket, Wait};
use std::alloc::{AllocError, Global};
use std::collections::VecDeque;
use std::marker::Model;

/// A session: its links, the calls that were not forgotten, and their callers.
///
/// A call of a function takes a time that grows with the logarithm of the number of callers and of parts
/// of one caller, and with the number of parts of the call, averaged over the calls. It does not grow with
/// the number of links or of calls. A part may be ended while others of its caller and slot wait before and
/// after it, or a call be given up while earlier and later ones of its caller are owed a reply. Then up to
/// half of their places or numbers also move by one.
#[derive(Drop)]
pub struct Machine {
    links: Links,
    /// How many calls were forgotten, which are the first ones.
    first: u64,
    calls: Calls,
    /// The caller of each call, and where the call stands among those of its caller.
    places: VecDeque<CallPlaces>,
    callers: Callers,
    /// How many parts began.
    began: u64,
}

impl Model for Machine {
    ghost use Rattle.session_core.specs.State.{State};
    ghost use Rattle.session_machine.specs.Kept.{IsKept};

    ghost Value = { State };

    ghost view = { λ s. record { links = s.links; first = s.first; calls = s.calls.items } };

    ghost invariant = { λ s. IsKept (record { links = s.links; first = s.first; calls = s.calls.items })
        s.places.items s.callers s.began };
}

impl Machine {
    ghost use Rattle.session_core.specs.State as machine;
    ghost use Rattle.session_core.specs.State.{start, CallState, Happens, On, Forget, Begin, GiveUp, End, Finish, Leave, Trim, AreApart, IsLink, IsTurn, MayAsk, MayEnd, MayFinish, MayLeave, left_call, begun, call_at, part_at};

    /// No links, no calls and no callers. Takes no memory.
    pub fn new(alloc: Global) -> Machine
        ensures { result ≡ start }
    {
        Machine {
            links: Links::new(alloc),
            first: 0,
            calls: VecDeque::new(alloc),
            places: VecDeque::new(alloc),
            callers: Callers::new(alloc),
            began: 0,
        }
    }

    /// Adds a new connection. No reply on it may have more than `most` bytes. Returns its number, which is
    /// a free one if there is one.
    ///
    /// # Errors
    ///
    /// If memory runs out. Nothing is added then.
    pub fn open(&mut self, alloc: Global, most: usize) -> Result<usize, AllocError>
        ensures ok { IfOk result (λ number. Happens self.old (machine.Open number most) self.new) }
        ensures again { IfOk result (λ number. (n : ℕ) → slice_get self.old.links n ≡ Some None
            → number < length self.old.links) }
        ensures err { OnErr result (self.new ≡ self.old) }
    {
        self.links.open(alloc, most)
    }

    /// How a link stands, if there is one of this number.
    pub fn standing(&self, number: usize) -> Option<Standing>
        ensures some { IfSome result (λ standing. (c : Channel) × IsLink self.now number c × (c.standing ≡ standing)) }
        ensures none { IfNone result ((c : Channel) → IsLink self.now number c → ⊥) }
    {
        match self.links.link(number) {
            Some(link) => Some(link.standing()),
            None => None,
        }
    }

    /// What is to be written on a link. If it is broken or ended, or there is none, this is nothing.
    pub fn unwritten(&self, number: usize) -> &[u8]
        ensures link { (c : Channel) → IsLink self.now number c → result.now ≡ to_write c.standing c.unwritten }
        ensures none { ((c : Channel) → IsLink self.now number c → ⊥) → result.now ≡ [] }
    {
        match self.links.link(number) {
            Some(link) => link.unwritten(),
            None => &[],
        }
    }

    /// Number of bytes that were asked on a link and are not noted as written, or 0 without a link.
    pub fn count_unwritten(&self, number: usize) -> usize
        ensures link { (c : Channel) → IsLink self.now number c → result ≡ length c.unwritten }
        ensures none { ((c : Channel) → IsLink self.now number c → ⊥) → result ≡ 0 }
    {
        match self.links.link(number) {
            Some(link) => link.count_unwritten(),
            None => 0,
        }
    }

    /// The first request that waits on a link, if there is one. The next reply is for it.
    pub fn first_wait(&self, number: usize) -> Option<Wait>
        ensures link { (c : Channel) → IsLink self.now number c → result ≡ slice_get c.waits 0 }
        ensures none { ((c : Channel) → IsLink self.now number c → ⊥) → result ≡ None }
    {
        match self.links.link(number) {
            Some(link) => link.first_wait(),
            None => None,
        }
    }

    /// Number of requests that wait on a link, or 0 without a link.
    pub fn count_waits(&self, number: usize) -> usize
        ensures link { (c : Channel) → IsLink self.now number c → result ≡ length c.waits }
        ensures none { ((c : Channel) → IsLink self.now number c → ⊥) → result ≡ 0 }
    {
        match self.links.link(number) {
            Some(link) => link.count_waits(),
            None => 0,
        }
    }

    /// Notes that `count` bytes more were written on a link. On a broken link, these are writes that
    /// were under way.
    pub fn wrote(&mut self, number: usize, count: usize)
        requires { (c : Channel) × IsLink self.old number c × (c.standing ≢ Ended) × (count ≤ length c.unwritten) }
        ensures { Happens self.old (On number (link.Write count)) self.new }
    {
        self.links.wrote(number, count);
    }

    /// Notes bytes that came on a link.
    ///
    /// # Errors
    ///
    /// If memory runs out. What follows these bytes can be told no more, so the link is to be closed.
    pub fn hear(&mut self, number: usize, bytes: &[u8]) -> Result<(), AllocError>
        requires { (c : Channel) × IsLink self.old number c × (c.standing ≡ Open) }
        ensures ok { OnOk result (Happens self.old (On number (link.Hear bytes.now)) self.new) }
        ensures err { OnErr result (Happens self.old (On number link.Miss) self.new) }
    {
        self.links.hear(number, bytes)
    }

    /// Ends the connection of a link. What waits there is lost: call [`Machine::lose`] for each.
    pub fn end(&mut self, number: usize)
        requires { (c : Channel) × IsLink self.old number c × (c.standing ≢ Ended) }
        ensures { Happens self.old (On number link.End) self.new }
    {
        self.links.end(number);
    }

    /// Forgets a link that ended and on which nobody waits. Returns whether it did. The number is given
    /// again.
    pub fn forget(&mut self, number: usize) -> bool
        ensures forgot { result ≡ true → Happens self.old (Forget number) self.new }
        ensures not { result ≡ false → self.new ≡ self.old }
        ensures why { result ≡ false → (c : Channel) → IsLink self.old number c → c.standing ≡ Ended
            → c.waits ≡ [] → ⊥ }
    {
        if !is_over(&self.links, number) {
            return false;
        }
        self.links.forget(number);
        true
    }

    /// How many calls have begun, which is the number of the next one.
    pub fn count_begun(&self) -> u64
        ensures { result ≡ begun self.now }
    {
        self.first + self.calls.len() as u64
    }

    /// Begins a call of these parts, each of which waits and has a request. Two of them have two slots, if
    /// they have any. Either each is free of the order, or none is. Returns its number.
    ///
    /// # Errors
    ///
    /// If memory runs out, or 2^64 - 1 calls or parts began. Nothing changes then.
    pub fn begin(&mut self, alloc: Global, caller: u64, parts: Vec<Part>) -> Result<u64, AllocError>
        requires some { HaveRequests parts.items }
        requires wait { list_all (λ p. is_waiting p.phase) parts.items ≡ true }
        requires apart { AreApart parts.items }
        requires alike { AreOrdered parts.items ⊎ AreFree parts.items }
        ensures ok { IfOk result (λ call. Happens self.old (Begin call caller parts.items) self.new) }
        ensures err { OnErr result (self.new ≡ self.old) }
    {
        let call = self.count_begun();
        if call == u64::MAX {
            return Err(AllocError);
        }
        let Some(began) = self.began.checked_add(parts.len() as u64) else {
            return Err(AllocError);
        };
        self.calls.reserve(1)?;
        self.places.reserve(1)?;
        let orders = orders_of(alloc, parts.as_slice())?;
        let places = self.callers.begin(alloc, caller, call, orders.as_slice())?;
        self.calls.push_back_reserved(Call::new(caller, parts));
        self.places.push_back_reserved(places);
        self.began = began;
        Ok(call)
    }

    /// Notes that a part that waits is not asked any more, as the time of its call is over. Returns
    /// whether it waited.
    pub fn end_late(&mut self, call: u64, part: usize) -> bool
        ensures ended { result ≡ true → Happens self.old (End call part Late) self.new }
        ensures not { result ≡ false → self.new ≡ self.old }
        ensures why { result ≡ false → (p : PartState) → part_at call part self.old ≡ Some p
            → is_waiting p.phase ≡ true → ⊥ }
    {
        self.end_part(call, part, Cause::Late)
    }

    /// Notes that a part that waits is not asked any more, as there is no node to ask. Returns whether
    /// it waited.
    pub fn end_without_node(&mut self, call: u64, part: usize) -> bool
        ensures ended { result ≡ true → Happens self.old (End call part NoNode) self.new }
        ensures not { result ≡ false → self.new ≡ self.old }
        ensures why { result ≡ false → (p : PartState) → part_at call part self.old ≡ Some p
            → is_waiting p.phase ≡ true → ⊥ }
    {
        self.end_part(call, part, Cause::NoNode)
    }

    /// Notes that nobody waits for the reply to a call any more. Its parts that wait are not asked.
    /// Returns whether somebody waited.
    pub fn give_up(&mut self, call: u64) -> bool
        ensures gave_up { result ≡ true → Happens self.old (GiveUp call) self.new }
        ensures not { result ≡ false → self.new ≡ self.old }
        ensures wanted { result ≡ true → (state : CallState) × (call_at call self.old ≡ Some state)
            × (state.is_wanted ≡ true) }
        ensures why { result ≡ false → (state : CallState) → call_at call self.old ≡ Some state
            → state.is_wanted ≡ true → ⊥ }
    {
        let Some(state) = call_of(self.first, &self.calls, call) else {
            return false;
        };
        if !state.is_wanted() {
            return false;
        }
        let caller = state.caller();
        let count = state.parts().len();
        let order = first_order(state);
        let place = place_of(self.first, &self.places, call, 0, order);
        calls::give_up(self.first, &mut self.calls, call);
        note_given_up(&mut self.callers, caller, place, count, order);
        self.callers.note_over(caller, call);
        true
    }

    /// Notes that the first part of a caller on a slot that is overtaken is not asked any more: it
    /// waits, and one of a later call is settled. Returns which part it is.
    pub fn end_overtaken(&mut self, caller: u64, slot: u16) -> Option<Seat>
        ensures ended { IfSome result (λ seat. Happens self.old (End seat.call seat.part Overtaken) self.new) }
        ensures own { IfSome result (λ seat. IsOvertakenOn caller slot seat.call seat.part self.old) }
        ensures none { IfNone result (self.new ≡ self.old) }
        ensures why { IfNone result ((call part : ℕ) → IsOvertakenOn caller slot call part self.old → ⊥) }
    {
        let Some(overtaken) = self.callers.overtaken_in(caller, slot) else {
            return None;
        };
        let seat = overtaken.seat;
        if !self.end_part(seat.call, seat.part, Cause::Overtaken) {
            return None;
        }
        Some(seat)
    }

    /// Forgets the parts of a call that nobody waits for, and whose parts are done. Returns whether it
    /// did. It does not while an earlier call of its caller is owed a reply, or while a part of one is
    /// not done.
    pub fn leave(&mut self, alloc: Global, call: u64) -> bool
        ensures left { result ≡ true → Happens self.old (Leave call) self.new }
        ensures not { result ≡ false → self.new ≡ self.old }
        ensures why { result ≡ false → MayLeave call self.old → IsHeldBack call self.old }
    {
        let Some(state) = call_of(self.first, &self.calls, call) else {
            return false;
        };
        if state.is_wanted() {
            return false;
        }
        if !state.is_done() {
            return false;
        }
        let caller = state.caller();
        if owes_before(&self.callers, caller, call) {
            return false;
        }
        let order = first_order(state);
        let last = state.parts().len().saturating_sub(1);
        let place = place_of(self.first, &self.places, call, last, order);
        if !is_past(&self.callers, caller, place, order) {
            return false;
        }
        calls::replace(self.first, &mut self.calls, call, Call::left(alloc));
        true
    }

    /// Forgets the place of the first call, if its parts were forgotten. Returns whether it did. With the
    /// last call of a caller, all that is kept of the caller goes.
    pub fn trim(&mut self) -> bool
        ensures trimmed { result ≡ true → Happens self.old Trim self.new }
        ensures not { result ≡ false → self.new ≡ self.old }
        ensures why { result ≡ false → slice_get self.old.calls 0 ≡ Some left_call → ⊥ }
    {
        let Some(front) = self.calls.front() else {
            return false;
        };
        if !front.is_left() {
            return false;
        }
        let caller = self.places[0].caller;
        self.callers.forget_after(caller, self.first);
        self.calls.pop_front();
        self.places.pop_front();
        self.first += 1;
        true
    }

    /// A call, if its number was not forgotten. A call that left has no parts, and caller 0.
    pub fn call(&self, call: u64) -> Option<&Call>
        ensures some { IfSome result (λ state. call_at call self.now ≡ Some state.now) }
        ensures none { IfNone result (call_at call self.now ≡ None) }
    {
        call_of(self.first, &self.calls, call)
    }

    /// A part of a call, if the call was not forgotten.
    pub fn part(&self, call: u64, part: usize) -> Option<&Part>
        ensures some { IfSome result (λ it. part_at call part self.now ≡ Some it.now) }
        ensures none { IfNone result (part_at call part self.now ≡ None) }
    {
        match call_of(self.first, &self.calls, call) {
            Some(state) => state.part(part),
            None => None,
        }
    }

    /// Asks the login of a link.
    ///
    /// # Errors
    ///
    /// If memory runs out, or 2^64 bytes were given to the link. Nothing is asked then.
    pub fn ask_login(&mut self, number: usize, request: &[u8]) -> Result<(), AllocError>
        requires open { (c : Channel) × IsLink self.old number c × (c.standing ≡ Open) }
        requires some { 0 < length request.now }
        ensures ok { OnOk result (Happens self.old (On number (link.Put ((Login, request.now) ∷ []))) self.new) }
        ensures err { OnErr result (self.new ≡ self.old) }
    {
        self.links.ask(number, Ticket::Login, request)
    }

    /// Asks `CLUSTER SLOTS` on a link, where `count` `MOVED` were learned before.
    ///
    /// # Errors
    ///
    /// If memory runs out, or 2^64 bytes were given to the link. Nothing is asked then.
    pub fn ask_map(&mut self, number: usize, count: u64, request: &[u8]) -> Result<(), AllocError>
        requires open { (c : Channel) × IsLink self.old number c × (c.standing ≡ Open) }
        requires some { 0 < length request.now }
        ensures ok { OnOk result (Happens self.old (On number (link.Put ((Map count, request.now) ∷ []))) self.new) }
        ensures err { OnErr result (self.new ≡ self.old) }
    {
        self.links.ask(number, Ticket::Map(count), request)
    }

    /// Asks a part of a call on a link, if it may be asked there now. Returns whether it did.
    ///
    /// # Errors
    ///
    /// If memory runs out, or 2^64 bytes were given to the link. Nothing is asked then.
    pub fn ask(&mut self, number: usize, call: u64, part: usize) -> Result<bool, AllocError>
        requires { (c : Channel) × IsLink self.old number c × (c.standing ≡ Open) }
        ensures asked { result ≡ Ok true → (request : List ℕ)
            × Happens self.old (On number (link.Put (put_for false call part request))) self.new }
        ensures not { result ≡ Ok false → self.new ≡ self.old }
        ensures why { result ≡ Ok false → (request : List ℕ) → MayAsk self.old number call part request → ⊥ }
        ensures err { OnErr result (self.new ≡ self.old) }
        ensures might { OnErr result ((request : List ℕ) × MayAsk self.old number call part request) }
    {
        self.put(number, call, part, false)
    }

    /// Asks a part of a call on a link with `ASKING` before it, if it may be asked there now. Returns
    /// whether it did.
    ///
    /// # Errors
    ///
    /// If memory runs out, or 2^64 bytes were given to the link. Nothing is asked then.
    pub fn ask_asking(&mut self, number: usize, call: u64, part: usize) -> Result<bool, AllocError>
        requires { (c : Channel) × IsLink self.old number c × (c.standing ≡ Open) }
        ensures asked { result ≡ Ok true → (request : List ℕ)
            × Happens self.old (On number (link.Put (put_for true call part request))) self.new }
        ensures not { result ≡ Ok false → self.new ≡ self.old }
        ensures why { result ≡ Ok false → (request : List ℕ) → MayAsk self.old number call part request → ⊥ }
        ensures err { OnErr result (self.new ≡ self.old) }
        ensures might { OnErr result ((request : List ℕ) × MayAsk self.old number call part request) }
    {
        self.put(number, call, part, true)
    }

    /// Takes the reply at the front of what came on a link, for the first that waits there.
    ///
    /// # Errors
    ///
    /// If memory runs out for a reply that came whole. Nothing is taken then.
    pub fn take(&mut self, alloc: Global, number: usize) -> Result<Took, AllocError>
        requires { (c : Channel) × IsLink self.old number c × (c.standing ≡ Open) }
        ensures took { IfOk result (λ took. IsTook number self.old took self.new) }
        ensures err { OnErr result (self.new ≡ self.old) }
        ensures cause { OnErr result (HasReply number self.old.links) }
    {
        match self.links.take(alloc, number)? {
            Taken::Nothing => Ok(Took::Nothing),
            Taken::Broken(cause) => Ok(Took::Broken(cause)),
            Taken::Reply(ticket, reply) => match ticket {
                Ticket::Login => Ok(Took::Login(reply)),
                Ticket::Map(count) => Ok(Took::Map(count, reply)),
                Ticket::Asking => Ok(Took::Asking(reply)),
                Ticket::Part(call, part) => Ok(telling::tell(
                    self.first,
                    &mut self.calls,
                    &self.places,
                    &mut self.callers,
                    call,
                    part,
                    reply,
                )),
            },
        }
    }

    /// Gives up the first that still waits on a link that ended. Returns its ticket, and whether some
    /// byte of it was written. If none was, no node has run it, and its part waits again.
    pub fn lose(&mut self, number: usize) -> Option<(Ticket, bool)>
        requires { (c : Channel) × IsLink self.old number c × (c.standing ≡ Ended) }
        ensures lost { IfSome result (λ lost. Happens self.old (On number (link.Lose lost.0 lost.1)) self.new) }
        ensures none { IfNone result (((c : Channel) → IsLink self.old number c → c.waits ≡ [])
            × (self.new ≡ self.old)) }
    {
        let Some((ticket, begun)) = self.links.lose(number) else {
            return None;
        };
        match ticket {
            Ticket::Login => Some((Ticket::Login, begun)),
            Ticket::Map(count) => Some((Ticket::Map(count), begun)),
            Ticket::Asking => Some((Ticket::Asking, begun)),
            Ticket::Part(call, part) => {
                telling::lose(
                    self.first,
                    &mut self.calls,
                    &self.places,
                    &mut self.callers,
                    call,
                    part,
                    begun,
                );
                Some((Ticket::Part(call, part), begun))
            }
        }
    }

    /// The part of a caller on a slot that may be asked now on some link, if there is one.
    pub fn next_part(&self, caller: u64, slot: u16) -> Option<Seat> {
        match self.callers.askable_in(caller, slot) {
            Some(askable) => Some(askable.seat),
            None => None,
        }
    }

    /// Whether a part waits for earlier calls of its caller, whatever becomes of its slot: it has no slot, or an
    /// earlier part that is not done has none. Then it may be asked on no link.
    pub fn is_held_back(&self, call: u64, part: usize) -> bool
        ensures { result ≡ true → (number : ℕ) (request : List ℕ)
            → MayAsk self.now number call part request → ⊥ }
    {
        let Some((state, it)) = waiting(self.first, &self.calls, call, part) else {
            return false;
        };
        let caller = state.caller();
        let order = it.order();
        let Some(place) = ordered_place(self.first, &self.places, call, part, order) else {
            return false;
        };
        self.callers.is_held_back(caller, place)
    }

    /// Notes that the reply to a call goes out, which is made of [`Machine::call`]. Returns whether it
    /// does: somebody waits for it, it is the next one of its caller, and no part of it waits.
    pub fn finish(&mut self, call: u64) -> bool
        ensures finished { result ≡ true → (state : CallState) × Happens self.old (Finish call state) self.new }
        ensures not { result ≡ false → self.new ≡ self.old }
        ensures why { result ≡ false → (state : CallState) → MayFinish call state self.old → ⊥ }
    {
        let Some(state) = call_of(self.first, &self.calls, call) else {
            return false;
        };
        if !state.is_wanted() {
            return false;
        }
        if !state.has_none_waiting() {
            return false;
        }
        let caller = state.caller();
        let Some(next) = self.callers.next_reply(caller) else {
            return false;
        };
        if next != call {
            return false;
        }
        calls::note_replied(self.first, &mut self.calls, call);
        self.callers.note_over(caller, next);
        true
    }

    /// The call of a caller whose reply is next, if any is owed.
    pub fn next_call(&self, caller: u64) -> Option<u64>
        ensures some { IfSome result (λ call. (state : CallState) × (call_at call self.now ≡ Some state)
            × (state.caller ≡ caller) × (state.is_wanted ≡ true) × IsTurn self.now caller call) }
        ensures none { IfNone result ((call : ℕ) (state : CallState) → call_at call self.now ≡ Some state
            → state.caller ≡ caller → state.is_wanted ≡ true → ⊥) }
    {
        self.callers.next_reply(caller)
    }

    /// Notes that a part that waits is not asked any more, for this cause.
    fn end_part(&mut self, call: u64, part: usize, cause: Cause) -> bool
        requires { MayEnd self.old call part cause }
        ensures ended { result ≡ true → Happens self.old (End call part cause) self.new }
        ensures not { result ≡ false → self.new ≡ self.old }
        ensures why { result ≡ false → (p : PartState) → part_at call part self.old ≡ Some p
            → is_waiting p.phase ≡ true → ⊥ }
    {
        let Some((state, it)) = waiting(self.first, &self.calls, call, part) else {
            return false;
        };
        let caller = state.caller();
        let order = it.order();
        let place = place_of(self.first, &self.places, call, part, order);
        calls::note_ended(self.first, &mut self.calls, call, part, cause);
        note_unsent(&mut self.callers, caller, place, order);
        true
    }

    /// Asks a part on a link, with `ASKING` before it or without.
    fn put(&mut self, number: usize, call: u64, part: usize, asks: bool) -> Result<bool, AllocError>
        requires { (c : Channel) × IsLink self.old number c × (c.standing ≡ Open) }
        ensures asked { result ≡ Ok true → (request : List ℕ)
            × Happens self.old (On number (link.Put (put_for asks call part request))) self.new }
        ensures not { result ≡ Ok false → self.new ≡ self.old }
        ensures why { result ≡ Ok false → (request : List ℕ) → MayAsk self.old number call part request → ⊥ }
        ensures err { OnErr result (self.new ≡ self.old) }
        ensures might { OnErr result ((request : List ℕ) × MayAsk self.old number call part request) }
    {
        let Some((state, it)) = waiting(self.first, &self.calls, call, part) else {
            return Ok(false);
        };
        if !state.is_wanted() {
            return Ok(false);
        }
        let caller = state.caller();
        let order = it.order();
        let place = place_of(self.first, &self.places, call, part, order);
        if !is_offered(&self.callers, caller, place, order, number) {
            return Ok(false);
        }
        self.links.put(number, call, part, it.request(), asks)?;
        calls::note_asked(self.first, &mut self.calls, call, part, number);
        note_asked(&mut self.callers, caller, place, order, number);
        Ok(true)
    }
}

/// Whether a link ended, and nobody waits on it.
fn is_over(links: &Links, number: usize) -> bool
    ensures over { result ≡ true → (c : Channel) × (slice_get links.now number ≡ Some (Some c))
        × (c.standing ≡ Ended) × (c.waits ≡ []) }
    ensures not { result ≡ false → (c : Channel) → slice_get links.now number ≡ Some (Some c)
        → c.standing ≡ Ended → c.waits ≡ [] → ⊥ }
{
    match links.link(number) {
        Some(link) => matches!(link.standing(), Standing::Ended) && link.is_idle(),
        None => false,
    }
}
