//! The machine of a session, and which replies are there.

ghost use Rattle.std.specs.Prelude.{◌≡◌, ◌≢◌, ◌<◌, ◌≤◌, ◌⊎◌, ℕ, List, [], ◌∷◌, true, false, length, Ok, Some, None, IfOk, OnOk, OnErr, IfSome, IfNone, slice_get};
ghost use Rattle.std.specs.List.{list_all};
ghost use Rattle.session_core.specs.declared.link.Standing.TheVariants.{Open, Ended};
ghost use Rattle.session_core.specs.declared.part.Cause.TheVariants.{Overtaken, Late, NoNode};
ghost use Rattle.session_core.specs.declared.link.Ticket.TheVariants.{Login, Map};
ghost use Rattle.session_core.specs.Channel.{Channel, to_write};
ghost use Rattle.session_core.specs.LinkEvents as link;
ghost use Rattle.session_core.specs.Part.{PartState, is_waiting};
ghost use Rattle.session_core.specs.State as machine;
ghost use Rattle.session_core.specs.State.{start, CallState, Happens, On, Forget, Begin, GiveUp, End, Finish, Leave, Trim, AreApart, IsLink, IsTurn, MayAsk, MayFinish, MayLeave, left_call, begun, call_at, part_at};
ghost use Rattle.session_machine.specs.Ties.{AreOrdered, AreFree};
ghost use Rattle.session_machine.specs.Begun.{HaveRequests};
ghost use Rattle.session_machine.specs.Links.{HasReply};
ghost use Rattle.session_machine.specs.Puts.{put_for};
ghost use Rattle.session_machine.specs.Took.{IsTook};
ghost use Rattle.session_machine.specs.Waiting.{IsOvertakenOn, IsHeldBack};
ghost use Rattle.redis_session.specs.Due.{IsDone, AreNoted, AreNotedBut, taken_call};

use crate::due::Due;
use session_core::{Seat, Standing, Ticket};
use session_machine::{Call, Machine, Part, Took};
use std::alloc::{AllocError, Global};
use std::marker::Model;

/// The machine of a session, and which replies are there. What happens to the machine happens through this type, so
/// that each caller is noted whose reply may be there by that.
#[derive(Drop)]
pub(crate) struct DueMachine {
    machine: Machine,
    due: Due,
}

impl Model for DueMachine {
    ghost use Rattle.session_core.specs.State.{State};
    ghost use Rattle.redis_session.specs.Due.{AreNoted};

    ghost Value = { State };

    ghost view = { λ s. s.machine };

    ghost invariant = { λ s. AreNoted s.due s.machine };
}

impl DueMachine {
    /// No links, no calls and no callers. Takes no memory.
    pub(crate) fn new(alloc: Global) -> DueMachine
        ensures { result ≡ start }
    {
        DueMachine {
            machine: Machine::new(alloc),
            due: Due::new(alloc),
        }
    }

    /// The caller and the call of the first reply that is there. It is the next one of its caller, and each part of the
    /// call is done. O(log n), averaged over the replies and over what may make one be there.
    pub(crate) fn first_due(&mut self) -> Option<(u64, u64)>
        ensures some { IfSome result (λ it. IsDone it.0 it.1 self.new) }
        ensures none { IfNone result ((caller call : ℕ) → IsDone caller call self.new → ⊥) }
        ensures state { self.new ≡ self.old }
    {
        if let Some(found) = first_in_queue(&self.machine, &mut self.due) {
            return Some(found);
        }
        first_of_rest(&self.machine, &mut self.due)
    }

    /// Puts the caller of [`DueMachine::first_due`] behind the others.
    pub(crate) fn turn_due(&mut self)
        ensures { self.new ≡ self.old }
    {
        self.due.turn();
    }

    /// As [`Machine::open`].
    pub(crate) fn open(&mut self, alloc: Global, most: usize) -> Result<usize, AllocError>
        ensures ok { IfOk result (λ number. Happens self.old (machine.Open number most) self.new) }
        ensures again { IfOk result (λ number. (n : ℕ) → slice_get self.old.links n ≡ Some None
            → number < length self.old.links) }
        ensures err { OnErr result (self.new ≡ self.old) }
    {
        self.machine.open(alloc, most)
    }

    /// As [`Machine::standing`].
    pub(crate) fn standing(&self, number: usize) -> Option<Standing>
        ensures some { IfSome result (λ standing. (c : Channel) × IsLink self.now number c × (c.standing ≡ standing)) }
        ensures none { IfNone result ((c : Channel) → IsLink self.now number c → ⊥) }
    {
        self.machine.standing(number)
    }

    /// As [`Machine::unwritten`].
    pub(crate) fn unwritten(&self, number: usize) -> &[u8]
        ensures link { (c : Channel) → IsLink self.now number c → result.now ≡ to_write c.standing c.unwritten }
        ensures none { ((c : Channel) → IsLink self.now number c → ⊥) → result.now ≡ [] }
    {
        self.machine.unwritten(number)
    }

    /// As [`Machine::count_unwritten`].
    pub(crate) fn count_unwritten(&self, number: usize) -> usize
        ensures link { (c : Channel) → IsLink self.now number c → result ≡ length c.unwritten }
        ensures none { ((c : Channel) → IsLink self.now number c → ⊥) → result ≡ 0 }
    {
        self.machine.count_unwritten(number)
    }

    /// As [`Machine::count_waits`].
    pub(crate) fn count_waits(&self, number: usize) -> usize
        ensures link { (c : Channel) → IsLink self.now number c → result ≡ length c.waits }
        ensures none { ((c : Channel) → IsLink self.now number c → ⊥) → result ≡ 0 }
    {
        self.machine.count_waits(number)
    }

    /// As [`Machine::wrote`].
    pub(crate) fn wrote(&mut self, number: usize, count: usize)
        requires { (c : Channel) × IsLink self.old number c × (c.standing ≢ Ended) × (count ≤ length c.unwritten) }
        ensures { Happens self.old (On number (link.Write count)) self.new }
    {
        self.machine.wrote(number, count);
    }

    /// As [`Machine::hear`].
    pub(crate) fn hear(&mut self, number: usize, bytes: &[u8]) -> Result<(), AllocError>
        requires { (c : Channel) × IsLink self.old number c × (c.standing ≡ Open) }
        ensures ok { OnOk result (Happens self.old (On number (link.Hear bytes.now)) self.new) }
        ensures err { OnErr result (Happens self.old (On number link.Miss) self.new) }
    {
        self.machine.hear(number, bytes)
    }

    /// As [`Machine::end`].
    pub(crate) fn end(&mut self, number: usize)
        requires { (c : Channel) × IsLink self.old number c × (c.standing ≢ Ended) }
        ensures { Happens self.old (On number link.End) self.new }
    {
        self.machine.end(number);
    }

    /// As [`Machine::forget`].
    pub(crate) fn forget(&mut self, number: usize) -> bool
        ensures forgot { result ≡ true → Happens self.old (Forget number) self.new }
        ensures not { result ≡ false → self.new ≡ self.old }
        ensures why { result ≡ false → (c : Channel) → IsLink self.old number c → c.standing ≡ Ended
            → c.waits ≡ [] → ⊥ }
    {
        self.machine.forget(number)
    }

    /// As [`Machine::count_begun`].
    pub(crate) fn count_begun(&self) -> u64
        ensures { result ≡ begun self.now }
    {
        self.machine.count_begun()
    }

    /// As [`Machine::begin`].
    pub(crate) fn begin(
        &mut self,
        alloc: Global,
        caller: u64,
        parts: Vec<Part>,
    ) -> Result<u64, AllocError>
        requires some { HaveRequests parts.items }
        requires wait { list_all (λ p. is_waiting p.phase) parts.items ≡ true }
        requires apart { AreApart parts.items }
        requires alike { AreOrdered parts.items ⊎ AreFree parts.items }
        ensures ok { IfOk result (λ call. Happens self.old (Begin call caller parts.items) self.new) }
        ensures err { OnErr result (self.new ≡ self.old) }
    {
        let count = parts.len();
        let call = self.machine.begin(alloc, caller, parts)?;
        if count == 0 {
            note_call(&self.machine, &mut self.due, call);
        }
        Ok(call)
    }

    /// As [`Machine::end_late`].
    pub(crate) fn end_late(&mut self, call: u64, part: usize) -> bool
        ensures ended { result ≡ true → Happens self.old (End call part Late) self.new }
        ensures not { result ≡ false → self.new ≡ self.old }
        ensures why { result ≡ false → (p : PartState) → part_at call part self.old ≡ Some p
            → is_waiting p.phase ≡ true → ⊥ }
    {
        if !self.machine.end_late(call, part) {
            return false;
        }
        note_call(&self.machine, &mut self.due, call);
        true
    }

    /// As [`Machine::end_without_node`].
    pub(crate) fn end_without_node(&mut self, call: u64, part: usize) -> bool
        ensures ended { result ≡ true → Happens self.old (End call part NoNode) self.new }
        ensures not { result ≡ false → self.new ≡ self.old }
        ensures why { result ≡ false → (p : PartState) → part_at call part self.old ≡ Some p
            → is_waiting p.phase ≡ true → ⊥ }
    {
        if !self.machine.end_without_node(call, part) {
            return false;
        }
        note_call(&self.machine, &mut self.due, call);
        true
    }

    /// As [`Machine::give_up`].
    pub(crate) fn give_up(&mut self, call: u64) -> bool
        ensures gave_up { result ≡ true → Happens self.old (GiveUp call) self.new }
        ensures not { result ≡ false → self.new ≡ self.old }
        ensures wanted { result ≡ true → (state : CallState) × (call_at call self.old ≡ Some state)
            × (state.is_wanted ≡ true) }
        ensures why { result ≡ false → (state : CallState) → call_at call self.old ≡ Some state
            → state.is_wanted ≡ true → ⊥ }
    {
        if !self.machine.give_up(call) {
            return false;
        }
        note_call(&self.machine, &mut self.due, call);
        true
    }

    /// As [`Machine::end_overtaken`].
    pub(crate) fn end_overtaken(&mut self, caller: u64, slot: u16) -> Option<Seat>
        ensures ended { IfSome result (λ seat. Happens self.old (End seat.call seat.part Overtaken) self.new) }
        ensures own { IfSome result (λ seat. IsOvertakenOn caller slot seat.call seat.part self.old) }
        ensures none { IfNone result (self.new ≡ self.old) }
        ensures why { IfNone result ((call part : ℕ) → IsOvertakenOn caller slot call part self.old → ⊥) }
    {
        let Some(seat) = self.machine.end_overtaken(caller, slot) else {
            return None;
        };
        note_call(&self.machine, &mut self.due, seat.call);
        Some(seat)
    }

    /// As [`Machine::leave`].
    pub(crate) fn leave(&mut self, alloc: Global, call: u64) -> bool
        ensures left { result ≡ true → Happens self.old (Leave call) self.new }
        ensures not { result ≡ false → self.new ≡ self.old }
        ensures why { result ≡ false → MayLeave call self.old → IsHeldBack call self.old }
    {
        self.machine.leave(alloc, call)
    }

    /// As [`Machine::trim`].
    pub(crate) fn trim(&mut self) -> bool
        ensures trimmed { result ≡ true → Happens self.old Trim self.new }
        ensures not { result ≡ false → self.new ≡ self.old }
        ensures why { result ≡ false → slice_get self.old.calls 0 ≡ Some left_call → ⊥ }
    {
        if !self.machine.trim() {
            return false;
        }
        self.due.note_trimmed();
        true
    }

    /// As [`Machine::call`].
    pub(crate) fn call(&self, call: u64) -> Option<&Call>
        ensures some { IfSome result (λ state. call_at call self.now ≡ Some state.now) }
        ensures none { IfNone result (call_at call self.now ≡ None) }
    {
        self.machine.call(call)
    }

    /// As [`Machine::part`].
    pub(crate) fn part(&self, call: u64, part: usize) -> Option<&Part>
        ensures some { IfSome result (λ it. part_at call part self.now ≡ Some it.now) }
        ensures none { IfNone result (part_at call part self.now ≡ None) }
    {
        self.machine.part(call, part)
    }

    /// As [`Machine::ask_login`].
    pub(crate) fn ask_login(&mut self, number: usize, request: &[u8]) -> Result<(), AllocError>
        requires open { (c : Channel) × IsLink self.old number c × (c.standing ≡ Open) }
        requires some { 0 < length request.now }
        ensures ok { OnOk result (Happens self.old (On number (link.Put ((Login, request.now) ∷ []))) self.new) }
        ensures err { OnErr result (self.new ≡ self.old) }
    {
        self.machine.ask_login(number, request)
    }

    /// As [`Machine::ask_map`].
    pub(crate) fn ask_map(
        &mut self,
        number: usize,
        count: u64,
        request: &[u8],
    ) -> Result<(), AllocError>
        requires open { (c : Channel) × IsLink self.old number c × (c.standing ≡ Open) }
        requires some { 0 < length request.now }
        ensures ok { OnOk result (Happens self.old (On number (link.Put ((Map count, request.now) ∷ []))) self.new) }
        ensures err { OnErr result (self.new ≡ self.old) }
    {
        self.machine.ask_map(number, count, request)
    }

    /// As [`Machine::ask`].
    pub(crate) fn ask(&mut self, number: usize, call: u64, part: usize) -> Result<bool, AllocError>
        requires { (c : Channel) × IsLink self.old number c × (c.standing ≡ Open) }
        ensures asked { result ≡ Ok true → (request : List ℕ)
            × Happens self.old (On number (link.Put (put_for false call part request))) self.new }
        ensures not { result ≡ Ok false → self.new ≡ self.old }
        ensures why { result ≡ Ok false → (request : List ℕ) → MayAsk self.old number call part request → ⊥ }
        ensures err { OnErr result (self.new ≡ self.old) }
        ensures might { OnErr result ((request : List ℕ) × MayAsk self.old number call part request) }
    {
        self.machine.ask(number, call, part)
    }

    /// As [`Machine::ask_asking`].
    pub(crate) fn ask_asking(
        &mut self,
        number: usize,
        call: u64,
        part: usize,
    ) -> Result<bool, AllocError>
        requires { (c : Channel) × IsLink self.old number c × (c.standing ≡ Open) }
        ensures asked { result ≡ Ok true → (request : List ℕ)
            × Happens self.old (On number (link.Put (put_for true call part request))) self.new }
        ensures not { result ≡ Ok false → self.new ≡ self.old }
        ensures why { result ≡ Ok false → (request : List ℕ) → MayAsk self.old number call part request → ⊥ }
        ensures err { OnErr result (self.new ≡ self.old) }
        ensures might { OnErr result ((request : List ℕ) × MayAsk self.old number call part request) }
    {
        self.machine.ask_asking(number, call, part)
    }

    /// As [`Machine::take`].
    pub(crate) fn take(&mut self, alloc: Global, number: usize) -> Result<Took, AllocError>
        requires { (c : Channel) × IsLink self.old number c × (c.standing ≡ Open) }
        ensures took { IfOk result (λ took. IsTook number self.old took self.new) }
        ensures err { OnErr result (self.new ≡ self.old) }
        ensures cause { OnErr result (HasReply number self.old.links) }
    {
        let took = self.machine.take(alloc, number)?;
        if let Some(call) = call_of(&took) {
            note_call(&self.machine, &mut self.due, call);
        }
        Ok(took)
    }

    /// As [`Machine::lose`].
    pub(crate) fn lose(&mut self, number: usize) -> Option<(Ticket, bool)>
        requires { (c : Channel) × IsLink self.old number c × (c.standing ≡ Ended) }
        ensures lost { IfSome result (λ lost. Happens self.old (On number (link.Lose lost.0 lost.1)) self.new) }
        ensures none { IfNone result (((c : Channel) → IsLink self.old number c → c.waits ≡ [])
            × (self.new ≡ self.old)) }
    {
        let lost = self.machine.lose(number)?;
        if let Ticket::Part(call, _) = lost.0 {
            note_call(&self.machine, &mut self.due, call);
        }
        Some(lost)
    }

    /// As [`Machine::next_part`].
    pub(crate) fn next_part(&self, caller: u64, slot: u16) -> Option<Seat> {
        self.machine.next_part(caller, slot)
    }

    /// As [`Machine::is_held_back`].
    pub(crate) fn is_held_back(&self, call: u64, part: usize) -> bool
        ensures { result ≡ true → (number : ℕ) (request : List ℕ)
            → MayAsk self.now number call part request → ⊥ }
    {
        self.machine.is_held_back(call, part)
    }

    /// As [`Machine::finish`].
    pub(crate) fn finish(&mut self, call: u64) -> bool
        ensures finished { result ≡ true → (state : CallState) × Happens self.old (Finish call state) self.new }
        ensures not { result ≡ false → self.new ≡ self.old }
        ensures why { result ≡ false → (state : CallState) → MayFinish call state self.old → ⊥ }
    {
        if !self.machine.finish(call) {
            return false;
        }
        note_call(&self.machine, &mut self.due, call);
        true
    }

    /// As [`Machine::next_call`].
    pub(crate) fn next_call(&self, caller: u64) -> Option<u64>
        ensures some { IfSome result (λ call. (state : CallState) × (call_at call self.now ≡ Some state)
            × (state.caller ≡ caller) × (state.is_wanted ≡ true) × IsTurn self.now caller call) }
        ensures none { IfNone result ((call : ℕ) (state : CallState) → call_at call self.now ≡ Some state
            → state.caller ≡ caller → state.is_wanted ≡ true → ⊥) }
    {
        self.machine.next_call(caller)
    }
}

/// The call that a reply was taken for.
fn call_of(took: &Took) -> Option<u64>
    ensures { result ≡ taken_call took.now }
{
    match took {
        Took::Kept(seat) | Took::Back(seat, _) => Some(seat.call),
        _ => None,
    }
}

/// Notes that a reply of the caller of a call may be there.
fn note_call(machine: &Machine, due: &mut Due, call: u64)
    requires { AreNotedBut call due.old machine.now }
    ensures { AreNoted due.new machine.now }
{
    let Some(state) = machine.call(call) else {
        return;
    };
    // As many notes as there are calls pay for a look at each call.
    let most = machine.count_begun().saturating_sub(due.first_call());
    due.note(state.caller(), most as usize);
}

/// The caller and the call of the first reply that is there, of the callers in the queue. Those before it are dropped.
fn first_in_queue(machine: &Machine, due: &mut Due) -> Option<(u64, u64)>
    requires { AreNoted due.old machine.now }
    ensures some { IfSome result (λ it. IsDone it.0 it.1 machine.now) }
    ensures none { IfNone result (due.new.callers.items ≡ []) }
    ensures noted { AreNoted due.new machine.now }
{
    while let Some(caller) = due.first() {
        if let Some(call) = done_call(machine, caller) {
            return Some((caller, call));
        }
        due.drop_first();
    }
    None
}

/// The caller and the call of the first reply that is there, of the calls that are looked at one by one.
fn first_of_rest(machine: &Machine, due: &mut Due) -> Option<(u64, u64)>
    requires noted { AreNoted due.old machine.now }
    requires empty { due.old.callers.items ≡ [] }
    ensures some { IfSome result (λ it. IsDone it.0 it.1 machine.now) }
    ensures none { IfNone result ((caller call : ℕ) → IsDone caller call machine.now → ⊥) }
    ensures noted { AreNoted due.new machine.now }
{
    for call in due.from()..machine.count_begun() {
        if let Some(caller) = done_caller(machine, call) {
            due.take_up(caller);
            return Some((caller, call));
        }
        due.pass();
    }
    None
}

/// The call of a caller whose reply is there.
fn done_call(machine: &Machine, caller: u64) -> Option<u64>
    ensures some { IfSome result (λ call. IsDone caller call machine.now) }
    ensures none { IfNone result ((call : ℕ) → IsDone caller call machine.now → ⊥) }
{
    let call = machine.next_call(caller)?;
    let state = machine.call(call)?;
    if state.is_done() { Some(call) } else { None }
}

/// The caller of a call, if the reply to the call is there.
fn done_caller(machine: &Machine, call: u64) -> Option<u64>
    ensures some { IfSome result (λ caller. IsDone caller call machine.now) }
    ensures none { IfNone result ((caller : ℕ) → IsDone caller call machine.now → ⊥) }
{
    let Some(state) = machine.call(call) else {
        return None;
    };
    let caller = state.caller();
    let Some(next) = machine.next_call(caller) else {
        return None;
    };
    if next != call {
        return None;
    }
    if state.is_done() { Some(caller) } else { None }
}
