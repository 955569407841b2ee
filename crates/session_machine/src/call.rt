ghost use Rattle.std.specs.Prelude.{◌≡◌};
ghost use Rattle.session_machine.specs.Calls.{ended_all};

use crate::part::Part;
use session_core::Cause;
use std::alloc::Global;
use std::marker::Model;

/// A call: its parts, and whether somebody waits for its reply.
#[derive(Drop)]
pub struct Call {
    caller: u64,
    parts: Vec<Part>,
    is_wanted: bool,
}

impl Model for Call {
    ghost use Rattle.session_core.specs.State.{CallState};

    ghost Value = { CallState };

    ghost view = { λ c. record { caller = c.caller; parts = c.parts.items; is_wanted = c.is_wanted } };
}

impl Call {
    ghost use Rattle.std.specs.Prelude.{true, false, not, IfSome, IfNone, slice_get, Some, None, option_copied};
    ghost use Rattle.std.specs.List.{list_all};
    ghost use Rattle.session_core.specs.Part.{PartState, is_waiting, is_done, is_refusal, phase_asked, phase_told, phase_lost, phase_ended};
    ghost use Rattle.session_core.specs.State.{left_call};
    ghost use Rattle.session_machine.specs.Part.{Keeps, Returns};
    ghost use Rattle.session_machine.specs.Calls.{with_phase, given_up, replied};

    /// A call of these parts, whose reply somebody waits for.
    pub(crate) fn new(caller: u64, parts: Vec<Part>) -> Call
        ensures { result ≡ record { caller = caller; parts = parts.items; is_wanted = true } }
    {
        Call {
            caller,
            parts,
            is_wanted: true,
        }
    }

    /// What stands in the place of a call whose parts are forgotten.
    pub(crate) fn left(alloc: Global) -> Call
        ensures { result ≡ left_call }
    {
        Call {
            caller: 0,
            parts: Vec::new(alloc),
            is_wanted: false,
        }
    }

    /// The number of its caller.
    pub fn caller(&self) -> u64
        ensures { result ≡ self.now.caller }
    {
        self.caller
    }

    /// Its parts.
    pub fn parts(&self) -> &[Part]
        ensures { result.now ≡ self.now.parts }
    {
        self.parts.as_slice()
    }

    /// The part of this index.
    pub fn part(&self, part: usize) -> Option<&Part>
        ensures some { IfSome result (λ it. slice_get self.now.parts part ≡ Some it.now) }
        ensures none { IfNone result (slice_get self.now.parts part ≡ None) }
    {
        self.parts.get(part)
    }

    /// Whether somebody waits for its reply.
    pub fn is_wanted(&self) -> bool
        ensures { result ≡ self.now.is_wanted }
    {
        self.is_wanted
    }

    /// Whether no part waits to be asked.
    pub fn has_none_waiting(&self) -> bool
        ensures { result ≡ list_all (λ p. not (is_waiting p.phase)) self.now.parts }
    {
        self.parts.iter().all(|part| !part.is_waiting())
    }

    /// Whether each part is settled, or never asked again.
    pub fn is_done(&self) -> bool
        ensures { result ≡ list_all (λ p. is_done p.phase) self.now.parts }
    {
        self.parts.iter().all(|part| part.is_done())
    }

    /// Whether its parts are forgotten.
    pub(crate) fn is_left(&self) -> bool
        ensures left { result ≡ true → self.now ≡ left_call }
        ensures not { result ≡ false → self.now ≡ left_call → ⊥ }
    {
        self.caller == 0 && self.parts.is_empty() && !self.is_wanted
    }

    /// Notes that a part was asked on this link, if it waits.
    pub(crate) fn note_asked(&mut self, part: usize, link: usize)
        ensures { self.new ≡ with_phase part (λ state p. phase_asked link p.phase) self.old }
    {
        if part < self.parts.len() {
            self.parts[part].note_asked(link);
        }
    }

    /// Notes the reply that came for a part. Returns the reply if the part does not keep it.
    pub(crate) fn note_told(&mut self, part: usize, reply: Vec<u8>) -> Option<Vec<u8>>
        ensures told { self.new ≡ with_phase part
            (λ state p. phase_told state.is_wanted (is_refusal p reply.items) reply.items p.phase) self.old }
        ensures back { IfSome result (λ back. back.items ≡ reply.items) }
        ensures returned { IfSome result (λ back. (p : PartState) → slice_get self.old.parts part ≡ Some p
            → Returns reply.items self.old.is_wanted p) }
        ensures kept { IfNone result ((p : PartState) → slice_get self.new.parts part ≡ Some p → Keeps reply.items p.phase) }
    {
        if self.parts.len() <= part {
            return Some(reply);
        }
        self.parts[part].note_told(self.is_wanted, reply)
    }

    /// Notes that the link of a part ended. Some byte of the part was written, or none.
    pub(crate) fn note_lost(&mut self, part: usize, begun: bool)
        ensures { self.new ≡ with_phase part (λ state p. phase_lost state.is_wanted begun p.phase) self.old }
    {
        if part < self.parts.len() {
            self.parts[part].note_lost(self.is_wanted, begun);
        }
    }

    /// Notes that a part is not asked any more, if it waits.
    pub(crate) fn note_ended(&mut self, part: usize, cause: Cause)
        ensures { self.new ≡ with_phase part (λ state p. phase_ended cause p.phase) self.old }
    {
        if part < self.parts.len() {
            self.parts[part].note_ended(cause);
        }
    }

    /// Notes that nobody waits for its reply any more.
    pub(crate) fn give_up(&mut self)
        ensures { self.new ≡ given_up self.old }
    {
        end_all(&mut self.parts);
        self.is_wanted = false;
    }

    /// Notes that its reply was made.
    pub(crate) fn note_replied(&mut self)
        ensures { self.new ≡ replied self.old }
    {
        self.is_wanted = false;
    }
}

/// Notes that the parts that wait are not asked any more.
fn end_all(parts: &mut [Part])
    ensures { parts.new ≡ ended_all parts.old }
{
    for index in 0..parts.len() {
        parts[index].note_ended(Cause::GivenUp);
    }
}
