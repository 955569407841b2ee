//! The links of a session by their numbers.

ghost use Rattle.std.specs.Prelude.{◌≡◌, ◌≢◌, ◌<◌, ◌≤◌, ℕ, [], ◌∷◌, length, Some, None, IfOk, OnOk, OnErr, IfSome, IfNone, slice_get};
ghost use Rattle.session_core.specs.declared.link.Standing.TheVariants.{Open, Ended};
ghost use Rattle.session_core.specs.declared.link.Ticket.TheVariants.{Asking, Part};
ghost use Rattle.session_core.specs.Channel.{Channel, to_write};
ghost use Rattle.session_core.specs.LinkEvents.{Put, Write, Hear, Miss, End, Lose, asking};
ghost use Rattle.session_machine.specs.Links.{HasLink, HasReply, HappensOn, IsTakenOn, Opens, Forgets};
ghost use Rattle.session_machine.specs.Puts.{put_for};

use session_core::{Link, Standing, Taken, Ticket, Wait};
use std::alloc::{AllocError, Global};
use std::marker::Model;

/// The links of a session. A number is given again when its link was forgotten.
#[derive(Drop)]
pub(crate) struct Links {
    slots: Vec<Option<Link>>,
    free: Vec<usize>,
}

impl Model for Links {
    ghost use Rattle.std.specs.Prelude.{◌≤◌, List, Option, length};
    ghost use Rattle.std.specs.Vec.{vec_capacity};
    ghost use Rattle.session_core.specs.Channel.{Channel};
    ghost use Rattle.session_machine.specs.Free.{AreFree};

    ghost Value = { List (Option Channel) };

    ghost view = { λ l. l.slots.items };

    ghost invariant = { λ l. AreFree l.free.items l.slots.items × (length l.slots.items ≤ vec_capacity l.free) };
}

impl Links {
    /// No links.
    pub(crate) fn new(alloc: Global) -> Links
        ensures { result ≡ [] }
    {
        Links {
            slots: Vec::new(alloc),
            free: Vec::new(alloc),
        }
    }

    /// Adds a new connection. No reply may have more than `most` bytes. Returns its number, which is a
    /// free one if there is one.
    ///
    /// # Errors
    ///
    /// If memory runs out. Nothing is added then.
    pub(crate) fn open(&mut self, alloc: Global, most: usize) -> Result<usize, AllocError>
        ensures ok { IfOk result (λ number. Opens number most self.old self.new) }
        ensures again { IfOk result (λ number. (n : ℕ) → slice_get self.old n ≡ Some None → number < length self.old) }
        ensures err { OnErr result (self.new ≡ self.old) }
    {
        let link = Link::new(alloc, most);
        if let Some(number) = self.free.pop() {
            self.slots[number] = Some(link);
            return Ok(number);
        }
        // Then `forget` takes no memory.
        self.free.reserve(self.slots.len() + 1)?;
        let number = self.slots.len();
        self.slots.push(Some(link))?;
        Ok(number)
    }

    /// Forgets a link. Its number is given again.
    pub(crate) fn forget(&mut self, number: usize)
        requires { (c : Channel) × HasLink self.old number c × (c.standing ≡ Ended) × (c.waits ≡ []) }
        ensures { Forgets number self.old self.new }
    {
        self.slots[number] = None;
        self.free.push_reserved(number);
    }

    /// The link of this number, if there is one.
    pub(crate) fn link(&self, number: usize) -> Option<&Link>
        ensures some { IfSome result (λ link. HasLink self.now number link.now) }
        ensures none { IfNone result ((c : Channel) → HasLink self.now number c → ⊥) }
    {
        match self.slots.get(number) {
            Some(Some(link)) => Some(link),
            _ => None,
        }
    }

    /// Asks something on a link.
    ///
    /// # Errors
    ///
    /// If memory runs out, or 2^64 bytes were given to the link. Then nothing is asked.
    #[inline(always)]
    pub(crate) fn ask(
        &mut self,
        number: usize,
        ticket: Ticket,
        request: &[u8],
    ) -> Result<(), AllocError>
        requires open { (c : Channel) × HasLink self.old number c × (c.standing ≡ Open) }
        requires own_reply { ticket ≢ Asking }
        requires some { 0 < length request.now }
        ensures ok { OnOk result (HappensOn number (Put ((ticket, request.now) ∷ [])) self.old self.new) }
        ensures err { OnErr result (self.new ≡ self.old) }
    {
        let Some(link) = &mut self.slots[number] else {
            unreachable!()
        };
        link.ask(ticket, request)
    }

    /// Asks `ASKING` and a part on a link, with nothing between them.
    ///
    /// # Errors
    ///
    /// If memory runs out, or 2^64 bytes were given to the link. Then neither is asked.
    pub(crate) fn ask_asking(
        &mut self,
        number: usize,
        call: u64,
        part: usize,
        request: &[u8],
    ) -> Result<(), AllocError>
        requires open { (c : Channel) × HasLink self.old number c × (c.standing ≡ Open) }
        requires some { 0 < length request.now }
        ensures ok { OnOk result (HappensOn number
            (Put ((Asking, asking) ∷ (Part call part, request.now) ∷ [])) self.old self.new) }
        ensures err { OnErr result (self.new ≡ self.old) }
    {
        let Some(link) = &mut self.slots[number] else {
            unreachable!()
        };
        link.ask_asking(call, part, request)
    }

    /// Asks a part on a link, with `ASKING` before it or without.
    ///
    /// # Errors
    ///
    /// If memory runs out, or 2^64 bytes were given to the link. Then nothing is asked.
    pub(crate) fn put(
        &mut self,
        number: usize,
        call: u64,
        part: usize,
        request: &[u8],
        asks: bool,
    ) -> Result<(), AllocError>
        requires open { (c : Channel) × HasLink self.old number c × (c.standing ≡ Open) }
        requires some { 0 < length request.now }
        ensures ok { OnOk result (HappensOn number (Put (put_for asks call part request.now)) self.old self.new) }
        ensures err { OnErr result (self.new ≡ self.old) }
    {
        if asks {
            return self.ask_asking(number, call, part, request);
        }
        self.ask(number, Ticket::Part(call, part), request)
    }

    /// Notes that `count` bytes more were written on a link.
    pub(crate) fn wrote(&mut self, number: usize, count: usize)
        requires { (c : Channel) × HasLink self.old number c × (c.standing ≢ Ended) × (count ≤ length c.unwritten) }
        ensures { HappensOn number (Write count) self.old self.new }
    {
        let Some(link) = &mut self.slots[number] else {
            unreachable!()
        };
        link.wrote(count);
    }

    /// Notes bytes that came on a link.
    ///
    /// # Errors
    ///
    /// If memory runs out. The link is to be closed then.
    pub(crate) fn hear(&mut self, number: usize, bytes: &[u8]) -> Result<(), AllocError>
        requires { (c : Channel) × HasLink self.old number c × (c.standing ≡ Open) }
        ensures ok { OnOk result (HappensOn number (Hear bytes.now) self.old self.new) }
        ensures err { OnErr result (HappensOn number Miss self.old self.new) }
    {
        let Some(link) = &mut self.slots[number] else {
            unreachable!()
        };
        link.hear(bytes)
    }

    /// Takes the reply at the front of what came on a link.
    ///
    /// # Errors
    ///
    /// If memory runs out for a reply that came whole. Nothing is taken then.
    pub(crate) fn take(&mut self, alloc: Global, number: usize) -> Result<Taken, AllocError>
        requires { (c : Channel) × HasLink self.old number c × (c.standing ≡ Open) }
        ensures taken { IfOk result (λ taken. IsTakenOn number self.old taken self.new) }
        ensures err { OnErr result (self.new ≡ self.old) }
        ensures cause { OnErr result (HasReply number self.old) }
    {
        let Some(link) = &mut self.slots[number] else {
            unreachable!()
        };
        link.take(alloc)
    }

    /// Ends the connection of a link.
    pub(crate) fn end(&mut self, number: usize)
        requires { (c : Channel) × HasLink self.old number c × (c.standing ≢ Ended) }
        ensures { HappensOn number End self.old self.new }
    {
        let Some(link) = &mut self.slots[number] else {
            unreachable!()
        };
        link.end();
    }

    /// Gives up the first that still waits on a link that ended.
    pub(crate) fn lose(&mut self, number: usize) -> Option<(Ticket, bool)>
        requires { (c : Channel) × HasLink self.old number c × (c.standing ≡ Ended) }
        ensures lost { IfSome result (λ lost. HappensOn number (Lose lost.0 lost.1) self.old self.new) }
        ensures none { IfNone result (((c : Channel) → HasLink self.old number c → c.waits ≡ []) × (self.new ≡ self.old)) }
    {
        let Some(link) = &mut self.slots[number] else {
            unreachable!()
        };
        link.lose()
    }
}
