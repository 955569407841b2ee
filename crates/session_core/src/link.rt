ghost use Rattle.std.specs.Prelude.{◌≡◌, ◌≢◌, ◌<◌, ◌≤◌, ◌↔◌, ◌++◌, ℕ, List, [], ◌∷◌, length, IsTrue, IfOk, OnOk, OnErr, IfSome, IfNone, slice_get};
ghost use Rattle.resp.specs.Messages.{IsMessage, IsScanned, MessageCause};
ghost use Rattle.session_core.specs.declared.link.Front.{Front};
ghost use Rattle.session_core.specs.declared.link.Standing.{Standing};
ghost use Rattle.session_core.specs.Inner.Ready.{IsReady, IsFront};

use crate::buffer::Buffer;
use crate::heard::Heard;
use resp::{Fault, Progress, is_version_2, scan};
use std::alloc::{AllocError, Global};
use std::collections::VecDeque;
use std::marker::Model;

/// What a reply on a link is for.
#[derive(Clone, Copy, Debug, PartialEq, Eq)]
pub enum Ticket {
    /// The login of the link. Its reply is the session's own.
    Login,
    /// `CLUSTER SLOTS` that the session asked. The number says how many `MOVED` it had learned
    /// before.
    Map(u64),
    /// An `ASKING` before a part. Its reply is for nobody.
    Asking,
    /// A part of a call, by the numbers of call and part.
    Part(u64, usize),
}

/// A request that waits for its reply. Its bytes begin at `start` and end before `end`, among all
/// bytes that were given to the link.
#[derive(Clone, Copy, Debug, PartialEq, Eq)]
pub struct Wait {
    pub ticket: Ticket,
    pub start: u64,
    pub end: u64,
}

/// How a link stands.
#[derive(Clone, Copy, Debug, PartialEq, Eq)]
pub enum Standing {
    /// Requests may be asked, and replies taken.
    Open,
    /// What came can be taken by nobody, or some of it was not kept. The link is to be closed.
    /// Nothing is asked, written, heard or taken. Only writes that were under way may be noted.
    Broken,
    /// The connection ended. What waits is lost.
    Ended,
}

/// Why nobody can take what came.
#[derive(Clone, Copy, Debug, PartialEq, Eq)]
pub enum BreakCause {
    /// It begins no reply of version 2 of the protocol.
    Malformed,
    /// A byte came, and nobody waits.
    Stray,
    /// A byte came before the request of the first that waits was written to its end.
    Early,
    /// A reply has more bytes than the link allows.
    TooLong,
}

/// What stands at the front of what came.
#[derive(Debug, Drop)]
pub enum Taken {
    /// No whole message yet.
    Nothing,
    /// A reply for this ticket, which was taken.
    Reply(Ticket, Vec<u8>),
    /// Bytes that nobody can take. The link stands [`Standing::Broken`] now.
    Broken(BreakCause),
}

/// The request `ASKING`.
const ASKING: &[u8] = b"*1\r\n$6\r\nASKING\r\n";

/// One connection to a node: who waits on it, in order, the bytes to be written, and the bytes that
/// came.
///
/// The caller owns the socket. It writes [`Link::unwritten`] and notes it by [`Link::wrote`]. It
/// passes what it reads to [`Link::hear`], and calls [`Link::take`] until it gets
/// [`Taken::Nothing`]. What it wrote before a read, it notes before it passes what it read. Then no
/// message that came early is ever taken, in whatever order the calls are made.
#[derive(Drop)]
pub struct Link {
    waits: VecDeque<Wait>,
    given: u64,
    output: Buffer,
    input: Heard,
    progress: Progress,
    standing: Standing,
    most: usize,
}

impl Model for Link {
    ghost use Rattle.std.specs.Prelude.{◌≤◌, length};
    ghost use Rattle.session_core.specs.Inner.Ready.{IsReady};
    ghost use Rattle.session_core.specs.Channel.{Channel};

    ghost Value = { Channel };

    ghost view = { λ l. record {
      waits = l.waits.items;
      given = l.given;
      unwritten = l.output;
      heard = l.input.bytes;
      written_before = l.input.written_before;
      standing = l.standing;
      most = l.most;
    } };

    ghost invariant = { λ l. (length l.output ≤ l.given) × IsReady l.progress l.input.bytes };
}

impl Link {
    ghost use Rattle.session_core.specs.Channel.{fresh, written, to_write};
    ghost use Rattle.session_core.specs.Reply.{IsCause};
    ghost use Rattle.session_core.specs.LinkEvents.{Happens, IsAnswered, Put, Write, Hear, Miss, End, Lose, asking};
    ghost use Rattle.session_core.specs.Taken.{IsTaken};

    /// A new connection. No reply may have more than `most` bytes. Takes no memory.
    pub fn new(alloc: Global, most: usize) -> Link
        ensures { result ≡ fresh most }
    {
        Link {
            waits: VecDeque::new(alloc),
            given: 0,
            output: Buffer::new(alloc),
            input: Heard::new(alloc),
            progress: Progress::new(),
            standing: Standing::Open,
            most,
        }
    }

    /// How the link stands.
    pub fn standing(&self) -> Standing
        ensures { result ≡ self.now.standing }
    {
        self.standing
    }

    /// What is to be written. On a link that is broken or ended, this is nothing.
    pub fn unwritten(&self) -> &[u8]
        ensures { result.now ≡ to_write self.now.standing self.now.unwritten }
    {
        match self.standing {
            Standing::Open => self.output.as_slice(),
            Standing::Broken | Standing::Ended => &[],
        }
    }

    /// Number of bytes that were asked and are not noted as written. [`Link::wrote`] takes so many at
    /// most, also on a broken link.
    pub fn count_unwritten(&self) -> usize
        ensures { result ≡ length self.now.unwritten }
    {
        self.output.len()
    }

    /// The first request that waits, if one does. The next reply is for it.
    pub fn first_wait(&self) -> Option<Wait>
        ensures { result ≡ slice_get self.now.waits 0 }
    {
        self.waits.front().copied()
    }

    /// Whether nobody waits.
    pub fn is_idle(&self) -> bool
        ensures { IsTrue result ↔ (self.now.waits ≡ []) }
    {
        self.waits.is_empty()
    }

    /// Number of requests that wait.
    pub fn count_waits(&self) -> usize
        ensures { result ≡ length self.now.waits }
    {
        self.waits.len()
    }

    /// Asks something: its request is to be written after all others. For an `ASKING` and its part
    /// call [`Link::ask_asking`].
    ///
    /// # Errors
    ///
    /// If memory runs out, or 2^64 bytes were given to one link. Then nothing is asked.
    #[inline(always)]
    pub fn ask(&mut self, ticket: Ticket, request: &[u8]) -> Result<(), AllocError>
        requires open { self.old.standing ≡ Standing.Open }
        requires own_reply { ticket ≢ Ticket.Asking }
        requires some { 0 < length request.now }
        ensures ok { OnOk result (Happens self.old (Put ((ticket, request.now) ∷ [])) self.new) }
        ensures err { OnErr result (self.new ≡ self.old) }
    {
        let Some(end) = self.given.checked_add(request.len() as u64) else {
            return Err(AllocError);
        };
        self.waits.reserve(1)?;
        self.output.push(request)?;
        self.waits.push_back_reserved(Wait {
            ticket,
            start: self.given,
            end,
        });
        self.given = end;
        Ok(())
    }

    /// Asks `ASKING` and a part of a call, with nothing between them.
    ///
    /// # Errors
    ///
    /// If memory runs out, or 2^64 bytes were given to one link. Then neither is asked.
    pub fn ask_asking(&mut self, call: u64, part: usize, request: &[u8]) -> Result<(), AllocError>
        requires open { self.old.standing ≡ Standing.Open }
        requires some { 0 < length request.now }
        ensures ok { OnOk result (Happens self.old
            (Put ((Ticket.Asking, asking) ∷ (Ticket.Part call part, request.now) ∷ [])) self.new) }
        ensures err { OnErr result (self.new ≡ self.old) }
    {
        let Some(start) = self.given.checked_add(ASKING.len() as u64) else {
            return Err(AllocError);
        };
        let Some(end) = start.checked_add(request.len() as u64) else {
            return Err(AllocError);
        };
        self.waits.reserve(2)?;
        self.output.push_both(ASKING, request)?;
        self.waits.push_back_reserved(Wait {
            ticket: Ticket::Asking,
            start: self.given,
            end: start,
        });
        self.waits.push_back_reserved(Wait {
            ticket: Ticket::Part(call, part),
            start,
            end,
        });
        self.given = end;
        Ok(())
    }

    /// Notes that `count` bytes more were written. On a broken link, these are writes that were
    /// under way.
    pub fn wrote(&mut self, count: usize)
        requires connected { self.old.standing ≢ Standing.Ended }
        requires within { count ≤ length self.old.unwritten }
        ensures { Happens self.old (Write count) self.new }
    {
        self.output.drop_front(count);
    }

    /// Notes bytes that came. All calls together cost O(bytes).
    ///
    /// # Errors
    ///
    /// If memory runs out. What follows these bytes can be told no more, so the link stands
    /// [`Standing::Broken`] now.
    #[tactic(auto, using(crate::proofs::Scans::ready_more))]
    pub fn hear(&mut self, bytes: &[u8]) -> Result<(), AllocError>
        requires { self.old.standing ≡ Standing.Open }
        ensures ok { OnOk result (Happens self.old (Hear bytes.now) self.new) }
        ensures err { OnErr result (Happens self.old Miss self.new) }
    {
        let written = self.written();
        match self.input.push(bytes, written) {
            Ok(()) => Ok(()),
            Err(error) => {
                self.standing = Standing::Broken;
                Err(error)
            }
        }
    }

    /// Takes the reply at the front of what came, for the first that waits. A reply is gone over
    /// once, in however many pieces it comes. If it is all that came, and fills half of the room
    /// for it, it is moved out, and no memory is taken.
    ///
    /// # Errors
    ///
    /// If memory runs out for a reply that came whole. Nothing is taken then.
    pub fn take(&mut self, alloc: Global) -> Result<Taken, AllocError>
        requires { self.old.standing ≡ Standing.Open }
        ensures taken { IfOk result (λ taken. IsTaken self.old taken self.new) }
        ensures err { OnErr result (self.new ≡ self.old) }
        ensures cause { OnErr result ((ticket : Ticket) × (reply : List ℕ)
            × IsAnswered self.old ticket reply) }
    {
        let Some(written) = self.input.written_before() else {
            return Ok(Taken::Nothing);
        };
        let Some(wait) = self.first_wait() else {
            return Ok(self.break_by(BreakCause::Stray));
        };
        if written < wait.end {
            return Ok(self.break_by(BreakCause::Early));
        }
        let len = match front_of(&mut self.progress, self.input.as_slice(), self.most) {
            Front::Reply(len) => len,
            Front::Unfinished => return Ok(Taken::Nothing),
            Front::Malformed => return Ok(self.break_by(BreakCause::Malformed)),
            Front::TooLong => return Ok(self.break_by(BreakCause::TooLong)),
        };
        let reply = self.input.take_front(alloc, len)?;
        self.waits.pop_front();
        Ok(Taken::Reply(wait.ticket, reply))
    }

    /// Ends the connection. Nothing is asked, heard or taken any more, and what waits is lost.
    pub fn end(&mut self)
        requires { self.old.standing ≢ Standing.Ended }
        ensures { Happens self.old End self.new }
    {
        self.standing = Standing::Ended;
    }

    /// Gives up the first that still waits on a connection that ended. Returns its ticket, and
    /// whether some byte of it was written. If none was, no node has run it.
    pub fn lose(&mut self) -> Option<(Ticket, bool)>
        requires { self.old.standing ≡ Standing.Ended }
        ensures lost { IfSome result (λ lost. Happens self.old (Lose lost.0 lost.1) self.new) }
        ensures none { IfNone result ((self.old.waits ≡ []) × (self.new ≡ self.old)) }
    {
        let written = self.written();
        let wait = self.waits.pop_front()?;
        Some((wait.ticket, wait.start < written))
    }

    /// How many bytes were written.
    fn written(&self) -> u64
        ensures { result ≡ written self.now }
    {
        self.given - self.output.len() as u64
    }

    /// Breaks the link.
    fn break_by(&mut self, cause: BreakCause) -> Taken
        requires open { self.old.standing ≡ Standing.Open }
        requires cause { IsCause cause self.old }
        ensures { IsTaken self.old result self.new }
    {
        self.standing = Standing::Broken;
        Taken::Broken(cause)
    }
}

/// What stands at the front of some bytes.
#[derive(Clone, Copy)]
enum Front {
    /// No whole message yet.
    Unfinished,
    /// A reply of this length.
    Reply(usize),
    /// No reply, whatever follows.
    Malformed,
    /// A message of more bytes than a reply may have.
    TooLong,
}

/// What stands at the front, if a reply may have `most` bytes.
fn front_of(progress: &mut Progress, bytes: &[u8], most: usize) -> Front
    requires { IsReady progress.old bytes.now }
    ensures front { IsFront bytes.now most result }
    ensures ready { IsReady progress.new bytes.now }
    ensures next { (len : ℕ) → result ≡ Front.Reply len → (more : List ℕ)
        → IsScanned progress.new more }
{
    match scan(progress, bytes) {
        Ok(len) => {
            let (message, _) = bytes.split_at(len);
            front_with(message, most)
        }
        Err(fault) => front_without(bytes, fault, most),
    }
}

/// What stands at the front if this message does.
fn front_with(message: &[u8], most: usize) -> Front
    requires { IsMessage message.now }
    ensures { (rest : List ℕ) → IsFront (message.now ++ rest) most result }
{
    if message.len() > most {
        return Front::TooLong;
    }
    if !is_version_2(message) {
        return Front::Malformed;
    }
    Front::Reply(message.len())
}

/// What stands at the front if no message does, for this cause.
fn front_without(bytes: &[u8], fault: Fault, most: usize) -> Front
    requires { MessageCause bytes.now fault }
    ensures front { IsFront bytes.now most result }
    ensures none { (len : ℕ) → result ≢ Front.Reply len }
{
    match fault {
        Fault::Malformed | Fault::TooDeep => Front::Malformed,
        Fault::Incomplete => {
            if bytes.len() > most {
                return Front::TooLong;
            }
            Front::Unfinished
        }
    }
}
