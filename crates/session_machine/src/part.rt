ghost use Rattle.std.specs.Prelude.{◌≡◌, ◌++◌, nat_eq, decimal, codes, false, ℕ, List, IfSome, IfNone};
ghost use Rattle.std.specs.List.{starts_with};
ghost use Rattle.session_core.specs.Part.{is_redirect, is_error};

use itoa::Buffer;
use session_core::{Cause, PartOrder, Status};
use std::marker::Model;

/// How far a part is.
#[derive(Debug, Drop)]
pub enum Phase {
    /// It may be asked, and after that so many refusals more are forgiven.
    Waits(u32),
    /// It is on its way on the link of this number. So many refusals are forgiven.
    Asked(usize, u32),
    /// It is settled: this reply came, which is no refusal.
    Answered(Vec<u8>),
    /// It is settled: its link ended after some byte of it was written, so it may have run.
    Lost,
    /// It did not run: this was the last refusal that was forgiven.
    Refused(Vec<u8>),
    /// It did not run, for this cause.
    Unsent(Cause),
}

/// A part of a call: what is asked of one node, and how far it is.
#[derive(Drop)]
pub struct Part {
    request: Vec<u8>,
    order: PartOrder,
    may_refuse: bool,
    phase: Phase,
}

impl Model for Part {
    ghost use Rattle.session_core.specs.Part.{PartState};
    ghost use Rattle.session_machine.specs.Part.{phase_of};

    ghost Value = { PartState };

    ghost view = { λ p. record {
      request = p.request.items;
      order = p.order;
      may_refuse = p.may_refuse;
      phase = phase_of p.phase;
    } };
}

impl Part {
    ghost use Rattle.session_core.specs.Part as part;
    ghost use Rattle.session_core.specs.Part.{is_waiting, is_done, is_refusal, phase_asked, phase_told, phase_lost, phase_ended};
    ghost use Rattle.session_machine.specs.Ties.{status_of};
    ghost use Rattle.session_machine.specs.Part.{phase_of, Keeps, Returns};

    /// A part that waits. Its node may refuse it so many times, and it is asked once more each time.
    ///
    /// Nodes refuse some commands before they run them. `may_refuse` says that it is one of these.
    pub fn new(request: Vec<u8>, order: PartOrder, may_refuse: bool, retries: u32) -> Part
        ensures { result ≡ record { request = request.items; order = order; may_refuse = may_refuse; phase = part.Waits retries } }
    {
        Part {
            request,
            order,
            may_refuse,
            phase: Phase::Waits(retries),
        }
    }

    /// The request, as its bytes.
    pub fn request(&self) -> &[u8]
        ensures { result.now ≡ self.now.request }
    {
        self.request.as_slice()
    }

    /// With which other parts of its caller it keeps the order.
    pub fn order(&self) -> PartOrder
        ensures { result ≡ self.now.order }
    {
        self.order
    }

    /// How far it is.
    pub fn phase(&self) -> &Phase
        ensures { phase_of result.now ≡ self.now.phase }
    {
        &self.phase
    }

    /// How far it is, as the order of its caller has it.
    pub(crate) fn status(&self) -> Status
        ensures { result ≡ status_of self.now.phase }
    {
        match &self.phase {
            Phase::Waits(_) => Status::Waits,
            Phase::Asked(link, _) => Status::Asked(*link),
            Phase::Answered(_) | Phase::Lost => Status::Settled,
            Phase::Refused(_) | Phase::Unsent(_) => Status::Unsent,
        }
    }

    /// Whether it waits to be asked.
    pub fn is_waiting(&self) -> bool
        ensures { result ≡ is_waiting self.now.phase }
    {
        matches!(self.phase, Phase::Waits(_))
    }

    /// Whether it is settled, or never asked again.
    pub fn is_done(&self) -> bool
        ensures { result ≡ is_done self.now.phase }
    {
        match &self.phase {
            Phase::Waits(_) | Phase::Asked(_, _) => false,
            Phase::Answered(_) | Phase::Lost | Phase::Refused(_) | Phase::Unsent(_) => true,
        }
    }

    /// Whether this reply says that the node refused to run it.
    pub fn is_refusal(&self, reply: &[u8]) -> bool
        ensures { result ≡ is_refusal self.now reply.now }
    {
        if !reply.starts_with(b"-") {
            return false;
        }
        self.may_refuse
            && (is_redirect(reply, b"-MOVED", self.order)
                || is_redirect(reply, b"-ASK", self.order)
                || is_error(reply, b"-TRYAGAIN")
                || is_error(reply, b"-CLUSTERDOWN")
                || is_error(reply, b"-LOADING"))
    }

    /// Notes that it was asked on this link, if it waits.
    pub(crate) fn note_asked(&mut self, link: usize)
        ensures { self.new ≡ record self.old { phase = phase_asked link self.old.phase } }
    {
        if let Phase::Waits(left) = self.phase {
            self.phase = Phase::Asked(link, left);
        }
    }

    /// Notes the reply that came for it, if it is on its way. Returns the reply if the part does not
    /// keep it.
    pub(crate) fn note_told(&mut self, wanted: bool, reply: Vec<u8>) -> Option<Vec<u8>>
        ensures told { self.new ≡ record self.old {
          phase = phase_told wanted (is_refusal self.old reply.items) reply.items self.old.phase;
        } }
        ensures back { IfSome result (λ back. back.items ≡ reply.items) }
        ensures returned { IfSome result (λ back. Returns reply.items wanted self.old) }
        ensures kept { IfNone result (Keeps reply.items self.new.phase) }
    {
        let is_refusal = self.is_refusal(&reply);
        let Phase::Asked(_, left) = self.phase else {
            return Some(reply);
        };
        if !is_refusal {
            self.phase = Phase::Answered(reply);
            return None;
        }
        if !wanted {
            self.phase = Phase::Unsent(Cause::GivenUp);
            return Some(reply);
        }
        if left == 0 {
            self.phase = Phase::Refused(reply);
            return None;
        }
        self.phase = Phase::Waits(left - 1);
        Some(reply)
    }

    /// Notes that its link ended, if it is on its way. Some byte of it was written, or none.
    pub(crate) fn note_lost(&mut self, wanted: bool, begun: bool)
        ensures { self.new ≡ record self.old { phase = phase_lost wanted begun self.old.phase } }
    {
        let Phase::Asked(_, left) = self.phase else {
            return;
        };
        if begun {
            self.phase = Phase::Lost;
            return;
        }
        if wanted {
            self.phase = Phase::Waits(left);
            return;
        }
        self.phase = Phase::Unsent(Cause::GivenUp);
    }

    /// Notes that it is not asked any more, if it waits.
    pub(crate) fn note_ended(&mut self, cause: Cause)
        ensures { self.new ≡ record self.old { phase = phase_ended cause self.old.phase } }
    {
        if let Phase::Waits(_) = self.phase {
            self.phase = Phase::Unsent(cause);
        }
    }
}

/// Whether a reply is an error of this name for the part's slot: `-MOVED 3300 n3:1`.
fn is_redirect(reply: &[u8], name: &[u8], order: PartOrder) -> bool
    ensures { result ≡ is_redirect reply.now name.now order }
{
    match order {
        PartOrder::OfSlot(slot) => is_redirect_of(reply, name, slot),
        PartOrder::Whole | PartOrder::Free => false,
    }
}

fn is_redirect_of(reply: &[u8], name: &[u8], slot: u16) -> bool
    ensures { result ≡ starts_with nat_eq reply.now (name.now ++ codes " " ++ decimal slot ++ codes " ") }
{
    let Some(rest) = rest_after(reply, name) else {
        return false;
    };
    let mut buffer = Buffer::new();
    let digits = buffer.format(slot).as_bytes();
    let Some(number) = rest_after(rest, b" ") else {
        return false;
    };
    let Some(end) = rest_after(number, digits) else {
        return false;
    };
    end.starts_with(b" ")
}

/// Whether a reply is an error of this name: `-LOADING`, up to a space or the end of the line.
fn is_error(reply: &[u8], name: &[u8]) -> bool
    ensures { result ≡ is_error reply.now name.now }
{
    let Some(rest) = rest_after(reply, name) else {
        return false;
    };
    rest.starts_with(b" ") || rest.starts_with(b"\r\n")
}

/// What stands after a prefix, if the bytes begin with it.
fn rest_after<'a>(bytes: &'a [u8], prefix: &[u8]) -> Option<&'a [u8]>
    ensures some { IfSome result (λ rest. (more : List ℕ)
        → starts_with nat_eq bytes.now (prefix.now ++ more) ≡ starts_with nat_eq rest.now more) }
    ensures none { IfNone result ((more : List ℕ)
        → starts_with nat_eq bytes.now (prefix.now ++ more) ≡ false) }
{
    if !bytes.starts_with(prefix) {
        return None;
    }
    let (_, rest) = bytes.split_at(prefix.len());
    Some(rest)
}
