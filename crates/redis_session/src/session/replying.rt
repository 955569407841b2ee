//! The replies to callers.

ghost use Rattle.std.specs.Prelude.{◌≡◌, Some, map, IfOk, option_copied};
ghost use Rattle.std.specs.List.{concat};
ghost use Rattle.session_core.specs.State.{State, call_at};
ghost use Rattle.redis_session.specs.CallReplies.{GivesBytes, IsErrorFor, IsOnly, IsReplyOfNodes, answers_in, cause_of, effect_on, fate_of, first_unanswered, is_answered};
ghost use Rattle.redis_session.specs.SessionStates.{answer_of, bytes_of, given_of};
ghost use Rattle.redis_session.specs.Told.{unfit_reply};

use crate::reply::split_reply;
use crate::rules::ReplyRule;
use crate::session::Session;
use crate::told::{Effect, ErrorCause, PartFate, effect_of, error_reply, no_tries_reply};
use redis_bytes::{AnswersFault, BytesFault, combine_answers};
use redis_routing::{Names, ResponsePolicy};
use session_core::Cause;
use session_machine::{Call, Part, Phase};
use std::alloc::{AllocError, Global};

/// How many replies may find no memory in a call before the others wait for a later one.
const MOST_FAILURES: usize = 8;

/// The reply that was given last.
#[derive(Debug, Drop)]
pub(crate) enum LastReply {
    /// None was given.
    Nothing,
    /// It is the reply that the one part of this call keeps.
    OfPart(u64),
    /// It was made for this call.
    Made(u64, Vec<u8>),
    /// It is the error of this cause and effect, for this call.
    Error(u64, ErrorCause, Effect),
    /// The replies of the nodes to this call make no one reply.
    Unfit(u64),
}

impl LastReply {
    ghost use Rattle.std.specs.Prelude.{IfNone};
    ghost use Rattle.redis_session.specs.SessionStates.{Nothing, is_reply_of};

    /// Whether it is the reply to this call.
    pub(crate) fn is_of(&self, call: u64) -> bool
        ensures { result ≡ is_reply_of call (given_of self.now) }
    {
        match self {
            LastReply::Nothing => false,
            LastReply::OfPart(own) | LastReply::Made(own, _) => *own == call,
            LastReply::Error(own, _, _) | LastReply::Unfit(own) => *own == call,
        }
    }

    /// The call that it is the reply to.
    fn call(&self) -> Option<u64>
        ensures { IfNone result (given_of self.now ≡ Nothing) }
    {
        match self {
            LastReply::Nothing => None,
            LastReply::OfPart(call) | LastReply::Made(call, _) => Some(*call),
            LastReply::Error(call, _, _) | LastReply::Unfit(call) => Some(*call),
        }
    }
}

impl Session {
    ghost use Rattle.std.specs.Prelude.{ℕ, IfSome, IfNone, OnOk, OnErr, true};
    ghost use Rattle.session_core.specs.State.{CallState};
    ghost use Rattle.redis_routing.specs.Names.{names_in};
    ghost use Rattle.redis_session.specs.CallReplies.{IsReplyTo, IsSplitReply};
    ghost use Rattle.redis_session.specs.Due.{IsDone};
    ghost use Rattle.redis_session.specs.Rules.{rule_in};
    ghost use Rattle.redis_session.specs.SessionStates.{last_reply, names, without_reply};
    ghost use Rattle.redis_session.specs.Leads.{Finishes, GivesReply, IsInTime, Leads, MayGive, WaitsForNothing};

    /// The caller and the call of the next reply, if one is there. [`Session::reply`] has its bytes up to the next
    /// call of this function.
    ///
    /// # Errors
    ///
    /// If memory runs out for the replies that are there. They come in a later call then.
    #[tactic(auto, using(crate::proofs::Leads::gives_on, crate::proofs::Leads::leads_on, crate::proofs::Leads::leads_nowhere))]
    pub fn next_reply(&mut self, alloc: Global) -> Result<Option<(u64, u64)>, AllocError>
        ensures given { IfOk result (λ next. IfSome next (λ it. GivesReply it.0 it.1 self.old self.new)) }
        // Without a reply, none goes out.
        ensures none { IfOk result (λ next. IfNone next (Leads (without_reply self.old) self.new)) }
        // Without a reply, there is none to a call whose parts are done.
        ensures all { IfOk result (λ next. IfNone next ((caller call : ℕ)
            → IsDone caller call self.new.machine → ⊥)) }
        ensures err { OnErr result (Leads (without_reply self.old) self.new) }
    {
        self.is_reply_behind = false;
        self.forget_reply(alloc);
        for _ in 0..MOST_FAILURES {
            let Some((caller, call)) = self.machine.first_due() else {
                return self.next_late(alloc);
            };
            if self.give(alloc, caller, call).is_ok() {
                return Ok(Some((caller, call)));
            }
            self.machine.turn_due();
        }
        Err(AllocError)
    }

    /// Gives the next reply to a call whose time is over while parts of it are on their way, if there is one.
    fn next_late(&mut self, alloc: Global) -> Result<Option<(u64, u64)>, AllocError>
        ensures given { IfOk result (λ next. IfSome next (λ it. Finishes it.0 it.1 self.old self.new)) }
        ensures none { IfOk result (λ next. IfNone next (self.new ≡ self.old)) }
        ensures err { OnErr result (self.new ≡ self.old) }
    {
        let mut left = MOST_FAILURES;
        for _ in 0..self.schedule.most_callers() {
            let Some(caller) = self.schedule.first_overdue() else {
                break;
            };
            match self.give_late(alloc, caller) {
                Ok(Some(call)) => return Ok(Some((caller, call))),
                Ok(None) => self.schedule.drop_overdue(),
                Err(_) => {
                    self.schedule.turn_overdue();
                    left = left.saturating_sub(1);
                }
            }
            if left == 0 {
                break;
            }
        }
        if self.is_reply_behind {
            return Err(AllocError);
        }
        Ok(None)
    }

    /// The bytes of the reply that [`Session::next_reply`] named.
    pub fn reply(&self) -> &[u8]
        ensures { result.now ≡ last_reply self.entry.now }
    {
        match &self.reply {
            LastReply::Nothing => &[],
            LastReply::OfPart(call) => match self.machine.part(*call, 0) {
                Some(part) => answer_of(part),
                None => &[],
            },
            LastReply::Made(_, bytes) => bytes.as_slice(),
            LastReply::Error(_, cause, effect) => error_reply(*cause, *effect),
            LastReply::Unfit(_) => UNFIT,
        }
    }

    /// Forgets the last reply.
    fn forget_reply(&mut self, alloc: Global)
        ensures { Leads (without_reply self.old) self.new }
    {
        let Some(call) = self.reply.call() else {
            return;
        };
        self.reply = LastReply::Nothing;
        if let Some(place) = self.schedule.place_of(call) {
            self.leave_calls(alloc, place);
        }
    }

    /// Whether nothing is awaited for a call: its parts are done, or its time is over.
    fn is_over(&self, call: u64) -> bool
        ensures { result ≡ true → IsInTime call self.entry.now × WaitsForNothing call self.entry.now.machine }
    {
        let Some(state) = self.machine.call(call) else {
            return false;
        };
        if state.is_done() {
            return true;
        }
        state.has_none_waiting() && self.deadlines.is_over(call, self.now)
    }

    /// Gives a caller its next reply, if the time of its call is over. Returns the call that it is for.
    fn give_late(&mut self, alloc: Global, caller: u64) -> Result<Option<u64>, AllocError>
        ensures given { IfOk result (λ next. IfSome next (λ call. Finishes caller call self.old self.new)) }
        ensures none { IfOk result (λ next. IfNone next (self.new ≡ self.old)) }
        ensures err { OnErr result (self.new ≡ self.old) }
    {
        let Some(call) = self.machine.next_call(caller) else {
            return Ok(None);
        };
        if !self.is_over(call) {
            return Ok(None);
        }
        self.give(alloc, caller, call)?;
        Ok(Some(call))
    }

    /// Gives a caller its next reply, to a call for which nothing is awaited.
    ///
    /// # Errors
    ///
    /// If memory runs out. No reply is given then.
    fn give(&mut self, alloc: Global, caller: u64, call: u64) -> Result<(), AllocError>
        requires { MayGive caller call self.old }
        ensures given { OnOk result (Finishes caller call self.old self.new) }
        ensures err { OnErr result (self.new ≡ self.old) }
    {
        let reply = match self.reply_of(alloc, call) {
            Ok(reply) => reply,
            Err(error) => {
                self.is_reply_behind = true;
                return Err(error);
            }
        };
        self.machine.finish(call);
        self.rules.remove(call);
        self.schedule.drop_deadline(call);
        self.reply = reply;
        self.note_overdue(caller);
        Ok(())
    }

    /// Notes that the next reply of a caller is there, if the time of its call is over.
    pub(crate) fn note_overdue(&mut self, caller: u64)
        ensures { self.new ≡ self.old }
    {
        let Some(next) = self.machine.next_call(caller) else {
            return;
        };
        if !self.schedule.is_late(next) {
            return;
        }
        if let Some(place) = self.schedule.place_of(next) {
            self.schedule.note_overdue(place);
        }
    }

    /// The reply to a call whose parts are as they are.
    fn reply_of(&self, alloc: Global, call: u64) -> Result<LastReply, AllocError>
        ensures { IfOk result (λ reply. (state : CallState) → call_at call self.entry.now.machine ≡ Some state
            → IsReplyTo (names self.entry.now) (rule_in self.entry.now.rules call) state.parts
            (bytes_of (given_of reply) self.entry.now.machine)) }
    {
        let Some(state) = self.machine.call(call) else {
            return Ok(LastReply::Nothing);
        };
        if let Some(part) = first_unanswered(state) {
            return fault_reply(alloc, call, state, part);
        }
        let Some(rule) = self.rules.get(call) else {
            return Ok(only_reply(call, state));
        };
        match rule {
            ReplyRule::One => Ok(only_reply(call, state)),
            ReplyRule::Split(request) => self.split_reply(alloc, call, request, state),
            ReplyRule::Several(policy, _) => several_reply(alloc, call, *policy, state),
        }
    }

    /// The reply to a call that is split by slot.
    fn split_reply(
        &self,
        alloc: Global,
        call: u64,
        request: &[u8],
        state: &Call,
    ) -> Result<LastReply, AllocError>
        ensures { IfOk result (GivesBytes call
            (IsSplitReply (names self.entry.now) request.now (answers_in state.now.parts))) }
    {
        let answers = answers_of(alloc, state)?;
        match split_reply(alloc, request, self.names(), &answers) {
            Ok(bytes) => Ok(LastReply::Made(call, bytes)),
            Err(fault) => match fault {
                BytesFault::Memory => Err(AllocError),
                _ => Ok(LastReply::Unfit(call)),
            },
        }
    }

    /// The names that it was told of when it began.
    pub(crate) fn names(&self) -> Names<'_>
        ensures { names_in result ≡ names self.entry.now }
    {
        Names {
            read_only: &self.settings.read_only,
            registry: &self.settings.registry,
        }
    }
}

/// The reply if the replies of nodes do not fit each other.
const UNFIT: &[u8] = b"-ERR the replies of the nodes make no one reply\r\n";

/// The first part that was not answered.
fn first_unanswered(state: &Call) -> Option<&Part>
    ensures { option_copied result ≡ first_unanswered state.now.parts }
{
    let parts = state.parts();
    for part in parts {
        if !is_answered(part) {
            return Some(part);
        }
    }
    None
}

/// Whether a part was answered.
fn is_answered(part: &Part) -> bool
    ensures { result ≡ is_answered part.now.phase }
{
    matches!(part.phase(), Phase::Answered(_))
}

/// The answer to a part, or nothing if it has none.
fn answer_of(part: &Part) -> &[u8]
    ensures { result.now ≡ answer_of part.now.phase }
{
    match part.phase() {
        Phase::Answered(reply) => reply.as_slice(),
        _ => &[],
    }
}

/// The reply to a call of one part, whose parts are answered. Answers to several parts make no one reply by themselves.
fn only_reply(call: u64, state: &Call) -> LastReply
    ensures { (s : State) → call_at call s ≡ Some state.now
        → IsOnly (answers_in state.now.parts) (bytes_of (given_of result) s) }
{
    match state.parts() {
        [_] => LastReply::OfPart(call),
        _ => LastReply::Unfit(call),
    }
}

/// The reply to a call of which each node of a group has a part.
fn several_reply(
    alloc: Global,
    call: u64,
    policy: ResponsePolicy,
    state: &Call,
) -> Result<LastReply, AllocError>
    ensures { IfOk result (GivesBytes call (IsReplyOfNodes policy (answers_in state.now.parts))) }
{
    let replies = joined_answers(alloc, state)?;
    match combine_answers(alloc, Some(policy), state.parts().len(), &replies) {
        Ok(bytes) => Ok(LastReply::Made(call, bytes)),
        Err(fault) => match fault {
            AnswersFault::Memory => Err(AllocError),
            _ => Ok(LastReply::Unfit(call)),
        },
    }
}

/// The answers to the parts, end to end.
fn joined_answers(alloc: Global, state: &Call) -> Result<Vec<u8>, AllocError>
    ensures { IfOk result (λ bytes. bytes.items ≡ concat (answers_in state.now.parts)) }
{
    let mut bytes = Vec::new(alloc);
    let parts = state.parts();
    for part in parts {
        bytes.extend_from_slice(answer_of(part))?;
    }
    Ok(bytes)
}

/// Copies of the answers to the parts.
fn answers_of(alloc: Global, state: &Call) -> Result<Vec<Vec<u8>>, AllocError>
    ensures { IfOk result (λ answers. map (λ answer. answer.items) answers.items
        ≡ answers_in state.now.parts) }
{
    let parts = state.parts();
    let mut answers = Vec::with_capacity(alloc, parts.len())?;
    for part in parts {
        answers.push(answer_of(part).to_vec(alloc)?)?;
    }
    Ok(answers)
}

/// The reply to a call of which this part was not answered.
fn fault_reply(alloc: Global, call: u64, state: &Call, part: &Part) -> Result<LastReply, AllocError>
    ensures { IfOk result (GivesBytes call (IsErrorFor part.now.phase (effect_on state.now.parts))) }
{
    let effect = effect_of(&fates_of(alloc, state)?);
    if let Phase::Refused(refusal) = part.phase() {
        return match no_tries_reply(alloc, refusal, effect) {
            Ok(bytes) => Ok(LastReply::Made(call, bytes)),
            Err(_) => Ok(LastReply::Error(call, ErrorCause::NoTries, effect)),
        };
    }
    Ok(LastReply::Error(call, cause_of(part), effect))
}

/// Why a part was not answered.
fn cause_of(part: &Part) -> ErrorCause
    ensures { result ≡ cause_of part.now.phase }
{
    match part.phase() {
        Phase::Refused(_) => ErrorCause::NoTries,
        Phase::Lost => ErrorCause::Lost,
        Phase::Unsent(Cause::Overtaken) => ErrorCause::Overtaken,
        Phase::Unsent(Cause::NoNode) => ErrorCause::NoNode,
        Phase::Unsent(_) | Phase::Waits(_) | Phase::Asked(_, _) | Phase::Answered(_) => {
            ErrorCause::Late
        }
    }
}

/// What became of the parts of a call.
fn fates_of(alloc: Global, state: &Call) -> Result<Vec<PartFate>, AllocError>
    ensures { IfOk result (λ fates. fates.items ≡ map (λ p. fate_of p.phase) state.now.parts) }
{
    let parts = state.parts();
    let mut fates = Vec::with_capacity(alloc, parts.len())?;
    for part in parts {
        fates.push(fate_of(part))?;
    }
    Ok(fates)
}

fn fate_of(part: &Part) -> PartFate
    ensures { result ≡ fate_of part.now.phase }
{
    match part.phase() {
        Phase::Waits(_) | Phase::Refused(_) | Phase::Unsent(_) => PartFate::NotRun,
        Phase::Asked(_, _) | Phase::Lost => PartFate::Unknown,
        Phase::Answered(_) => PartFate::Answered,
    }
}
