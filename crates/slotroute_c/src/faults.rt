ghost use Rattle.std.specs.Prelude.{◌≡◌, ◌≢◌};
ghost use Rattle.slotroute_c.specs.Outcomes.{code, of_reply};
ghost use Rattle.slotroute_c.specs.Faults.{of_request, outcome_of, outcome_of_answers, with_answers_fault, with_fault, with_request_fault, IsOther};

use crate::outcomes::Outcome;
use crate::told::Told;
use redis_bytes::{AnswersFault, BytesFault};
use resp::{Fault, RequestFault};

/// The code of a fault. `told` gets the index or the number that goes with it.
pub(super) fn code_of(fault: &BytesFault, told: &mut Told) -> u32
    ensures code { result ≡ code (outcome_of fault.now) }
    ensures told { told.new ≡ with_fault fault.now told.old }
    ensures other { IsOther result }
    ensures form { result ≢ code Outcome.NoForm }
{
    match fault {
        BytesFault::Memory => Outcome::NoMemory.code(),
        BytesFault::Request(fault) => code_of_request(*fault, told),
        BytesFault::AfterRequest(end) => {
            told.at = *end;
            Outcome::AfterRequest.code()
        }
        BytesFault::NotMultiKey => Outcome::NotMultiKey.code(),
        BytesFault::Reply(number, fault) => {
            told.reply = *number;
            code_of_reply(*fault)
        }
        BytesFault::Error(number, _) => {
            told.reply = *number;
            Outcome::ReplyIsError.code()
        }
        BytesFault::AfterReplies(end) => {
            told.at = *end;
            Outcome::AfterReplies.code()
        }
        BytesFault::Unfit(_) => Outcome::Unfit.code(),
        BytesFault::LineFeedInHost => Outcome::LineFeedInHost.code(),
        BytesFault::BadName(number) => {
            told.at = *number;
            Outcome::BadName.code()
        }
    }
}

/// The code of a fault of several nodes' replies. `told` gets the index or the number that goes with
/// it.
pub(super) fn code_of_answers(fault: &AnswersFault, told: &mut Told) -> u32
    ensures code { result ≡ code (outcome_of_answers fault.now) }
    ensures told { told.new ≡ with_answers_fault fault.now told.old }
    ensures other { IsOther result }
{
    match fault {
        AnswersFault::Memory => Outcome::NoMemory.code(),
        AnswersFault::Reply(number, fault) => {
            told.reply = *number;
            code_of_reply(*fault)
        }
        AnswersFault::AfterReplies(end) => {
            told.at = *end;
            Outcome::AfterReplies.code()
        }
        AnswersFault::NoForm => Outcome::NoForm.code(),
    }
}

/// The code of a request's fault. `told` gets the index of the byte.
pub(super) fn code_of_request(fault: RequestFault, told: &mut Told) -> u32
    ensures code { result ≡ code (of_request fault) }
    ensures told { told.new ≡ with_request_fault fault told.old }
    ensures other { IsOther result }
    ensures form { result ≢ code Outcome.NoForm }
{
    match fault {
        RequestFault::Incomplete => Outcome::RequestIncomplete.code(),
        RequestFault::Malformed(at) => {
            told.at = at;
            Outcome::RequestMalformed.code()
        }
    }
}

/// The code of a reply's fault.
pub(super) fn code_of_reply(fault: Fault) -> u32
    ensures code { result ≡ code (of_reply fault) }
    ensures other { IsOther result }
    ensures form { result ≢ code Outcome.NoForm }
{
    match fault {
        Fault::Incomplete => Outcome::ReplyIncomplete.code(),
        Fault::Malformed => Outcome::ReplyMalformed.code(),
        Fault::TooDeep => Outcome::ReplyTooDeep.code(),
    }
}
