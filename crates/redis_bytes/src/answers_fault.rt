ghost use Rattle.std.specs.Prelude.{◌≡◌, Some};
ghost use Rattle.redis_bytes.specs.Texts.{answers_fault_text};
ghost use Rattle.redis_bytes.specs.declared.answers_fault.AnswersFault.TheVariants.{Memory};

use resp::Fault;
use std::alloc::{AllocError, AllocFailed};
use std::error::Error;
use std::fmt;

/// Why the replies of several nodes make no one reply. Replies are numbered as the nodes are, from
/// 0.
#[derive(Debug, Drop)]
pub enum AnswersFault {
    /// Memory ran out.
    Memory,
    /// The reply of this number cannot be read.
    Reply(usize, Fault),
    /// Bytes follow the last reply, which ends at this index.
    AfterReplies(usize),
    /// The replies do not fit the policy, or the one reply has no form.
    NoForm,
}

impl fmt::Display for AnswersFault {
    ghost output = { λ fault. Some (answers_fault_text fault) };

    fn fmt<W: fmt::Write>(&self, f: &mut fmt::Formatter<W>) -> fmt::Result {
        match self {
            AnswersFault::Memory => write!(f, "out of memory"),
            AnswersFault::Reply(number, fault) => write!(f, "reply {number}: {fault}"),
            AnswersFault::AfterReplies(end) => write!(f, "bytes follow the replies, from {end} on"),
            AnswersFault::NoForm => write!(f, "the answers make no one reply"),
        }
    }
}

impl Error for AnswersFault {}

impl From<AllocError> for AnswersFault {
    ghost from_gives = { λ _ fault. fault ≡ Memory };

    fn from(_e: AllocError) -> AnswersFault {
        AnswersFault::Memory
    }
}

impl<T: Drop> From<AllocFailed<T>> for AnswersFault {
    ghost from_gives = { λ _ fault. fault ≡ Memory };

    fn from(_e: AllocFailed<T>) -> AnswersFault {
        AnswersFault::Memory
    }
}
