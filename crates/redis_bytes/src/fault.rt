ghost use Rattle.std.specs.Prelude.{◌≡◌, Some};
ghost use Rattle.redis_bytes.specs.Texts.{bytes_fault_text};
ghost use Rattle.redis_bytes.specs.declared.fault.BytesFault.TheVariants.{Memory};

use resp::{Fault, RequestFault};
use resp_core::ErrorKind;
use std::alloc::{AllocError, AllocFailed};
use std::error::Error;
use std::fmt;

/// Why a call returns no bytes. Replies are numbered as the parts are, from 0.
#[derive(Debug, Drop)]
pub enum BytesFault {
    /// Memory ran out.
    Memory,
    /// No whole request stands at the front of the bytes.
    Request(RequestFault),
    /// Bytes follow the request, which ends at this index.
    AfterRequest(usize),
    /// The command is not split by slot, or is not complete.
    NotMultiKey,
    /// The reply of this number cannot be read.
    Reply(usize, Fault),
    /// The reply of this number is an error, or an array that holds one, with this text.
    Error(usize, Vec<u8>),
    /// Bytes follow the last reply, which ends at this index.
    AfterReplies(usize),
    /// The replies do not fit the command, so they make no one reply.
    Unfit(ErrorKind),
    /// A host has a line feed, so a line of a table cannot hold it.
    LineFeedInHost,
    /// The line of this number registers no name.
    BadName(usize),
}

impl fmt::Display for BytesFault {
    ghost output = { λ fault. Some (bytes_fault_text fault) };

    fn fmt<W: fmt::Write>(&self, f: &mut fmt::Formatter<W>) -> fmt::Result {
        match self {
            BytesFault::Memory => write!(f, "out of memory"),
            BytesFault::Request(fault) => write!(f, "{fault}"),
            BytesFault::AfterRequest(end) => write!(f, "bytes follow the request, from {end} on"),
            BytesFault::NotMultiKey => write!(f, "not a multi-key command"),
            BytesFault::Reply(number, fault) => write!(f, "reply {number}: {fault}"),
            BytesFault::Error(number, _) => write!(f, "reply {number} is an error"),
            BytesFault::AfterReplies(end) => write!(f, "bytes follow the replies, from {end} on"),
            BytesFault::Unfit(_) => write!(f, "the replies make no one reply"),
            BytesFault::LineFeedInHost => write!(f, "a host has a line feed"),
            BytesFault::BadName(number) => write!(f, "line {number} registers no name"),
        }
    }
}

impl Error for BytesFault {}

impl From<AllocError> for BytesFault {
    ghost from_gives = { λ _ fault. fault ≡ Memory };

    fn from(_e: AllocError) -> BytesFault {
        BytesFault::Memory
    }
}

impl<T: Drop> From<AllocFailed<T>> for BytesFault {
    ghost from_gives = { λ _ fault. fault ≡ Memory };

    fn from(_e: AllocFailed<T>) -> BytesFault {
        BytesFault::Memory
    }
}
