ghost use Rattle.std.specs.Prelude.{◌≡◌, Some};
ghost use Rattle.resp.specs.Texts.{fault_text, read_error_text, request_fault_text, request_error_text, write_error_text};
ghost use Rattle.resp.specs.declared.fault.ReadError.TheVariants as read;
ghost use Rattle.resp.specs.declared.fault.WriteError.TheVariants as write;

use std::alloc::{AllocError, AllocFailed};
use std::error::Error;
use std::fmt;

/// What is wrong with the bytes.
#[derive(Clone, Copy, Debug, PartialEq, Eq)]
pub enum Fault {
    /// The bytes end before the reply does. More bytes can complete it.
    Incomplete,
    /// No reply begins with these bytes, whatever follows.
    Malformed,
    /// Arrays are nested deeper than `MAX_LEVELS`.
    TooDeep,
}

impl fmt::Display for Fault {
    ghost output = { λ fault. Some (fault_text fault) };

    fn fmt<W: fmt::Write>(&self, f: &mut fmt::Formatter<W>) -> fmt::Result {
        match self {
            Fault::Incomplete => write!(f, "the bytes end before the message does"),
            Fault::Malformed => write!(f, "the bytes begin no message"),
            Fault::TooDeep => write!(f, "arrays stand too deep in arrays"),
        }
    }
}

impl Error for Fault {}

/// Why bytes could not be read.
#[derive(Debug, Drop)]
pub enum ReadError {
    /// Memory ran out.
    Memory,
    /// No whole message stands at the front of the bytes.
    Fault(Fault),
}

impl fmt::Display for ReadError {
    ghost output = { λ error. Some (read_error_text error) };

    fn fmt<W: fmt::Write>(&self, f: &mut fmt::Formatter<W>) -> fmt::Result {
        match self {
            ReadError::Memory => write!(f, "out of memory"),
            ReadError::Fault(fault) => write!(f, "{fault}"),
        }
    }
}

impl Error for ReadError {}

impl From<AllocError> for ReadError {
    ghost from_gives = { λ _ e. e ≡ read.Memory };

    fn from(_e: AllocError) -> ReadError {
        ReadError::Memory
    }
}

impl<T: Drop> From<AllocFailed<T>> for ReadError {
    ghost from_gives = { λ _ e. e ≡ read.Memory };

    fn from(_e: AllocFailed<T>) -> ReadError {
        ReadError::Memory
    }
}

impl From<Fault> for ReadError {
    ghost from_gives = { λ fault e. e ≡ read.Fault fault };

    fn from(fault: Fault) -> ReadError {
        ReadError::Fault(fault)
    }
}

/// What is wrong with the bytes of a request.
#[derive(Clone, Copy, Debug, PartialEq, Eq)]
pub enum RequestFault {
    /// The bytes end before the request does. More bytes can complete it.
    Incomplete,
    /// No request can have the byte at this index there. All bytes before it begin one.
    Malformed(usize),
}

impl fmt::Display for RequestFault {
    ghost output = { λ fault. Some (request_fault_text fault) };

    fn fmt<W: fmt::Write>(&self, f: &mut fmt::Formatter<W>) -> fmt::Result {
        match self {
            RequestFault::Incomplete => write!(f, "the bytes end before the request does"),
            RequestFault::Malformed(index) => write!(f, "the byte {index} stands in no request"),
        }
    }
}

impl Error for RequestFault {}

/// Why no request could be read.
#[derive(Debug, Drop)]
pub enum RequestError {
    /// Memory ran out.
    Memory,
    /// No whole request stands at the front of the bytes.
    Fault(RequestFault),
}

impl fmt::Display for RequestError {
    ghost output = { λ error. Some (request_error_text error) };

    fn fmt<W: fmt::Write>(&self, f: &mut fmt::Formatter<W>) -> fmt::Result {
        match self {
            RequestError::Memory => write!(f, "out of memory"),
            RequestError::Fault(fault) => write!(f, "{fault}"),
        }
    }
}

impl Error for RequestError {}

/// Why a value could not be written.
#[derive(Debug, Drop)]
pub enum WriteError {
    /// Memory ran out.
    Memory,
    /// The value cannot be written: `write` says when.
    NoForm,
}

impl fmt::Display for WriteError {
    ghost output = { λ error. Some (write_error_text error) };

    fn fmt<W: fmt::Write>(&self, f: &mut fmt::Formatter<W>) -> fmt::Result {
        match self {
            WriteError::Memory => write!(f, "out of memory"),
            WriteError::NoForm => write!(f, "the value has no form in this protocol"),
        }
    }
}

impl Error for WriteError {}

impl From<AllocError> for WriteError {
    ghost from_gives = { λ _ e. e ≡ write.Memory };

    fn from(_e: AllocError) -> WriteError {
        WriteError::Memory
    }
}

impl<T: Drop> From<AllocFailed<T>> for WriteError {
    ghost from_gives = { λ _ e. e ≡ write.Memory };

    fn from(_e: AllocFailed<T>) -> WriteError {
        WriteError::Memory
    }
}
