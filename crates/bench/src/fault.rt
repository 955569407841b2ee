use resp_core::RedisError;
use std::alloc::{AllocError, AllocFailed};
use std::io;

/// Why nothing was timed.
#[derive(Clone, Copy)]
pub enum Fault {
    /// The words name no operation.
    Words,
    /// Memory ran out.
    Memory,
    /// The clock, the input or the output failed.
    Stream,
    /// The input is none for the operation, or a call was refused.
    Refused,
}

impl From<AllocError> for Fault {
    fn from(_: AllocError) -> Self {
        Fault::Memory
    }
}

impl From<io::Error> for Fault {
    fn from(_: io::Error) -> Self {
        Fault::Stream
    }
}

impl From<RedisError> for Fault {
    fn from(_: RedisError) -> Self {
        Fault::Refused
    }
}
