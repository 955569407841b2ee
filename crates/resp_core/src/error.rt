ghost use Rattle.std.specs.Prelude.{◌≡◌, ◌↔◌, IsTrue, Some, None, ◌==◌, option_copied, option_map, string_bytes};
ghost use Rattle.resp_core.specs.ErrorParts.{ErrorParts, out_of_memory, error_text, same_error};
ghost use Rattle.std.specs.Cmp.Rules.{comparing};
ghost use Rattle.std.proofs.Common.{rules};

use std::alloc::{AllocError, AllocFailed};
use std::error::Error;
use std::fmt;
use std::marker::Model;

/// The kind of an error.
#[derive(Clone, Copy, Debug, PartialEq, Eq, Hash)]
pub enum ErrorKind {
    /// An address or a setting that cannot be used.
    InvalidClientConfig,
    /// A reply whose shape does not fit the command.
    UnexpectedReturnType,
    /// The client was asked for something that it cannot do.
    Client,
    /// Memory ran out.
    OutOfMemory,
}

/// An error: a kind, a fixed text and perhaps a detail. `Display` prints the text, and after a
/// colon the detail.
#[derive(Debug, Drop)]
pub struct RedisError {
    kind: ErrorKind,
    desc: &'static str,
    detail: Option<String>,
}

impl Model for RedisError {
    ghost use Rattle.std.specs.Prelude.{option_map, string_bytes};
    ghost use Rattle.resp_core.specs.ErrorParts.{ErrorParts};

    ghost Value = { ErrorParts };

    ghost view = { λ e. record {
      kind = e.kind;
      desc = e.desc.now;
      detail = option_map string_bytes e.detail;
    } };
}

/// The result of a call, or its error.
pub type RedisResult<T> = Result<T, RedisError>;

impl RedisError {
    /// The kind of this error.
    pub fn kind(&self) -> ErrorKind
        ensures { result ≡ self.now.kind }
    {
        self.kind
    }

    /// The fixed text of this error.
    pub fn desc(&self) -> &'static str
        ensures { result.now ≡ self.now.desc }
    {
        self.desc
    }

    /// What this error adds to its fixed text, if anything.
    pub fn detail(&self) -> Option<&str>
        ensures { option_copied result ≡ self.now.detail }
    {
        self.detail.as_deref()
    }
}

impl fmt::Display for RedisError {
    ghost output = { λ e. Some (error_text e) };

    fn fmt<W: fmt::Write>(&self, f: &mut fmt::Formatter<W>) -> fmt::Result {
        let RedisError { desc, detail, .. } = self;
        match detail {
            Some(detail) => write!(f, "{desc}: {detail}"),
            None => write!(f, "{desc}"),
        }
    }
}

impl Error for RedisError {}

impl PartialEq for RedisError {
    ghost eq = { same_error };

    ghost laws = { Prim.search (comparing, rules) depth 9 };

    fn eq(&self, other: &Self) -> bool
        ensures value { result ≡ same_error self.now other.now }
        ensures same { IsTrue result ↔ (self.now ≡ other.now) }
    {
        self.kind == other.kind && self.desc == other.desc && self.detail == other.detail
    }
}

impl Eq for RedisError {
    ghost laws = { Prim.search (comparing, rules) depth 9 };
}

impl From<AllocError> for RedisError {
    ghost from_gives = { λ _ e. e ≡ out_of_memory };

    fn from(_error: AllocError) -> Self {
        RedisError {
            kind: ErrorKind::OutOfMemory,
            desc: "out of memory",
            detail: None,
        }
    }
}

/// The value that could not be stored is dropped.
impl<T: Drop> From<AllocFailed<T>> for RedisError {
    ghost from_gives = { λ _ e. e ≡ out_of_memory };

    fn from(_refused: AllocFailed<T>) -> Self {
        RedisError::from(AllocError)
    }
}

impl From<(ErrorKind, &'static str)> for RedisError {
    ghost from_gives = { λ parts e. e
        ≡ record { kind = parts.0; desc = parts.1.now; detail = None } };

    fn from((kind, desc): (ErrorKind, &'static str)) -> Self {
        RedisError {
            kind,
            desc,
            detail: None,
        }
    }
}

impl From<(ErrorKind, &'static str, String)> for RedisError {
    ghost from_gives = { λ parts e. e
        ≡ record { kind = parts.0; desc = parts.1.now; detail = Some (string_bytes parts.2) } };

    fn from((kind, desc, detail): (ErrorKind, &'static str, String)) -> Self {
        RedisError {
            kind,
            desc,
            detail: Some(detail),
        }
    }
}
