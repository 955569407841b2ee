//! Errors, values and commands.
#![tactic(auto)]

/// Commands: a name and its arguments, each a byte string.
pub mod cmd;
/// Errors: a kind, a text and perhaps a detail.
pub mod error;
/// Replies, as trees.
pub mod value;

pub use cmd::{Args, Cmd};
pub use error::{ErrorKind, RedisError, RedisResult};
pub use value::Value;
