//! A session for clients of Redis Cluster: requests of many callers in, replies out, over links that they share.
//!
//! [`Session`] touches no socket, thread or clock. Its user, the *shell*, connects, writes and reads, and
//! tells the time:
//!
//! 1. [`Session::wanted_node`] names a node that needs a link. The shell connects to its address and calls
//!    [`Session::connected`], or [`Session::unreachable`] if that fails.
//! 2. [`Session::begin`] takes a request of a caller.
//! 3. [`Session::link_to_write`] names a link with something to write. The shell writes [`Session::unwritten`] of it,
//!    as far as the connection takes it, and notes that by [`Session::wrote`].
//! 4. It passes what it reads to [`Session::read`], and calls [`Session::ended`] when a connection ends. It
//!    closes the link that [`Session::link_to_close`] names.
//! 5. It calls [`Session::advance`] with the time before it tells of what happens then, and when
//!    [`Session::next_time`] has come.
//! 6. [`Session::next_reply`] and [`Session::reply`] have the replies to callers, in the order of their calls.
//!
//! The session decides where each part of a request is asked, when, and what is asked again.
//!
//! After any of these calls there may be bytes to write, a node that needs a link, a link to close, or a reply. So a
//! shell looks at all four before it waits for its sockets or for [`Session::next_time`].
//!
//! A caller is any number that the shell picks. Nothing announces it, and it is forgotten after its last reply. Times
//! are of any unit and any clock that does not go back. They are points in time, and [`Settings::pause`] and
//! [`Settings::silence`] are lengths.
#![tactic(auto)]

mod added;
mod asks;
mod call_deadlines;
mod directory;
mod due;
mod due_machine;
mod kind;
mod load;
mod nodes;
mod number_queue;
mod peers;
mod plain_names;
mod plain_places;
mod plan;
mod refusal;
mod reply;
mod rules;
mod schedule;
mod session;
mod settings;
mod table;
mod told;

pub use added::AddedNames;
pub use kind::{CommandKind, command_kind};
pub use plan::{CallParts, CallPlan, SlotPart};
pub use refusal::CallRefusal;
pub use reply::split_reply;
pub use session::Session;
pub use settings::Settings;
pub use table::SlotTable;
pub use told::{Effect, ErrorCause, PartFate, effect_of, error_reply, no_tries_reply};
