//! A session for clients of Redis Cluster. It touches no socket, thread or clock: bytes in, bytes out.
//!
//! [`Machine`] keeps the links to nodes, the calls of many callers, and the order in which each caller's
//! parts may be asked. Its user owns the sockets, the time and the map of slots:
//!
//! 1. It calls [`Machine::open`] for a connection, and [`Machine::begin`] for a command, as its parts.
//! 2. It asks parts by [`Machine::ask`], writes [`Machine::unwritten`], and notes that by
//!    [`Machine::wrote`].
//! 3. It passes what it reads to [`Machine::hear`], and calls [`Machine::take`] until that returns
//!    [`Took::Nothing`]. A part that a node refused waits again, and is asked elsewhere or later.
//! 4. When a connection ends, it calls [`Machine::end`], and [`Machine::lose`] until that returns `None`.
//! 5. When a part is settled, it calls [`Machine::end_overtaken`] for its slot.
//! 6. It makes the reply of [`Machine::next_call`] from the parts of [`Machine::call`], and calls
//!    [`Machine::finish`]. It frees memory by [`Machine::leave`] and [`Machine::trim`].
//!
//! Each call that changes the session is one event of the machine in `session_core`, or it changes nothing
//! and says so. So the laws of `session_core` hold of each program that uses a session.
#![tactic(auto)]

mod call;
mod caller;
mod caller_table;
mod callers;
mod calls;
mod giving_up;
mod links;
mod machine;
mod orders;
mod owed;
mod part;
mod part_places;
mod spares;
mod telling;
mod took;

pub use call::Call;
pub use machine::Machine;
pub use part::{Part, Phase};
pub use took::Took;
