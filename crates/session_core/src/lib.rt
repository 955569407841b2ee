//! The base of a session for clients of Redis Cluster. It touches no socket, thread or clock. The
//! session as a whole is a machine, in `specs/State.antt`. The crate `session_machine` has its code.
//!
//! [`Link`] is one connection to a node: what is asked on it in order, and whose replies come.
//! [`CallerOrder`] has the parts of one caller in the order of its calls, and says which may be asked.
//!
//! The functions of `promises` are laws. They hold of each run of links and calls, and a call of one
//! does nothing.
#![tactic(auto)]

mod buffer;
mod heard;
mod lane;
mod lane_part;
mod lane_queues;
mod lanes;
mod laws;
mod link;
mod lone_part;
mod open_parts;
mod order;
mod ordered_part;
mod ordered_parts;
mod part;
mod promises;
mod sorted_places;

pub use laws::take_or_break;
pub use link::{BreakCause, Link, Standing, Taken, Ticket, Wait};
pub use order::CallerOrder;
pub use ordered_part::{Askable, OrderedPart, Overtaken, Seat, Status};
pub use part::{Cause, PartOrder};
pub use promises::{
    answered, each_run, ended, given_up, in_order, in_turn, mine, once, single, told,
};
pub use sorted_places::take_place;
