//! Routes requests, splits them and combines replies, all as bytes of the Redis protocol.
#![tactic(auto)]

mod answers;
mod answers_fault;
mod combining;
mod fault;
mod merging;
mod names;
mod places;
mod replies;
mod requests;
mod routing;
mod several;
mod splitting;
mod tables;

pub use answers_fault::AnswersFault;
pub use combining::combine;
pub use fault::BytesFault;
pub use names::{fields_in, register_line, registry_in};
pub use requests::{Request, request_in};
pub use routing::route;
pub use several::combine_answers;
pub use splitting::{Parts, push_part, split};
pub use tables::{NO_NODE, SLOTS, Table, slot_map, slot_table};
