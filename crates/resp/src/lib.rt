//! Reading and writing replies and requests in the Redis serialization protocol, version 2, and
//! finding where messages of versions 2 and 3 end.
#![tactic(auto)]

mod fault;
mod fields;
mod heads;
mod items;
mod numbers;
mod reading;
mod requests;
mod response;
mod scanning;
mod stop;
mod versions;
mod writing;

pub use fault::{Fault, ReadError, RequestError, RequestFault, WriteError};
pub use items::push_items;
pub use reading::{MAX_LEVELS, read};
pub use requests::{read_args, read_request, request_len};
pub use response::Response;
pub use scanning::{Progress, reply_len, scan};
pub use versions::is_version_2;
pub use writing::{push_array_line, push_bulk, push_command, write, write_command};
