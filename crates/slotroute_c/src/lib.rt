//! The routing layer for callers in C: buffers in, buffers out, and nothing kept between calls but in
//! a session. `include/slotroute.h` declares these functions.
#![tactic(auto)]

mod block;
mod buffers;
mod cursors;
mod faults;
mod keys;
mod lengths;
mod outcomes;
mod parts;
mod redirects;
mod routes;
mod scans;
mod session_calls;
mod session_handle;
mod session_links;
mod session_nodes;
mod session_replies;
mod sessions;
mod several;
mod tables;
mod told;
mod version;
