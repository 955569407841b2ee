//! The program over any reader and writers: what it prints for its words and its input.
#![tactic(auto)]

mod command;
mod direction;
mod fault;
mod input;
mod output;
mod printing;
mod program;
mod refusal;
mod request;
mod run;
mod split;
mod strategy;
mod streams;
mod words;

pub use command::{read_only_names, run_command};
pub use direction::Direction;
pub use program::{USAGE, serve, serve_streams};
pub use refusal::{CommandFault, Refusal};
pub use strategy::{StrategyName, strategy_of};
pub use streams::{Sink, Source};
pub use words::{cmd_from_words, push_word};
