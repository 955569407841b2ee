//! The names that only read, and those that are registered.
pub mod combiners;
pub mod pipelines;
mod routes;
mod tables;

use fixtures::{bad_row, bytes, equality, okay, or_text, read_only_names, shown, two};
use redis_cluster::routing::{AggregateOp, Names, ReadOnlyNames, Registry, ResponsePolicy};
use resp_core::RedisResult;
use std::alloc::Global;

/// What the rows so far say of names.
#[derive(Drop)]
pub struct Known {
    /// The names of the commands that only read.
    pub read_only: ReadOnlyNames,
    /// The names that the tables do not have.
    pub registry: Registry,
}

impl Known {
    /// No name only reads, and none is registered.
    pub fn new(alloc: Global) -> Self {
        Known {
            read_only: ReadOnlyNames::new(alloc),
            registry: Registry::new(alloc),
        }
    }

    /// Both, as calls take them.
    pub fn names(&self) -> Names<'_> {
        Names {
            read_only: &self.read_only,
            registry: &self.registry,
        }
    }
}

/// What a call of this name returns.
pub fn call(known: &mut Known, alloc: Global, name: &str, text: &str) -> RedisResult<String> {
    match name {
        "reading" => reading(alloc, known, text),
        "reads" => shown(alloc, &known.read_only.contains(text.as_bytes())),
        "registry" => registry(alloc, known),
        "register" => register(alloc, known, text),
        "copied_registry" => equality(alloc, &known.registry),
        "routing" | "policy" | "redirect" | "copied_redirect" | "copied_address" => {
            tables::call(alloc, name, text)
        }
        _ => routes::call(alloc, known, name, text),
    }
}

/// These names only read, and no other does.
fn reading(alloc: Global, known: &mut Known, text: &str) -> RedisResult<String> {
    known.read_only = read_only_names(alloc, text)?;
    okay(alloc)
}

/// No name is registered.
fn registry(alloc: Global, known: &mut Known) -> RedisResult<String> {
    known.registry = Registry::new(alloc);
    okay(alloc)
}

/// Registers the name after a pattern and a policy.
fn register(alloc: Global, known: &mut Known, text: &str) -> RedisResult<String> {
    let (pattern, rest) = two(text);
    let (policy, name) = two(rest);
    let (pattern, policy) = (combiners::pattern_of(pattern)?, policy_of(policy)?);
    let name = bytes(alloc, name)?;
    or_text(
        alloc,
        known.registry.register(alloc, &name, pattern, policy),
    )?;
    okay(alloc)
}

/// The policy of this name.
fn policy_of(word: &str) -> RedisResult<ResponsePolicy> {
    match word {
        "AllSucceeded" => Ok(ResponsePolicy::AllSucceeded),
        "Sum" => Ok(ResponsePolicy::Aggregate(AggregateOp::Sum)),
        "CombineArrays" => Ok(ResponsePolicy::CombineArrays),
        "Special" => Ok(ResponsePolicy::Special),
        _ => Err(bad_row("no policy of this name")),
    }
}
