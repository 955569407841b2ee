//! What calls are made with, and how it is made of the input.
use cluster_map::SlotMap;
use redis_cluster::routing::{Names, ReadOnlyNames};
use resp_core::{Cmd, Value};
use std::alloc::{AllocError, Global};

/// What calls are made with.
#[derive(Drop)]
pub struct Given<'a> {
    pub alloc: Global,
    /// An array of keys, of the words of a command, or of replies.
    pub items: &'a Value,
    /// A reply to `CLUSTER SLOTS`.
    pub ranges: &'a Value,
    /// The items that are bulk strings.
    pub words: &'a [&'a [u8]],
    /// The command of the words.
    pub command: &'a Cmd,
    /// The map of the ranges.
    pub map: &'a SlotMap,
    /// Some names that only read, and no registered ones.
    pub names: Names<'a>,
}

/// The bulk strings of an array.
pub fn words_in(alloc: Global, items: &Value) -> Result<Vec<&[u8]>, AllocError> {
    let items = items.as_array().unwrap_or(&[]);
    items
        .iter()
        .filter_map(|item| item.as_bulk_string())
        .collect(alloc)
}

/// The command of these words.
pub fn command_of(alloc: Global, words: &[&[u8]]) -> Result<Cmd, AllocError> {
    let mut command = Cmd::new(alloc);
    for word in words {
        command.write_arg(word)?;
    }
    Ok(command)
}

/// The names of some commands that only read.
pub fn read_only(alloc: Global) -> Result<ReadOnlyNames, AllocError> {
    read_only_of(alloc, &[b"GET", b"MGET", b"EXISTS", b"JSON.MGET", b"XREAD"])
}

/// A set of these names.
pub fn read_only_of(alloc: Global, words: &[&[u8]]) -> Result<ReadOnlyNames, AllocError> {
    let mut names = ReadOnlyNames::new(alloc);
    for word in words {
        names.insert(alloc, word)?;
    }
    Ok(names)
}
