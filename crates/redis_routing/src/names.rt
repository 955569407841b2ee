use super::read_only::ReadOnlyNames;
use super::registry::Registry;

/// What a caller says of names: which commands only read, and which names are registered beside
/// those of the tables.
#[derive(Clone, Copy)]
pub struct Names<'a> {
    /// The names of the commands that only read.
    pub read_only: &'a ReadOnlyNames,
    /// The names that the tables don't have.
    pub registry: &'a Registry,
}
