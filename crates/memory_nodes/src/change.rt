ghost use Rattle.std.specs.Prelude.{◌≡◌};
ghost use Rattle.memory_nodes.specs.Cells.{keyspace_of};
ghost use Rattle.memory_nodes.specs.Undo.{undone, before_all};

use crate::cells::{Cells, Values, put_value_back};
use crate::tree::put_back;

/// What it takes to undo a write.
#[derive(Drop)]
pub(super) struct Change<'a> {
    /// The key that was written.
    pub(super) key: &'a [u8],
    /// What the key held before.
    pub(super) before: Before<'a>,
}

/// What a key held before a write.
#[derive(Drop)]
pub(super) enum Before<'a> {
    /// All values of the key. `None` if the key was not there.
    AtKey(Option<Values>),
    /// The value at a path, if there was one. The write kept the values at other paths.
    AtPath(&'a [u8], Option<Vec<u8>>),
}

impl Change<'_> {
    /// Undoes the write. Takes no memory.
    fn undo(self, cells: &mut Cells)
        ensures { keyspace_of cells.new ≡ undone self.entry (keyspace_of cells.old) }
    {
        let Change { key, before } = self;
        match before {
            Before::AtKey(before) => put_back(cells, key, before),
            Before::AtPath(path, before) => {
                if let Some(values) = cells.get_mut(key) {
                    put_value_back(values, path, before);
                }
            }
        }
    }
}

/// Undoes writes, the last one first. Takes no memory.
pub(super) fn undo_all(cells: &mut Cells, mut changes: Vec<Change<'_>>)
    ensures { keyspace_of cells.new ≡ before_all changes.entry.items (keyspace_of cells.old) }
{
    while let Some(change) = changes.pop() {
        change.undo(cells);
    }
}
