ghost use Rattle.std.specs.Prelude.{◌≡◌, None, Some, IfOk, OnOk, OnErr, is_some, option_copied, option_map};
ghost use Rattle.redis_cluster.specs.Unsplit.{put};
ghost use Rattle.memory_nodes.specs.Cells.{path_value, cell_of, keyspace_of, value_at};
ghost use Rattle.memory_nodes.specs.Steps.{single_value, written};
ghost use Rattle.memory_nodes.specs.Undo.{back, undone};

use crate::change::{Before, Change};
use crate::tree::{Tree, put_at, put_back};
use std::alloc::{AllocError, Global};

/// The values of one key, by path. Most keys have no path, and then take no tree.
#[derive(Drop)]
pub(super) struct Values {
    /// The value at the empty path.
    plain: Option<Vec<u8>>,
    /// The values at other paths.
    others: Tree<Vec<u8>>,
}

impl Values {
    /// No value. Takes no memory.
    fn new(alloc: Global) -> Values
        ensures { cell_of result ≡ (λ path. None) }
    {
        Values {
            plain: None,
            others: Tree::new(alloc),
        }
    }

    /// The value at a path.
    fn get(&self, path: &[u8]) -> Option<&Vec<u8>>
        ensures { option_copied result ≡ path_value self.now path.now }
    {
        if path.is_empty() {
            return self.plain.as_ref();
        }
        self.others.get(path)
    }
}

/// The values of each key.
pub(super) type Cells = Tree<Values>;

/// The value at a path of a key.
pub(super) fn value_at<'a>(cells: &'a Cells, key: &[u8], path: &[u8]) -> Option<&'a [u8]>
    ensures { option_copied result ≡ value_at (keyspace_of cells.now key.now) path.now }
{
    let values = cells.get(key)?;
    let value = values.get(path)?;
    Some(value.as_slice())
}

/// Whether the key is there.
pub(super) fn is_there(cells: &Cells, key: &[u8]) -> bool
    ensures { result ≡ is_some (keyspace_of cells.now key.now) }
{
    cells.contains_key(key)
}

/// Removes a key, and returns whether it was there. Takes no memory.
pub(super) fn remove(cells: &mut Cells, key: &[u8]) -> bool
    ensures cells { keyspace_of cells.new ≡ put key.now None (keyspace_of cells.old) }
    ensures there { result ≡ is_some (keyspace_of cells.old key.now) }
{
    cells.remove(key).is_some()
}

/// Puts a value at the empty path of a key, and keeps no other value of it.
pub(super) fn write<'a>(
    alloc: Global,
    cells: &mut Cells,
    key: &'a [u8],
    value: &[u8],
) -> Result<Change<'a>, AllocError>
    ensures cells { OnOk result
        (keyspace_of cells.new ≡ put key.now (Some (single_value value.now)) (keyspace_of cells.old)) }
    ensures undo { IfOk result
        (λ change. undone change (keyspace_of cells.new) ≡ keyspace_of cells.old) }
    ensures memory { OnErr result (keyspace_of cells.new ≡ keyspace_of cells.old) }
{
    write_alone(alloc, cells, key, b"", value)
}

/// Puts a value at a path of a key, and keeps the values at other paths.
pub(super) fn write_at_path<'a>(
    alloc: Global,
    cells: &mut Cells,
    key: &'a [u8],
    path: &'a [u8],
    value: &[u8],
) -> Result<Change<'a>, AllocError>
    ensures cells { OnOk result
        (keyspace_of cells.new
        ≡ put key.now (Some (written path.now value.now (keyspace_of cells.old key.now)))
        (keyspace_of cells.old)) }
    ensures undo { IfOk result
        (λ change. undone change (keyspace_of cells.new) ≡ keyspace_of cells.old) }
    ensures memory { OnErr result (keyspace_of cells.new ≡ keyspace_of cells.old) }
{
    match cells.get_mut(key) {
        Some(values) => {
            let before = put_value(alloc, values, path, value)?;
            Ok(Change {
                key,
                before: Before::AtPath(path, before),
            })
        }
        None => write_alone(alloc, cells, key, path, value),
    }
}

/// Puts a value at a path of a key, and keeps no other value of it.
fn write_alone<'a>(
    alloc: Global,
    cells: &mut Cells,
    key: &'a [u8],
    path: &[u8],
    value: &[u8],
) -> Result<Change<'a>, AllocError>
    ensures cells { OnOk result
        (keyspace_of cells.new ≡ put key.now (Some (written path.now value.now None))
        (keyspace_of cells.old)) }
    ensures undo { IfOk result
        (λ change. undone change (keyspace_of cells.new) ≡ keyspace_of cells.old) }
    ensures memory { OnErr result (keyspace_of cells.new ≡ keyspace_of cells.old) }
{
    let mut values = Values::new(alloc);
    put_value(alloc, &mut values, path, value)?;
    let before = put_at(alloc, cells, key, values)?;
    Ok(Change {
        key,
        before: Before::AtKey(before),
    })
}

/// Puts a value at a path, and returns the old one.
fn put_value(
    alloc: Global,
    values: &mut Values,
    path: &[u8],
    value: &[u8],
) -> Result<Option<Vec<u8>>, AllocError>
    ensures values { OnOk result
        (cell_of values.new ≡ put path.now (Some value.now) (cell_of values.old)) }
    ensures before { IfOk result
        (λ before. option_map (λ v. v.items) before ≡ cell_of values.old path.now) }
    ensures memory { OnErr result (cell_of values.new ≡ cell_of values.old) }
{
    let copied = value.to_vec(alloc)?;
    if path.is_empty() {
        return Ok(values.plain.replace(copied));
    }
    let before = put_at(alloc, &mut values.others, path, copied)?;
    Ok(before)
}

/// Puts back the value that a path had before. Takes no memory.
pub(super) fn put_value_back(values: &mut Values, path: &[u8], before: Option<Vec<u8>>)
    ensures { cell_of values.new
        ≡ put path.now (back (option_map (λ v. v.items) before) (cell_of values.old path.now))
        (cell_of values.old) }
{
    if path.is_empty() {
        values.plain = values.plain.take().and(before);
    } else {
        put_back(&mut values.others, path, before);
    }
}
