ghost use Rattle.std.specs.Prelude.{◌≡◌, Some, IfOk, OnOk, OnErr};
ghost use Rattle.redis_cluster.specs.Unsplit.{put};
ghost use Rattle.memory_nodes.specs.Cells.{tree_value};
ghost use Rattle.memory_nodes.specs.Undo.{back};

use std::alloc::{AllocError, Global};
use std::collections::BTreeMap;

/// Values by the bytes that they belong to.
pub(super) type Tree<V> = BTreeMap<Vec<u8>, V>;

/// Puts a value at some bytes, and returns the value that it replaces.
pub(super) fn put_at<V: Drop>(
    alloc: Global,
    tree: &mut Tree<V>,
    bytes: &[u8],
    value: V,
) -> Result<Option<V>, AllocError>
    ensures tree { OnOk result (tree_value tree.new ≡ put bytes.now (Some value) (tree_value tree.old)) }
    ensures before { IfOk result (λ before. before ≡ tree_value tree.old bytes.now) }
    ensures memory { OnErr result (tree_value tree.new ≡ tree_value tree.old) }
{
    let before = tree.insert(bytes.to_vec(alloc)?, value)?;
    Ok(before)
}

/// Puts back the value that some bytes had before. Takes no memory.
pub(super) fn put_back<V: Drop>(tree: &mut Tree<V>, bytes: &[u8], before: Option<V>)
    ensures { tree_value tree.new
        ≡ put bytes.now (back before (tree_value tree.old bytes.now)) (tree_value tree.old) }
{
    match before {
        Some(before) => {
            if let Some(now) = tree.get_mut(bytes) {
                *now = before;
            }
        }
        None => {
            tree.remove(bytes);
        }
    }
}
