ghost use Rattle.std.specs.Prelude.{IfOk, IsTrue, ◌↔◌};
ghost use Rattle.redis_cluster.specs.Orders.{NamesOnce};

use std::alloc::{AllocError, Global};

/// Whether an order names each number below `count` once, and no other, as `drive` asks it of routes.
/// For 3 that is `[2, 0, 1]`, say; `[2, 0]`, `[0, 0, 1]` and `[1, 2, 3]` do not pass.
///
/// # Errors
///
/// Out of memory, if the order has `count` numbers: it takes a byte for each.
pub fn names_once(alloc: Global, count: usize, order: &[usize]) -> Result<bool, AllocError>
    ensures { IfOk result (λ names. IsTrue names ↔ NamesOnce count order.now) }
{
    if order.len() != count {
        return Ok(false);
    }
    let mut named = vec![in alloc; false; count]?;
    for number in order {
        if *number >= count || named[*number] {
            return Ok(false);
        }
        named[*number] = true;
    }
    Ok(true)
}
