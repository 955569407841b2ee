ghost use Rattle.std.specs.Prelude.{◌≤◌, length};
ghost use Rattle.slotroute_c.specs.Buffers.{IsWritten};

/// Writes items to the front of a buffer.
pub(super) fn put<T: Copy>(buffer: &mut [T], items: &[T])
    requires { length items.now ≤ length buffer.old }
    ensures { IsWritten items.now buffer.old buffer.new }
{
    let (front, _) = buffer.split_at_mut(items.len());
    front.copy_from_slice(items);
}

/// Writes a vector's items to the front of a buffer.
pub(super) fn put_all<T: Copy>(buffer: &mut [T], items: &Vec<T>)
    requires { length items.now.items ≤ length buffer.old }
    ensures { IsWritten items.now.items buffer.old buffer.new }
{
    put(buffer, items.as_slice());
}
