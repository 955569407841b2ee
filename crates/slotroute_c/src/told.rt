/// Sizes that a call needs, or where a fault is. `include/slotroute.h` says which call writes which
/// field.
#[repr(C)]
#[derive(Clone, Copy)]
pub struct Told {
    /// How many parts there are.
    pub parts: usize,
    /// How many bytes there are.
    pub bytes: usize,
    /// The number of a reply.
    pub reply: usize,
    /// The index of a byte.
    pub at: usize,
}
