/// With which other parts of its caller a part keeps the order of their calls.
#[derive(Clone, Copy, Debug, PartialEq, Eq)]
pub enum PartOrder {
    /// With those of this slot, and those that are [`PartOrder::Whole`].
    OfSlot(u16),
    /// With all but those that are [`PartOrder::Free`]: a command without a slot, or to several nodes.
    Whole,
    /// With none: nobody can see when a `PING` ran.
    Free,
}

/// Why a part did not run, and never will.
#[derive(Clone, Copy, Debug, PartialEq, Eq)]
pub enum Cause {
    /// A later part of its caller and slot was settled first.
    Overtaken,
    /// Nobody waits for the reply to its call any more.
    GivenUp,
    /// The time of its call was over.
    Late,
    /// There is no node to ask.
    NoNode,
}
