ghost use Rattle.std.specs.Prelude.{◌≡◌};
ghost use Rattle.session_core.specs.Order.{is_done};

use crate::part::PartOrder;

/// A list with room for more parts is not kept for reuse.
pub(crate) const FEW: usize = 16;

/// Which part of which call it is.
#[derive(Debug, Clone, Copy)]
pub struct Seat {
    /// The number of the call.
    pub call: u64,
    /// The number of the part within its call.
    pub part: usize,
}

/// How far a part is.
#[derive(Debug, Clone, Copy)]
pub enum Status {
    /// It may be asked as soon as the order allows it, the first time or again.
    Waits,
    /// It is on its way on the link of this number.
    Asked(usize),
    /// It ran or may have run. It was answered by anything but a refusal before running, or its link
    /// ended after a byte of it was written.
    Settled,
    /// It did not run, and will not: it was overtaken or given up, or has no tries or no time left.
    Unsent,
}

/// A part in the order of its caller.
#[derive(Debug, Clone, Copy)]
pub struct OrderedPart {
    /// Which part it is. This never changes.
    pub seat: Seat,
    /// With which other parts it keeps the order. This never changes.
    pub order: PartOrder,
    /// How far it is.
    pub status: Status,
}

/// A part that may be asked now.
#[derive(Debug, Clone, Copy)]
pub struct Askable {
    /// Its place in the order of its caller.
    pub place: u64,
    /// Which part it is.
    pub seat: Seat,
    /// The only link that it may be asked on, since earlier parts are on their way there. If none is
    /// on its way, it may be asked on any link.
    pub link: Option<usize>,
}

/// A part that is never asked again, since a later part of its slot is settled.
#[derive(Debug, Clone, Copy)]
pub struct Overtaken {
    /// Its place in the order of its caller.
    pub place: u64,
    /// Which part it is.
    pub seat: Seat,
}

impl Status {
    /// Whether nothing more happens to the part.
    pub fn is_done(&self) -> bool
        ensures { result ≡ is_done self.now }
    {
        matches!(self, Status::Settled | Status::Unsent)
    }
}
