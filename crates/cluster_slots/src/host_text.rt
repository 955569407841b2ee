ghost use Rattle.std.specs.Prelude.{◌≡◌, IfOk};
ghost use Rattle.std.specs.Arc.{arc_str_bytes};

use arrayvec::ArrayString;
use std::alloc::{AllocError, Global};
use std::marker::Model;
use std::sync::ArcStr;

/// The text of a host. A short one takes no memory, and clones share a longer one.
#[derive(Drop)]
pub(crate) struct HostText {
    place: Place,
}

/// Where the text lies: the text of an IPv4 address in the value itself.
#[derive(Drop)]
enum Place {
    Inside(ArrayString<16>),
    Shared(ArcStr),
}

impl Model for HostText {
    ghost use Rattle.std.specs.Prelude.{ℕ, List};
    ghost use Rattle.cluster_slots.specs.HostText.{text_bytes};

    ghost Value = { List ℕ };

    ghost view = { λ h. text_bytes h.place };
}

impl HostText {
    /// A copy of the text.
    pub(crate) fn new(alloc: Global, host: &str) -> Result<Self, AllocError>
        ensures { IfOk result (λ h. h ≡ host.now) }
    {
        let place = match ArrayString::from(host) {
            Ok(text) => Place::Inside(text),
            Err(_) => Place::Shared(ArcStr::from_str(alloc, host)?),
        };
        Ok(HostText { place })
    }

    /// The text itself.
    pub(crate) fn shared(host: ArcStr) -> Self
        ensures { result ≡ arc_str_bytes host }
    {
        HostText {
            place: Place::Shared(host),
        }
    }

    /// The text.
    pub(crate) fn as_str(&self) -> &str
        ensures { result.now ≡ self.now }
    {
        match &self.place {
            Place::Inside(text) => text.as_str(),
            Place::Shared(text) => text.as_str(),
        }
    }
}

impl Clone for HostText {
    ghost is_clone = { λ a b. b ≡ a };

    fn clone(&self) -> Result<Self, AllocError> {
        let place = match &self.place {
            Place::Inside(text) => Place::Inside(*text),
            Place::Shared(text) => Place::Shared(text.clone()?),
        };
        Ok(HostText { place })
    }
}
