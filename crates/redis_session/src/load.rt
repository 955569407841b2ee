//! How much a session keeps for its calls.

ghost use Rattle.std.specs.Prelude.{◌≡◌, ◌+◌, ◌-◌, ◌≤◌, IfSome, IfNone};
ghost use Rattle.redis_session.specs.Loads.{HasRoom, Lightens, heavier};

use crate::settings::Settings;

/// How many calls are kept, and how many bytes their requests have.
#[derive(Debug, Clone, Copy)]
pub(crate) struct Load {
    /// How many calls are kept.
    pub(crate) calls: usize,
    /// How many bytes their requests have.
    pub(crate) bytes: usize,
}

impl Load {
    /// No call is kept.
    pub(crate) fn new() -> Load
        ensures { result ≡ record { calls = 0; bytes = 0 } }
    {
        Load { calls: 0, bytes: 0 }
    }

    /// With one call more, whose request has so many bytes, if there is room for it.
    pub(crate) fn with_call(&self, bytes: usize, settings: &Settings) -> Option<Load>
        ensures room { IfSome result (λ load.
            HasRoom settings.now.most_calls settings.now.most_bytes bytes self.now) }
        ensures load { IfSome result (λ load. load ≡ heavier bytes self.now) }
        ensures none { IfNone result
            (HasRoom settings.now.most_calls settings.now.most_bytes bytes self.now → ⊥) }
    {
        if self.calls >= settings.most_calls {
            return None;
        }
        let most = settings.most_bytes;
        if most < self.bytes || most - self.bytes < bytes {
            return None;
        }
        Some(Load {
            calls: self.calls + 1,
            bytes: self.bytes + bytes,
        })
    }

    /// Without a call whose request has so many bytes.
    pub(crate) fn without_call(&self, bytes: usize) -> Load
        ensures { Lightens self.now result }
    {
        Load {
            calls: self.calls.saturating_sub(1),
            bytes: self.bytes.saturating_sub(bytes),
        }
    }
}
