//! Callers that were forgotten. Their memory is for those that come.

ghost use Rattle.std.specs.Prelude.{◌≡◌, IfOk};
ghost use Rattle.session_machine.specs.Caller.{no_calls};

use crate::caller::Caller;
use std::alloc::{AllocError, Global};

/// The most callers that are kept. Each has some 450 bytes, and 3 kB at most.
const MOST: usize = 16384;

/// Callers that were forgotten. Mostly a caller is forgotten after each call, so the next call of any
/// caller takes no memory if one is here.
#[derive(Drop)]
pub(crate) struct Spares {
    callers: Vec<Box<Caller>>,
}

impl Spares {
    /// None is kept yet.
    pub(crate) fn new(alloc: Global) -> Spares {
        Spares {
            callers: Vec::new(alloc),
        }
    }

    /// A caller without calls: one that is kept, or else a new one.
    ///
    /// # Errors
    ///
    /// If memory runs out.
    pub(crate) fn take(&mut self, alloc: Global) -> Result<Box<Caller>, AllocError>
        ensures { IfOk result (λ caller. caller.value ≡ no_calls) }
    {
        let Some(mut caller) = self.callers.pop() else {
            return Ok(Box::new(alloc, Caller::new(alloc))?);
        };
        caller.clear();
        Ok(caller)
    }

    /// Keeps a caller that was forgotten, if it is small. If memory runs out, it is dropped.
    pub(crate) fn keep(&mut self, gone: Option<Box<Caller>>) {
        let Some(caller) = gone else {
            return;
        };
        if caller.is_small() && self.callers.len() < MOST {
            let _ = self.callers.push(caller);
        }
    }
}
