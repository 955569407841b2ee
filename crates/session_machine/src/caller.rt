//! One caller of a session.

ghost use Rattle.std.specs.Prelude.{◌≡◌, ◌<◌, ℕ, true, IfOk, OnOk, OnErr};
ghost use Rattle.session_core.specs.Order.{MayJoin, joined};
ghost use Rattle.session_machine.specs.Ties.{Owes, end_of, is_owed};
ghost use Rattle.session_machine.specs.Caller.{no_calls, KeepsCalls};

use crate::owed::Owed;
use session_core::{CallerOrder, PartOrder};
use std::alloc::{AllocError, Global};

/// The caller of a call, and where the call stands among those of its caller.
#[derive(Debug, Clone, Copy)]
pub(crate) struct CallPlaces {
    /// The number of its caller.
    pub(crate) caller: u64,
    /// The place of its first part in the order of its caller.
    pub(crate) order: u64,
}

/// One caller: its parts in the order of its calls, and the calls that are owed a reply.
#[derive(Drop)]
pub(crate) struct Caller {
    pub(crate) order: CallerOrder,
    pub(crate) owed: Owed,
    /// The number of its last call.
    pub(crate) last: u64,
}

impl Caller {
    /// A caller without calls.
    pub(crate) fn new(alloc: Global) -> Caller
        ensures { result ≡ no_calls }
    {
        Caller {
            order: CallerOrder::new(alloc),
            owed: Owed::new(alloc),
            last: 0,
        }
    }

    /// Makes it a caller without calls. It keeps its memory, for another caller.
    pub(crate) fn clear(&mut self)
        ensures { self.new ≡ no_calls }
    {
        self.order.clear();
        self.owed.clear();
        self.last = 0;
    }

    /// Whether it has room for few parts and calls at most.
    pub(crate) fn is_small(&self) -> bool {
        self.order.is_small() && self.owed.is_small()
    }

    /// Adds a call of the caller of this number: its parts join the order, and its reply is owed.
    ///
    /// # Errors
    ///
    /// If memory runs out. No part joins then, and no more replies are owed.
    #[inline(always)]
    pub(crate) fn begin(
        &mut self,
        alloc: Global,
        caller: u64,
        number: u64,
        orders: &[PartOrder],
    ) -> Result<CallPlaces, AllocError>
        requires joins { MayJoin number orders.now self.old.order }
        requires later { (call : ℕ) → is_owed call self.old.owed ≡ true → call < number }
        ensures caller { IfOk result (λ places. places.caller ≡ caller) }
        ensures place { IfOk result (λ places. places.order ≡ end_of self.old.order) }
        ensures joined { OnOk result (self.new.order ≡ joined number orders.now self.old.order) }
        ensures owed { OnOk result (Owes self.old.owed self.new.owed number true) }
        ensures last { OnOk result (self.new.last ≡ number) }
        ensures err { OnErr result (KeepsCalls self.old self.new) }
    {
        let order = self.order.end();
        self.owed.push(number)?;
        if let Err(error) = self.order.join(alloc, number, orders) {
            self.owed.remove(number);
            return Err(error);
        }
        self.last = number;
        Ok(CallPlaces { caller, order })
    }
}
