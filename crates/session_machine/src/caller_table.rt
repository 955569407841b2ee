//! The callers of which something is kept.

ghost use Rattle.std.specs.Prelude.{◌≡◌, ◌≤◌, ℕ, None, Some, OnOk, OnErr, length, slice_get, option_copied};
ghost use Rattle.std.specs.Option.{option_copied_mut, option_and_then};
ghost use Rattle.std.specs.Borrow.{sem};
ghost use Rattle.session_machine.specs.CallerTable.{in_slot, slot_of, kept_in, KeepsAll, IsPut, LendsSlot, LendsEntry, LendsCaller};

use crate::caller::Caller;
use std::alloc::{AllocError, Global};
use std::collections::BTreeMap;

/// The callers below this number stand in a list.
const NEAR: u64 = 16384;

/// A caller in a block of its own, if something is kept of it.
#[derive(Drop)]
pub(crate) struct Slot {
    caller: Option<Box<Caller>>,
}

/// The callers of which something is kept. One is found in constant time if its number is small, and else
/// in logarithmic time.
#[derive(Drop)]
pub(crate) struct CallerTable {
    /// The callers of small numbers, by number. It has a slot for each number up to the greatest one so far.
    near: Vec<Slot>,
    /// The other ones.
    far: BTreeMap<u64, Slot>,
}

impl CallerTable {
    /// No callers. Takes no memory.
    pub(crate) fn new(alloc: Global) -> CallerTable
        ensures { (caller : ℕ) → kept_in caller result ≡ None }
    {
        CallerTable {
            near: Vec::new(alloc),
            far: BTreeMap::new(alloc),
        }
    }

    /// The caller of this number, if it is kept.
    pub(crate) fn get(&self, caller: u64) -> Option<&Caller>
        ensures value { option_copied result ≡ kept_in caller self.now }
    {
        match self.slot(caller) {
            Some(slot) => slot.get(),
            None => None,
        }
    }

    /// The caller of this number, to be changed.
    pub(crate) fn get_mut(&mut self, caller: u64) -> Option<&mut Caller>
        ensures* writes_back { sem 𝓛 (LendsCaller self.entry caller result) }
        ensures value { option_copied_mut result ≡ kept_in caller self.old }
    {
        match self.slot_mut(caller) {
            Some(slot) => slot.get_mut(),
            None => None,
        }
    }

    /// Keeps a caller under a number that has none.
    ///
    /// # Errors
    ///
    /// If memory runs out. The same callers are kept then.
    pub(crate) fn insert(&mut self, caller: u64, entry: Box<Caller>) -> Result<(), AllocError>
        ensures ok { OnOk result (IsPut caller (Some entry.value) self.old self.new) }
        ensures err { OnErr result (KeepsAll self.old self.new) }
    {
        let slot = Slot {
            caller: Some(entry),
        };
        if caller < NEAR {
            let index = caller as usize;
            make_room(&mut self.near, index + 1)?;
            self.near[index] = slot;
            return Ok(());
        }
        self.far.insert(caller, slot)?;
        Ok(())
    }

    /// Forgets the caller of a number, and returns it, if it is kept.
    pub(crate) fn remove(&mut self, caller: u64) -> Option<Box<Caller>>
        ensures { IsPut caller None self.old self.new }
    {
        if caller < NEAR {
            return match self.near.get_mut(caller as usize) {
                Some(slot) => slot.caller.take(),
                None => None,
            };
        }
        match self.far.remove(&caller) {
            Some(slot) => slot.caller,
            None => None,
        }
    }

    fn slot(&self, caller: u64) -> Option<&Slot>
        ensures value { option_copied result ≡ slot_of caller self.now }
    {
        if caller < NEAR {
            return self.near.get(caller as usize);
        }
        self.far.get(&caller)
    }

    fn slot_mut(&mut self, caller: u64) -> Option<&mut Slot>
        ensures* writes_back { sem 𝓛 (LendsSlot self.entry caller result) }
        ensures value { option_copied_mut result ≡ slot_of caller self.old }
    {
        if caller < NEAR {
            return self.near.get_mut(caller as usize);
        }
        self.far.get_mut(&caller)
    }
}

impl Slot {
    /// The caller that stands here.
    fn get(&self) -> Option<&Caller>
        ensures value { option_copied result ≡ in_slot self.now }
    {
        match &self.caller {
            Some(entry) => Some(&**entry),
            None => None,
        }
    }

    /// The caller that stands here, to be changed.
    fn get_mut(&mut self) -> Option<&mut Caller>
        ensures* writes_back { sem 𝓛 (LendsEntry self.entry result) }
        ensures value { option_copied_mut result ≡ in_slot self.old }
    {
        match &mut self.caller {
            Some(entry) => Some(&mut **entry),
            None => None,
        }
    }
}

/// Makes the list as long, with slots where no caller stands.
fn make_room(near: &mut Vec<Slot>, count: usize) -> Result<(), AllocError>
    ensures long { OnOk result (count ≤ length near.new.items) }
    ensures same { (n : ℕ) → option_and_then in_slot (slice_get near.new.items n) ≡ option_and_then in_slot (slice_get near.old.items n) }
{
    while near.len() < count {
        near.push(Slot { caller: None })?;
    }
    Ok(())
}
