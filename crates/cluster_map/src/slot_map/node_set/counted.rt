ghost use Rattle.std.specs.Prelude.{◌≡◌, ◌++◌};
ghost use Rattle.std.specs.Cmp.Rules.{comparing, hashing};
ghost use Rattle.std.specs.Hash as hashed;
ghost use Rattle.std.proofs.Common.{rules};
ghost use Rattle.cluster_slots.specs.Address.{same_address};

use cluster_slots::NodeAddress;
use std::cell::Cell;
use std::hash::{Hash, Hasher};

/// A node that counts how often it is compared with another one.
#[derive(Clone, Copy)]
pub(crate) struct Counted<'a, 'c> {
    node: &'a NodeAddress,
    misses: &'c Cell<usize>,
}

impl<'a, 'c> Counted<'a, 'c> {
    pub(crate) fn new(node: &'a NodeAddress, misses: &'c Cell<usize>) -> Self
        ensures { result.node ≡ node.entry }
    {
        Counted { node, misses }
    }

    pub(crate) fn node(&self) -> &'a NodeAddress
        ensures { result.now ≡ self.now.node.now }
    {
        self.node
    }
}

impl<'a, 'c> PartialEq for Counted<'a, 'c> {
    ghost eq = { λ x y. same_address x.node.now y.node.now };

    ghost laws = { Prim.search (comparing, rules) };

    #[inline(always)]
    fn eq(&self, other: &Counted<'a, 'c>) -> bool {
        let is_same = *self.node == *other.node;
        if !is_same {
            self.misses.set(self.misses.get().saturating_add(1));
        }
        is_same
    }
}

impl<'a, 'c> Eq for Counted<'a, 'c> {
    ghost laws = { Prim.search (comparing, rules) };
}

impl<'a, 'c> Hash for Counted<'a, 'c> {
    ghost hash_input = { λ x. hashed.str x.node.now.host ++ hashed.u16 x.node.now.port };

    ghost respects_eq = { Prim.search (hashing, rules) };

    #[inline(always)]
    fn hash<H: Hasher>(&self, state: &mut H) {
        self.node.hash(state);
    }
}
