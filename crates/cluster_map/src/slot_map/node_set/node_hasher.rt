ghost use Rattle.std.specs.Prelude.{◌≡◌};
ghost use Rattle.std.specs.Hash.FoldHasher as folding;
ghost use Rattle.cluster_map.specs.Inner.NodeSets.{begun_with, is_quick};

use crate::slot_map::node_set::source::Source;
use std::hash::{BuildHasher, DefaultHasher, FoldHasher, Hasher};

/// The hash by which nodes are found.
#[derive(Clone, Copy)]
pub(crate) enum NodeHasher {
    /// A quick hash, the same for each map. Hosts can be chosen so that it is equal.
    Fold(FoldHasher),
    /// SipHash that begins with all nodes. Whoever changes a host changes it for each one.
    Sip(DefaultHasher),
}

impl NodeHasher {
    /// The quick hash.
    pub(crate) fn quick() -> Self
        ensures { result ≡ NodeHasher.Fold folding.initial }
    {
        NodeHasher::Fold(FoldHasher::default())
    }

    /// Whether this is the quick hash.
    pub(crate) fn is_quick(&self) -> bool
        ensures { result ≡ is_quick self.now }
    {
        matches!(self, NodeHasher::Fold(_))
    }

    /// The hash that begins with all nodes of a source.
    pub(crate) fn after_all<S: Source>(source: &S) -> Self
        ensures { result ≡ begun_with (S.nodes source.now) }
    {
        let mut start = DefaultHasher::new();
        source.write_to(&mut start);
        NodeHasher::Sip(start)
    }
}

impl BuildHasher for NodeHasher {
    type Hasher = NodeHasher;

    ghost build_hasher = { λ h. h };

    #[inline(always)]
    fn build_hasher(&self) -> NodeHasher {
        *self
    }
}

impl Hasher for NodeHasher {
    ghost use Rattle.cluster_map.specs.Inner.NodeSets.{write_to, hash_of};

    ghost write = { write_to };

    ghost finish = { hash_of };

    #[inline(always)]
    fn finish(&self) -> u64 {
        match self {
            NodeHasher::Fold(state) => state.finish(),
            NodeHasher::Sip(state) => state.finish(),
        }
    }

    #[inline(always)]
    fn write(&mut self, bytes: &[u8]) {
        match self {
            NodeHasher::Fold(state) => state.write(bytes),
            NodeHasher::Sip(state) => state.write(bytes),
        }
    }
}
