ghost use Rattle.std.specs.Prelude.{◌≡◌, ◌<◌, ℕ, List, [], length, slice_get, ◌||◌, OnOk, OnErr};
ghost use Rattle.std.specs.Str.{bytes_eq};
ghost use Rattle.redis_routing.specs.ReadOnly.{is_among};
ghost use Rattle.redis_routing.specs.Upper.{upper};
ghost use Rattle.redis_routing.specs.Inner.NameSpots.{spot_of, names_in_trees, is_in};

use super::lookup::name_hash;
use super::upper_case::to_upper_case;
use std::alloc::{AllocError, Global};
use std::collections::BTreeSet;
use std::marker::Model;

/// How many spots names have.
const SPOTS: usize = 64;

/// The names of the commands that only read, whose keys a replica may serve.
///
/// A command's name is looked up as `Routable::command` gives it, in upper case.
///
/// Five bytes of a name make its number, which gives it one of 64 spots. The names of a spot stand
/// in a tree. So a look-up compares few names, and costs O(log n) at worst, whatever names are put
/// in.
#[derive(Drop)]
pub struct ReadOnlyNames {
    trees: Vec<BTreeSet<Vec<u8>>>,
}

impl Model for ReadOnlyNames {
    ghost use Rattle.std.specs.Prelude.{ℕ, List};
    ghost use Rattle.redis_routing.specs.Inner.NameSpots.{names_in_trees, AreAtTheirSpots};

    ghost Value = { List (List ℕ) };

    ghost view = { λ set. names_in_trees set.trees.items };

    ghost invariant = { λ set. AreAtTheirSpots set.trees.items };
}

impl ReadOnlyNames {
    /// A set of no name. Takes no memory.
    pub fn new(alloc: Global) -> Self
        ensures { result ≡ [] }
    {
        ReadOnlyNames {
            trees: Vec::new(alloc),
        }
    }

    /// Puts in the name in ASCII upper case.
    ///
    /// # Errors
    ///
    /// If memory runs out, the set stays as it was.
    pub fn insert(&mut self, alloc: Global, name: &[u8]) -> Result<(), AllocError>
        ensures inserted { OnOk result ((q : List ℕ)
            → is_among self.new q ≡ (bytes_eq q (upper name.now) || is_among self.old q)) }
        ensures unchanged { OnErr result (self.new ≡ self.old) }
    {
        let name = to_upper_case(alloc, name)?;
        let spot = spot_of(&name);
        reach(&mut self.trees, alloc, spot)?;
        self.trees[spot].insert(name)?;
        Ok(())
    }

    /// Whether these very bytes are one of the names. O(log n).
    pub fn contains(&self, name: &[u8]) -> bool
        ensures { result ≡ is_among self.now name.now }
    {
        is_at_its_spot(&self.trees, name)
    }
}

/// Whether the tree at its spot has a name.
fn is_at_its_spot(trees: &[BTreeSet<Vec<u8>>], name: &[u8]) -> bool
    ensures { result ≡ is_in name.now (slice_get trees.now (spot_of name.now)) }
{
    match trees.get(spot_of(name)) {
        Some(tree) => tree.contains(name),
        None => false,
    }
}

/// Adds empty trees, so that there is one at the spot.
fn reach(trees: &mut Vec<BTreeSet<Vec<u8>>>, alloc: Global, spot: usize) -> Result<(), AllocError>
    ensures reached { OnOk result (spot < length trees.new.items) }
    ensures names { names_in_trees trees.new.items ≡ names_in_trees trees.old.items }
    ensures spots { (q : List ℕ) (at : ℕ)
        → is_in q (slice_get trees.new.items at) ≡ is_in q (slice_get trees.old.items at) }
{
    trees.reserve(spot.saturating_add(1).saturating_sub(trees.len()))?;
    while trees.len() <= spot {
        trees.push(BTreeSet::new(alloc))?;
    }
    Ok(())
}

/// The spot of a name.
fn spot_of(name: &[u8]) -> usize
    ensures { result ≡ spot_of name.now }
{
    name_hash(name) % SPOTS
}
