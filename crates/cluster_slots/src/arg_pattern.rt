ghost use Rattle.std.specs.Prelude.{◌≡◌, ◌≤◌};
ghost use Rattle.cluster_slots.specs.ArgPattern.{fits, is_complete, tuple_args_count, width_of};

/// How the arguments of a multi-key command make tuples of a key and what goes with it.
#[derive(Clone, Copy, Debug, PartialEq, Eq)]
pub enum MultiSlotArgPattern {
    /// Each argument is a key: `DEL key1 key2`.
    KeysOnly,
    /// A key and its value in turn: `MSET key1 value1 key2 value2`.
    KeyValuePairs,
    /// Each argument is a key but the last, which all keys share: `JSON.MGET key1 key2 path`.
    KeysAndLastArg,
    /// A key and two arguments in turn: `JSON.MSET key1 path1 value1 key2 path2 value2`.
    KeyWithTwoArgTriples,
}

impl MultiSlotArgPattern {
    /// How many arguments a tuple has.
    pub fn width(self) -> usize
        ensures { result ≡ width_of self }
    {
        match self {
            MultiSlotArgPattern::KeysOnly | MultiSlotArgPattern::KeysAndLastArg => 1,
            MultiSlotArgPattern::KeyValuePairs => 2,
            MultiSlotArgPattern::KeyWithTwoArgTriples => 3,
        }
    }

    /// Whether this many arguments make whole tuples, and at least one.
    pub fn fits(self, count: usize) -> bool
        ensures { result ≡ fits self count }
    {
        count > 0
            && match self {
                MultiSlotArgPattern::KeysOnly | MultiSlotArgPattern::KeysAndLastArg => true,
                MultiSlotArgPattern::KeyValuePairs => count % 2 == 0,
                MultiSlotArgPattern::KeyWithTwoArgTriples => count % 3 == 0,
            }
    }

    /// Whether this many arguments are complete: they make whole tuples, and if keys share a last
    /// argument, it is there.
    pub fn is_complete(self, count: usize) -> bool
        ensures { result ≡ is_complete self count }
    {
        match self {
            MultiSlotArgPattern::KeysAndLastArg => count > 1,
            _ => self.fits(count),
        }
    }

    /// How many of this many arguments make tuples: those after them are shared by all.
    pub fn own_len(self, count: usize) -> usize
        ensures own { result ≡ tuple_args_count self count }
        ensures within { result ≤ count }
    {
        match self {
            MultiSlotArgPattern::KeysAndLastArg if count > 1 => count - 1,
            _ => count,
        }
    }
}
