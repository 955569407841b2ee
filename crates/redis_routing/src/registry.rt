ghost use Rattle.std.specs.Prelude.{◌≡◌, ◌↔◌, IsTrue, ◌⊎◌, ◌+◌, ◌++◌, ℕ, List, [], ◌∷◌, Some, None, IfErr, IfSome, OnOk, OnErr, MatchOption, Contains, cond, option_map, ◌&&◌, ◌||◌, length, true};
ghost use Rattle.std.specs.Str.{bytes_eq};
ghost use Rattle.std.specs.Cmp.Rules.{comparing};
ghost use Rattle.std.proofs.Common.{rules};
ghost use Rattle.redis_routing.specs.Lookup.{lookup_name};
ghost use Rattle.redis_routing.specs.MultiKeyNames.{TellsSplit, split_of};
ghost use Rattle.redis_routing.specs.NameTables.{default_tables};
ghost use Rattle.redis_routing.specs.Policies.{joins_parts};
ghost use Rattle.redis_routing.specs.Refusal.{register_error};
ghost use Rattle.redis_routing.specs.Registry.{is_bad_name, is_empty, is_one_word, is_bad_policy, is_registrable, tables_with};
ghost use Rattle.redis_routing.specs.RouteBy.{pattern_of};
ghost use Rattle.redis_routing.specs.SameRegistrations.{same_registrations};
ghost use Rattle.redis_routing.specs.TwoWords.{takes_second};
ghost use Rattle.redis_routing.specs.Upper.{upper};
ghost use Rattle.redis_routing.specs.declared.registry.RegisterError.TheVariants as refused;

use super::policy::ResponsePolicy;
use super::routable::takes_second;
use super::route_by::{RouteBy, base_routing, routing_and_policy};
use super::upper_case::to_upper_case;
use cluster_slots::{AggregateOp, MultiSlotArgPattern};
use std::alloc::{AllocError, AllocFailed, Global};
use std::collections::BTreeMap;
use std::error::Error;
use std::fmt;
use std::marker::Model;

/// Why a name is not registered.
#[derive(Clone, Copy, Debug, PartialEq, Eq)]
pub enum RegisterError {
    /// No command has such a name: it is empty, or its second word is missing, or what follows its
    /// first word can't.
    BadName,
    /// The tables have the name, or it is registered.
    Taken,
    /// The policy is none of `AllSucceeded`, `Aggregate(Sum)` and `CombineArrays`.
    BadPolicy,
    /// Memory ran out.
    Memory,
}

impl From<AllocError> for RegisterError {
    ghost use Rattle.redis_routing.specs.declared.registry.RegisterError.TheVariants as refused;

    ghost from_gives = { λ _ error. error ≡ refused.Memory };

    fn from(_: AllocError) -> Self {
        RegisterError::Memory
    }
}

impl<T: Drop> From<AllocFailed<T>> for RegisterError {
    ghost use Rattle.redis_routing.specs.declared.registry.RegisterError.TheVariants as refused;

    ghost from_gives = { λ _ error. error ≡ refused.Memory };

    fn from(_: AllocFailed<T>) -> Self {
        RegisterError::Memory
    }
}

impl fmt::Display for RegisterError {
    ghost use Rattle.redis_routing.specs.Refusal.{register_error_text};

    ghost output = { λ error. Some (register_error_text error) };

    fn fmt<W: fmt::Write>(&self, f: &mut fmt::Formatter<W>) -> fmt::Result {
        match self {
            RegisterError::BadName => write!(f, "no name of a command"),
            RegisterError::Taken => write!(f, "the name is taken"),
            RegisterError::BadPolicy => write!(f, "not a policy of a split command"),
            RegisterError::Memory => write!(f, "out of memory"),
        }
    }
}

impl Error for RegisterError {}

/// Names of multi-key commands that the tables don't have, as those of a module. Commands of these
/// names are routed, split and driven as the nine are.
///
/// ```
/// let counts = ResponsePolicy::Aggregate(AggregateOp::Sum);
/// registry.register(alloc, b"JSON.MDEL", MultiSlotArgPattern::KeysOnly, counts)?;
/// let pairs = MultiSlotArgPattern::KeyValuePairs;
/// registry.register(alloc, b"OBJECT PUT", pairs, ResponsePolicy::AllSucceeded)?;
/// ```
#[derive(Drop)]
pub struct Registry {
    rows: BTreeMap<Vec<u8>, (MultiSlotArgPattern, ResponsePolicy)>,
}

impl Model for Registry {
    ghost use Rattle.std.specs.Prelude.{◌≡◌, true, map};
    ghost use Rattle.std.specs.List.{list_all};
    ghost use Rattle.redis_routing.specs.Registry.{Registrations, is_registrable};

    ghost Value = { Registrations };

    ghost view = { λ registry. map (λ row. (row.0.items, row.1)) registry.rows.entries };

    ghost invariant = { λ registry.
        list_all (λ row. is_registrable row.0.items row.1.1) registry.rows.entries ≡ true };
}

impl Registry {
    /// A registry of no name. Takes no memory.
    pub fn new(alloc: Global) -> Self
        ensures empty { result ≡ [] }
        // Under an empty registry names are routed by the tables alone.
        ensures tables { tables_with result ≡ default_tables }
    {
        Registry {
            rows: BTreeMap::new(alloc),
        }
    }

    /// How many names are registered.
    pub fn len(&self) -> usize
        ensures { result ≡ length self.now }
    {
        self.rows.len()
    }

    /// Registers the name in ASCII upper case, with how the arguments of its commands make tuples
    /// and how the replies to their parts make one.
    ///
    /// A name is one word, or two with a space between them, if the first word is one that a
    /// second belongs to, as that of `OBJECT ENCODING` is.
    ///
    /// # Errors
    ///
    /// By the first cause that holds, the registry then stays as it was: `BadName`, `Taken` or
    /// `BadPolicy`. `Memory`, if memory runs out, may come in the place of any.
    pub fn register(
        &mut self,
        alloc: Global,
        name: &[u8],
        pattern: MultiSlotArgPattern,
        policy: ResponsePolicy,
    ) -> Result<(), RegisterError>
        ensures refused { IfErr result (λ error.
            (register_error self.old (upper name.now) policy ≡ Some error) ⊎ (error ≡ refused.Memory)) }
        ensures accepted { OnOk result (register_error self.old (upper name.now) policy ≡ None) }
        ensures registered { OnOk result ((q : List ℕ) → lookup_name self.new q
            ≡ cond (bytes_eq (upper name.now) q) (Some (pattern, policy)) (lookup_name self.old q)) }
        ensures one_more { OnOk result (length self.new ≡ length self.old + 1) }
        ensures unchanged { OnErr result (self.new ≡ self.old) }
    {
        let name = to_upper_case(alloc, name)?;
        if is_bad_name(&name) {
            return Err(RegisterError::BadName);
        }
        if base_routing(&name).is_some() || self.get(&name).is_some() {
            return Err(RegisterError::Taken);
        }
        if is_bad_policy(policy) {
            return Err(RegisterError::BadPolicy);
        }
        self.rows.insert(name, (pattern, policy))?;
        Ok(())
    }

    /// What the name is registered with, given in upper case as `Routable::command` gives it.
    /// O(log n).
    pub fn get(&self, name: &[u8]) -> Option<(MultiSlotArgPattern, ResponsePolicy)>
        ensures found { result ≡ lookup_name self.now name.now }
        // Whoever finds a name knows that it could be registered.
        ensures registrable { IfSome result (λ row. is_registrable name.now row.1 ≡ true) }
    {
        self.rows.get(name).copied()
    }

    /// How commands of this name make tuples and how the replies to their parts make one, if they
    /// are split by slot.
    pub fn pattern_and_policy(&self, name: &[u8]) -> Option<(MultiSlotArgPattern, ResponsePolicy)>
        ensures found { result ≡ split_of self.now name.now }
        ensures pattern { option_map (λ found. found.0) result
            ≡ pattern_of ((tables_with self.now).route_by name.now) }
        ensures policy { IfSome result (λ found. Some found.1
            ≡ (tables_with self.now).policy name.now) }
        ensures joins { IfSome result (λ found. joins_parts found.1 ≡ true) }
    {
        let (route_by, policy) = self.routing_and_policy(name);
        let Some(route_by) = route_by else {
            return None;
        };
        let RouteBy::MultiSlot(pattern) = route_by else {
            return None;
        };
        let Some(policy) = policy else { unreachable!() };
        Some((pattern, policy))
    }

    /// How commands of a name are routed, and how the replies to them make one: by the tables, or
    /// where they don't have the name, as it is registered.
    pub fn routing_and_policy(&self, name: &[u8]) -> (Option<RouteBy>, Option<ResponsePolicy>)
        ensures routing { result.0 ≡ (tables_with self.now).route_by name.now }
        ensures policy { result.1 ≡ (tables_with self.now).policy name.now }
        // The nine rows agree with the tables of all names.
        ensures split { TellsSplit (split_of self.now name.now) result.0 result.1 }
    {
        // The invariant: no name of the tables is registered.
        let _rows = &self.rows;
        let (routing, policy) = routing_and_policy(name);
        if routing.is_some() {
            return (routing, policy);
        }
        match self.get(name) {
            Some((pattern, policy)) => (Some(RouteBy::MultiSlot(pattern)), Some(policy)),
            None => (None, None),
        }
    }
}

impl Clone for Registry {
    ghost is_clone = { λ registry copy. copy ≡ registry };

    fn clone(&self) -> Result<Self, AllocError> {
        Ok(Registry {
            rows: self.rows.clone()?,
        })
    }
}

impl PartialEq for Registry {
    ghost eq = { same_registrations };

    ghost laws = { Prim.search (comparing, rules) depth 9 };

    fn eq(&self, other: &Self) -> bool
        ensures value { result ≡ same_registrations self.now other.now }
        ensures same { IsTrue result ↔ (self.now ≡ other.now) }
        // They are equal exactly where each name is registered in both alike, or in neither.
        ensures lookup { IsTrue result
            ↔ ((name : List ℕ) → lookup_name self.now name ≡ lookup_name other.now name) }
    {
        self.rows.len() == other.rows.len() && self.rows == other.rows
    }
}

impl Eq for Registry {
    ghost laws = { Prim.search (comparing, rules) depth 9 };
}

/// Whether a name in upper case can't be registered.
fn is_bad_name(name: &[u8]) -> bool
    ensures { result ≡ is_bad_name name.now }
{
    match cut_at_space(name) {
        Some((first, second)) => !are_words(first, second),
        None => lacks_word(name),
    }
}

/// Whether a first and a second word make a name.
fn are_words(first: &[u8], second: &[u8]) -> bool
    ensures { result ≡ (takes_second first.now && is_one_word second.now) }
{
    takes_second(first) && is_one_word(second)
}

/// Whether a text is a word: it is not empty and has no space.
fn is_one_word(text: &[u8]) -> bool
    ensures { result ≡ is_one_word text.now }
{
    !text.is_empty() && !text.contains(&b' ')
}

/// Whether a word is missing in a name without a space.
fn lacks_word(name: &[u8]) -> bool
    ensures { result ≡ (is_empty name.now || takes_second name.now) }
{
    name.is_empty() || takes_second(name)
}

/// The parts before and after the first space.
fn cut_at_space(name: &[u8]) -> Option<(&[u8], &[u8])>
    ensures { MatchOption result (¬ (Contains name.now 32))
        (λ parts. (name.now ≡ parts.0.now ++ 32 ∷ parts.1.now) × ¬ (Contains parts.0.now 32)) }
{
    let at = name.iter().position(|byte| *byte == b' ')?;
    Some((&name[..at], &name[at + 1..]))
}

/// Whether the replies to the parts of a command can't make one by this policy.
fn is_bad_policy(policy: ResponsePolicy) -> bool
    ensures { result ≡ is_bad_policy policy }
{
    !matches!(
        policy,
        ResponsePolicy::AllSucceeded
            | ResponsePolicy::Aggregate(AggregateOp::Sum)
            | ResponsePolicy::CombineArrays
    )
}
