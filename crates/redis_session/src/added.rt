ghost use Rattle.std.specs.Prelude.{◌≡◌, ℕ, List, [], Some, IfOk, OnOk, OnErr, if◌then◌else◌};
ghost use Rattle.std.specs.Str.{bytes_eq};
ghost use Rattle.redis_routing.specs.Lookup.{lookup_name};
ghost use Rattle.redis_routing.specs.Upper.{upper};
ghost use Rattle.redis_session.specs.Added.{kind_added};

use crate::kind::CommandKind;
use std::alloc::{AllocError, Global};
use std::collections::BTreeMap;
use std::marker::Model;

/// Names that shared links take besides those of the table, such as those of a module. Only commands
/// may be added that have exactly one reply, leave the connection as it was, and do not wait.
#[derive(Drop)]
pub struct AddedNames {
    rows: BTreeMap<Vec<u8>, CommandKind>,
}

impl Model for AddedNames {
    ghost use Rattle.std.specs.Prelude.{map};
    ghost use Rattle.redis_session.specs.Added.{Added};

    ghost Value = { Added };

    ghost view = { λ added. map (λ row. (row.0.items, row.1)) added.rows.entries };
}

impl AddedNames {
    /// No name is added. Takes no memory.
    pub fn new(alloc: Global) -> AddedNames
        ensures { result ≡ [] }
    {
        AddedNames {
            rows: BTreeMap::new(alloc),
        }
    }

    /// Adds a name in any ASCII case. It is `Plain` if nodes refuse its commands before they run them,
    /// and else `Script`. Names of the table stay as the table has them. If the name was added before,
    /// the later call counts. O(log n).
    ///
    /// # Errors
    ///
    /// If memory runs out. Nothing changes then.
    pub fn add(
        &mut self,
        alloc: Global,
        name: &[u8],
        is_refused_before: bool,
    ) -> Result<(), AllocError>
        ensures added { OnOk result ((q : List ℕ) → lookup_name self.new q
            ≡ (if bytes_eq (upper name.now) q then Some (kind_added is_refused_before) else lookup_name self.old q)) }
        ensures unchanged { OnErr result (self.new ≡ self.old) }
    {
        let name = to_upper_case(alloc, name)?;
        self.rows.insert(name, kind_added(is_refused_before))?;
        Ok(())
    }

    /// The kind of a name in upper case, if it was added. O(log n).
    pub fn get(&self, name: &[u8]) -> Option<CommandKind>
        ensures { result ≡ lookup_name self.now name.now }
    {
        self.rows.get(name).copied()
    }
}

/// A copy of the text in ASCII upper case.
fn to_upper_case(alloc: Global, text: &[u8]) -> Result<Vec<u8>, AllocError>
    ensures { IfOk result (λ word. word.items ≡ upper text.now) }
{
    let mut word = Vec::with_capacity(alloc, text.len())?;
    word.extend_from_slice(text)?;
    word.make_ascii_uppercase();
    Ok(word)
}

/// The kind of a name that is added.
fn kind_added(is_refused_before: bool) -> CommandKind
    ensures { result ≡ kind_added is_refused_before }
{
    if is_refused_before {
        CommandKind::Plain
    } else {
        CommandKind::Script
    }
}
