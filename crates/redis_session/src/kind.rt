ghost use Rattle.std.specs.Prelude.{◌≡◌, true, map, IfOk, Some, option_and_then};
ghost use Rattle.redis_routing.specs.Lookup.{ascends, has_name, lookup_name};
ghost use Rattle.redis_routing.specs.Upper.{upper};
ghost use Rattle.redis_session.specs.CommandKinds.{kind_by_first_word, kind_by_shell, kind_of_command};
ghost use Rattle.redis_session.specs.SharedNames.{kind_of_name, other_names, plain_names};

use crate::added::AddedNames;
use crate::plain_names::{
    NAMES_A_TO_G, NAMES_H_TO_I, NAMES_J_TO_L, NAMES_M_TO_R, NAMES_S_TO_U, NAMES_X_TO_Z,
};
use crate::plain_places::PLAIN_PLACES;
use redis_routing::{Registry, Routable, contains, look_up};
use std::alloc::{AllocError, Global};

/// What a session has to know of a command that shared links take.
#[derive(Clone, Copy, Debug, PartialEq, Eq)]
pub enum CommandKind {
    /// Nodes refuse it before they run it: `GET`, `FLUSHALL`.
    Plain,
    /// It runs code of a client, which can make up any error: `EVAL`, `FCALL`. So no error of it says that it did
    /// not run.
    Script,
    /// As `Plain`, and nobody can see when it ran: `PING`, `ECHO`, `TIME`.
    Free,
    /// As `Plain`, but with the word `BLOCK` it waits: `XREAD`, `XREADGROUP`.
    Stream,
}

/// The names of other kinds than `Plain`.
const OTHER_NAMES: [(&[u8], CommandKind); 13] = [
    (b"EVAL", CommandKind::Script),
    (b"EVALSHA", CommandKind::Script),
    (b"EVALSHA_RO", CommandKind::Script),
    (b"EVAL_RO", CommandKind::Script),
    (b"FCALL", CommandKind::Script),
    (b"FCALL_RO", CommandKind::Script),
    (b"TFCALL", CommandKind::Script),
    (b"TFCALLASYNC", CommandKind::Script),
    (b"ECHO", CommandKind::Free),
    (b"PING", CommandKind::Free),
    (b"TIME", CommandKind::Free),
    (b"XREAD", CommandKind::Stream),
    (b"XREADGROUP", CommandKind::Stream),
];

/// How many bytes the longest name has that shared links take.
const LONGEST_NAME: usize = 20;

/// The kind of a command if shared links take its name, in any ASCII case: `Plain` of `get key`, and
/// `None` of `SUBSCRIBE channel`.
///
/// The first word may be enough, as of `OBJECT ENCODING key`. Other names are of two words, such as
/// `SCRIPT LOAD`. Names that the table lacks may be added or registered. Registered names are `Script`
/// unless they are added, too. A name of the table takes no memory.
///
/// # Errors
///
/// If memory runs out.
pub fn command_kind<R: Routable>(
    alloc: Global,
    command: &R,
    registry: &Registry,
    added: &AddedNames,
) -> Result<Option<CommandKind>, AllocError>
    ensures { IfOk result (λ kind. kind
        ≡ kind_of_command registry.now added.now (R.args command.now)) }
{
    if let Some(kind) = kind_by_first_word(command) {
        return Ok(Some(kind));
    }
    let Some(name) = command.command(alloc)? else {
        return Ok(None);
    };
    Ok(kind_by_shell(&name, registry, added))
}

/// The kind of a command by its first word alone. Takes no memory.
fn kind_by_first_word<R: Routable>(command: &R) -> Option<CommandKind>
    ensures { result ≡ kind_by_first_word (R.args command.now) }
{
    kind_of_word(command.arg_idx(0)?)
}

/// The kind of a word in any ASCII case. Takes no memory.
fn kind_of_word(word: &[u8]) -> Option<CommandKind>
    ensures { result ≡ kind_of_name (upper word.now) }
{
    if word.len() > LONGEST_NAME {
        return None;
    }
    let mut room = [0; LONGEST_NAME];
    let name = &mut room[..word.len()];
    name.copy_from_slice(word);
    name.make_ascii_uppercase();
    kind_of_name(name)
}

/// The kind of a name in upper case: by the table, or as it is added or registered.
fn kind_by_shell(name: &[u8], registry: &Registry, added: &AddedNames) -> Option<CommandKind>
    ensures { result ≡ kind_by_shell registry.now added.now name.now }
{
    if let Some(kind) = kind_of_name(name) {
        return Some(kind);
    }
    if let Some(kind) = added.get(name) {
        return Some(kind);
    }
    match registry.get(name) {
        Some(_) => Some(CommandKind::Script),
        None => None,
    }
}

/// The kind of a name in upper case, by the table.
fn kind_of_name(name: &[u8]) -> Option<CommandKind>
    ensures { result ≡ kind_of_name name.now }
{
    if is_plain(name) {
        return Some(CommandKind::Plain);
    }
    kind_of_other(name)
}

/// The kind of a name that is not `Plain`.
fn kind_of_other(name: &[u8]) -> Option<CommandKind>
    ensures { result ≡ lookup_name other_names name.now }
{
    look_up(&OTHER_NAMES, name)
}

/// Whether a name in upper case is `Plain`.
fn is_plain(name: &[u8]) -> bool
    ensures { result ≡ has_name plain_names name.now }
{
    if name.is_empty() {
        return false;
    }
    let first = name[0];
    if first < b'H' {
        return is_in(&NAMES_A_TO_G, name);
    }
    if first < b'J' {
        return is_in(&NAMES_H_TO_I, name);
    }
    if first < b'M' {
        return is_in(&NAMES_J_TO_L, name);
    }
    if first < b'S' {
        return is_in(&NAMES_M_TO_R, name);
    }
    if first < b'X' {
        return is_in(&NAMES_S_TO_U, name);
    }
    is_in(&NAMES_X_TO_Z, name)
}

/// Whether the name is one of these ascending names. Most stand at their place.
fn is_in(names: &[&[u8]], name: &[u8]) -> bool
    requires { ascends (map (λ n. n.now) names.now) ≡ true }
    ensures { result ≡ has_name (map (λ n. n.now) names.now) name.now }
{
    is_at(names, place_of(name), name) || contains(names, name)
}

/// Whether the name is the one of this index.
fn is_at(names: &[&[u8]], index: usize, name: &[u8]) -> bool
    ensures { result ≡ true → has_name (map (λ n. n.now) names.now) name.now ≡ true }
{
    index < names.len() && names[index] == name
}

/// The index of a name in its table, if the name is in one and no shorter name has the same number.
fn place_of(name: &[u8]) -> usize {
    let (Some(first), Some(last)) = (name.first(), name.last()) else {
        return 0;
    };
    let ends = usize::from(*first) * 13 + usize::from(*last) * 35;
    let middle = usize::from(name[name.len() / 2]) * 60;
    // No name has more than 20 bytes.
    let number = name.len() % 32 * 61 + ends + middle;
    usize::from(PLAIN_PLACES[number % PLAIN_PLACES.len()])
}
