ghost use Rattle.std.specs.Prelude.{◌≡◌, ◌≤◌, ◌+◌, ◌++◌, ◌∷◌, Some, IfSome, length, take, drop};
ghost use Rattle.redis_routing.specs.Command.{command_name};
ghost use Rattle.redis_routing.specs.NameWords.{name_words_of};
ghost use Rattle.redis_routing.specs.TwoWords.{takes_second};
ghost use Rattle.redis_routing.specs.Upper.{upper};

use super::routable::{Routable, takes_second};

/// How many bytes the longest first word has that a second one belongs to.
const LONGEST_FIRST_WORD: usize = 8;

/// For how many bytes of a name there is room on the stack. No name of the tables is longer.
pub(super) const ROOM: usize = 32;

/// How many arguments the name of a command takes: 2 for `OBJECT ENCODING key`, and else 1. A name
/// of two words that is given as one argument, with the space, has one. Takes no memory.
pub fn name_words<R: Routable>(command: &R) -> usize
    ensures { result ≡ name_words_of (R.args command.now) }
{
    match (command.arg_idx(0), command.arg_idx(1)) {
        (Some(first), Some(_)) if takes_second_in_any_case(first) => 2,
        _ => 1,
    }
}

/// Whether a second word belongs to a name with this first word as it is spelt.
fn takes_second_in_any_case(first: &[u8]) -> bool
    ensures { result ≡ takes_second (upper first.now) }
{
    if first.len() > LONGEST_FIRST_WORD {
        return false;
    }
    let mut room = [0; LONGEST_FIRST_WORD];
    put_upper_case(&mut room, 0, first);
    takes_second(&room[..first.len()])
}

/// Writes the name of a command, as `Routable::command` answers it, at the front of the room, and
/// tells how many bytes it has. `None` if there is no name or too little room. Takes no memory.
#[inline]
pub(super) fn short_name<R: Routable>(command: &R, room: &mut [u8]) -> Option<usize>
    ensures within { IfSome result (λ len. len ≤ length room.new) }
    ensures name { IfSome result (λ len. Some (take len room.new)
        ≡ command_name (R.args command.now)) }
{
    let first = command.arg_idx(0)?;
    let len = first.len();
    if len > room.len() {
        return None;
    }
    put_upper_case(room, 0, first);
    if !takes_second(&room[..len]) {
        return Some(len);
    }
    match command.arg_idx(1) {
        Some(second) => put_second(room, len, second),
        None => Some(len),
    }
}

/// Writes a text in ASCII upper case at a place of the room.
fn put_upper_case(room: &mut [u8], at: usize, text: &[u8])
    requires { at + length text.now ≤ length room.old }
    ensures { room.new
        ≡ take at room.old ++ upper text.now ++ drop (at + length text.now) room.old }
{
    let word = &mut room[at..at + text.len()];
    word.copy_from_slice(text);
    word.make_ascii_uppercase();
}

/// Writes a space and the word in ASCII upper case after this many bytes. Returns how many there
/// are then, if there is room.
fn put_second(room: &mut [u8], len: usize, word: &[u8]) -> Option<usize>
    requires { len ≤ length room.old }
    ensures within { IfSome result (λ end. end ≤ length room.new) }
    ensures name { IfSome result (λ end. take end room.new
        ≡ take len room.old ++ 32 ∷ upper word.now) }
{
    if word.len() >= room.len() - len {
        return None;
    }
    room[len] = b' ';
    put_upper_case(room, len + 1, word);
    Some(len + 1 + word.len())
}
