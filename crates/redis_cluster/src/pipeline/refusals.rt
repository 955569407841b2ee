ghost use Rattle.std.specs.Prelude.{◌≡◌, IfOk, option_map};
ghost use Rattle.std.specs.String.{string_bytes};
ghost use Rattle.redis_cluster.specs.Pipeline.{utf8_text, first_refused, detail_of};
ghost use Rattle.redis_cluster.specs.Refusals.{is_refused};
ghost use Rattle.redis_routing.specs.Upper.{upper};

use super::refused_names::REFUSED_NAMES;
use redis_routing::contains;
use resp_core::Cmd;
use std::alloc::{AllocError, Global};

/// No refused name is longer.
const LONGEST: usize = 32;

/// The first name that is refused, as the command spells it. Takes no memory.
pub(super) fn first_refused(commands: &[Cmd]) -> Option<&str>
    ensures { option_map (λ name. upper name.now) result ≡ first_refused commands.now }
{
    for command in commands {
        let name = match command.arg_idx(0) {
            Some(first) => as_text(first).trim(),
            None => "",
        };
        if refuses(name.as_bytes()) {
            return Some(name);
        }
    }
    None
}

/// Whether a pipeline refuses the name, in any ASCII case. Takes no memory.
fn refuses(name: &[u8]) -> bool
    ensures { result ≡ is_refused (upper name.now) }
{
    if name.len() > LONGEST {
        return false;
    }
    let mut buffer = [0; LONGEST];
    let word = &mut buffer[..name.len()];
    word.copy_from_slice(name);
    word.make_ascii_uppercase();
    contains(&REFUSED_NAMES, word)
}

/// The bytes as text, or no text where they are not UTF-8.
fn as_text(bytes: &[u8]) -> &str
    ensures { result.now ≡ utf8_text bytes.now }
{
    match str::from_utf8(bytes) {
        Ok(text) => text,
        Err(_) => "",
    }
}

/// Which command cannot be executed.
pub(super) fn explain(alloc: Global, name: &str) -> Result<String, AllocError>
    ensures { IfOk result (λ detail. string_bytes detail ≡ detail_of (upper name.now)) }
{
    let name = name.to_ascii_uppercase(alloc)?;
    Ok(format!(in alloc; "Command '{name}' can't be executed in a cluster pipeline.")?)
}
