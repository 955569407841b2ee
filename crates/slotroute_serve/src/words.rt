ghost use Rattle.std.specs.Prelude.{◌≡◌, ◌++◌, ◌∷◌, map, IfOk, OnOk};
ghost use Rattle.redis_bytes.specs.NameLines.{space};

use resp_core::Cmd;
use std::alloc::{AllocError, Global};
use std::convert::AsSlice;

/// The command with these words.
pub fn cmd_from_words<W: AsSlice<u8>>(alloc: Global, words: &[W]) -> Result<Cmd, AllocError>
    ensures { IfOk result (λ command. command ≡ map W.items words.now) }
{
    let mut command = Cmd::with_capacity(alloc, words.len())?;
    for word in words {
        command.write_arg(word.as_slice())?;
    }
    Ok(command)
}

/// Adds a word, after a space.
pub fn push_word(text: &mut Vec<u8>, word: &[u8]) -> Result<(), AllocError>
    ensures { OnOk result (text.new.items ≡ text.old.items ++ space ∷ word.now) }
{
    text.push(b' ')?;
    text.extend_from_slice(word)?;
    Ok(())
}
