ghost use Rattle.std.specs.Prelude.{◌≡◌, ◌++◌, ◌∷◌, IfOk, OnOk};
ghost use Rattle.redis_routing.specs.Upper.{upper};

use std::alloc::{AllocError, Global};

/// A copy of the text in ASCII upper case.
pub(super) fn to_upper_case(alloc: Global, text: &[u8]) -> Result<Vec<u8>, AllocError>
    ensures { IfOk result (λ word. word.items ≡ upper text.now) }
{
    // `to_vec` writes four bytes at a time, and the wide reads that follow would wait for that.
    let mut word = Vec::with_capacity(alloc, text.len())?;
    word.extend_from_slice(text)?;
    word.make_ascii_uppercase();
    Ok(word)
}

/// Puts a space and the word in ASCII upper case after the name.
pub(super) fn join_upper_case(name: &mut Vec<u8>, word: &[u8]) -> Result<(), AllocError>
    ensures { OnOk result (name.new.items ≡ name.old.items ++ 32 ∷ upper word.now) }
{
    name.reserve(word.len() + 1)?;
    name.push(b' ')?;
    let start = name.len();
    name.extend_from_slice(word)?;
    name[start..].make_ascii_uppercase();
    Ok(())
}
