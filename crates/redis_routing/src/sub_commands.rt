ghost use Rattle.std.specs.Prelude.{◌≡◌, ◌⊎◌, ◌<◌, ◌+◌, Some, None, IfOk, IfErr, IsTrue, ◌-◌, map, option_copied};
ghost use Rattle.std.specs.List.{range_with_len};
ghost use Rattle.resp_core.specs.ErrorParts.{out_of_memory};
ghost use Rattle.resp_core.specs.declared.error.ErrorKind.TheVariants.{Client};
ghost use Rattle.cluster_slots.specs.Lists.{all_some};
ghost use Rattle.redis_routing.specs.Command.{argument};
ghost use Rattle.redis_routing.specs.SubCommand.{bytes_in, saturated, sub_command, sub_command_after, text_len};

use crate::routable::Routable;
use resp_core::{Cmd, ErrorKind, RedisError, RedisResult};
use std::alloc::{AllocError, Global};

/// The part of a command that has these arguments: its first word as it is spelt, and then the
/// arguments at these indices, which are counted from 0 after that word.
///
/// # Errors
///
/// Of kind `Client` where the first word or one of the arguments is a gap or not there, and else
/// if memory runs out.
pub fn command_for_multi_slot_indices<R: Routable>(
    alloc: Global,
    original: &R,
    indices: &[usize],
) -> RedisResult<Cmd>
    ensures made { IfOk result (λ cmd. sub_command (R.args original.now) indices.now ≡ Some cmd) }
    ensures refused { IfErr result (λ fault. ((sub_command (R.args original.now) indices.now ≡ None)
        × (fault.kind ≡ Client))
        ⊎ (fault ≡ out_of_memory)) }
{
    command_for_multi_slot_indices_with(alloc, original, 1, indices)
}

/// The part of a command whose name has this many words, as `name_words` counts them. It has these
/// words as they are spelt, and then the arguments at these indices, which are counted from 0 after
/// the words. `command_for_multi_slot_indices` is this call for names of one word.
///
/// # Errors
///
/// Of kind `Client` where one of the words or of the arguments is a gap or not there, and else if
/// memory runs out.
pub fn command_for_multi_slot_indices_with<R: Routable>(
    alloc: Global,
    original: &R,
    words: usize,
    indices: &[usize],
) -> RedisResult<Cmd>
    ensures made { IfOk result (λ cmd.
        sub_command_after words (R.args original.now) indices.now ≡ Some cmd) }
    ensures refused { IfErr result (λ fault.
        ((sub_command_after words (R.args original.now) indices.now ≡ None)
        × (fault.kind ≡ Client))
        ⊎ (fault ≡ out_of_memory)) }
{
    // No more words are gone over than the command has arguments.
    if lacks_last_word(original, words) {
        return Err(missing_argument());
    }
    sub_command(alloc, original, words, indices)?.ok_or_else(missing_argument)
}

/// Whether the last of this many words is a gap or not there.
fn lacks_last_word<R: Routable>(original: &R, words: usize) -> bool
    ensures { IsTrue result
        → (0 < words) × (argument (R.args original.now) (words - 1) ≡ None) }
{
    words > 0 && original.arg_idx(words - 1).is_none()
}

/// The part of a command that has these arguments after a name of this many words, if none of them
/// is a gap or not there.
pub(super) fn sub_command<R: Routable>(
    alloc: Global,
    original: &R,
    words: usize,
    indices: &[usize],
) -> Result<Option<Cmd>, AllocError>
    ensures { IfOk result (λ cmd. cmd ≡ sub_command_after words (R.args original.now) indices.now) }
{
    let items = indices.len().saturating_add(words);
    let bytes = name_len(original, words).saturating_add(args_len(original, words, indices));
    let Some(mut command) = name_of(alloc, original, words, items, bytes)? else {
        return Ok(None);
    };
    for index in indices {
        let Some(arg) = behind_name(original, words, *index) else {
            return Ok(None);
        };
        command.write_arg(arg)?;
    }
    Ok(Some(command))
}

/// How many bytes the words of the name have together, as far as they are there.
fn name_len<R: Routable>(original: &R, words: usize) -> usize
    ensures { result ≡ saturated (bytes_in (map (λ place. argument (R.args original.now) place)
        (range_with_len 0 words))) }
{
    let mut len: usize = 0;
    for place in 0..words {
        len = len.saturating_add(arg_len(original.arg_idx(place)));
    }
    len
}

/// How many bytes these arguments have together, as far as they are there.
fn args_len<R: Routable>(original: &R, words: usize, indices: &[usize]) -> usize
    ensures { result ≡ saturated (bytes_in (map (λ place. argument (R.args original.now)
        (place + words)) indices.now)) }
{
    let mut len: usize = 0;
    for index in indices {
        len = len.saturating_add(arg_len(behind_name(original, words, *index)));
    }
    len
}

/// The bytes of an argument, 0 if it is a gap or missing.
fn arg_len(arg: Option<&[u8]>) -> usize
    ensures { result ≡ text_len (option_copied arg.entry) }
{
    arg.map_or(0, |text| text.len())
}

/// The words of the name as a command with room for this many items and bytes, if none of them is a
/// gap or not there.
fn name_of<R: Routable>(
    alloc: Global,
    original: &R,
    words: usize,
    items: usize,
    bytes: usize,
) -> Result<Option<Cmd>, AllocError>
    ensures { IfOk result (λ cmd. cmd
        ≡ all_some (map (λ place. argument (R.args original.now) place) (range_with_len 0 words))) }
{
    let mut command = Cmd::with_room(alloc, items, bytes)?;
    for place in 0..words {
        let Some(word) = original.arg_idx(place) else {
            return Ok(None);
        };
        command.write_arg(word)?;
    }
    Ok(Some(command))
}

/// The argument at an index after a name of this many words. If the sum does not fit, it is past
/// the last argument of any command.
fn behind_name<R: Routable>(original: &R, words: usize, index: usize) -> Option<&[u8]>
    ensures { option_copied result ≡ argument (R.args original.now) (index + words) }
{
    original.arg_idx(index.saturating_add(words))
}

/// The error of a name or an index without an argument.
fn missing_argument() -> RedisError
    ensures { result.kind ≡ Client }
{
    RedisError::from((ErrorKind::Client, "an argument of the command is missing"))
}
