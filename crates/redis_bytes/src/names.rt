ghost use Rattle.std.specs.Prelude.{◌≡◌, ◌≢◌, Ok, true, false, map, option_map, IfOk, IfErr};
ghost use Rattle.redis_routing.specs.Lookup.{lookup_name};
ghost use Rattle.redis_routing.specs.Registry.{Registrations};
ghost use Rattle.redis_bytes.specs.NameLines.{AreNamesIn, HasNoNames, Registers, fields_of, filled_lines, pattern_words, policy_words, name_of_words};

use crate::fault::BytesFault;
use cluster_slots::{AggregateOp, MultiSlotArgPattern};
use redis_routing::{RegisterError, Registry, ResponsePolicy};
use std::alloc::{AllocError, Global};

/// The names that the lines of a text register. The line `multi keys sum COUNTKEYS` registers
/// `COUNTKEYS`, whose arguments are keys and whose reply is a sum.
///
/// A line has the fields `multi PATTERN POLICY NAME`, with spaces between them, and ends with `\n` or
/// `\r\n`. PATTERN is `keys`, `pairs`, `last` or `triples`, and POLICY is `ok`, `sum` or `list`. A
/// name of two words takes two fields. Empty lines register nothing, and are not counted.
///
/// # Errors
///
/// `BadName` for the first line that registers no name, as one that the tables have, or an earlier
/// line. `Memory` if memory runs out.
pub fn registry_in(alloc: Global, text: &[u8]) -> Result<Registry, BytesFault>
    // Each line registers its name.
    ensures names { IfOk result (λ registry. AreNamesIn text.now registry) }
    // Each fault has its cause.
    ensures fault { IfErr result (λ fault. HasNoNames text.now fault) }
{
    let mut registry = Registry::new(alloc);
    let lines = lines_in(alloc, text)?;
    for (number, line) in lines.iter().enumerate() {
        let fields = fields_in(alloc, line)?;
        if !register_line(alloc, &fields, &mut registry)? {
            return Err(BytesFault::BadName(number));
        }
    }
    Ok(registry)
}

/// The fields of a line: what stands between its spaces, except empty runs.
///
/// # Errors
///
/// If memory runs out.
pub fn fields_in(alloc: Global, line: &[u8]) -> Result<Vec<&[u8]>, AllocError>
    ensures { IfOk result (λ fields. map (λ field. field.now) fields.items ≡ fields_of line.now) }
{
    line.split(|byte| *byte == b' ')
        .filter(|field| !field.is_empty())
        .collect(alloc)
}

/// The lines of a text that are not empty.
fn lines_in(alloc: Global, text: &[u8]) -> Result<Vec<&[u8]>, AllocError>
    ensures { IfOk result (λ lines. map (λ line. line.now) lines.items ≡ filled_lines text.now) }
{
    text.split(|byte| *byte == b'\n' || *byte == b'\r')
        .filter(|line| !line.is_empty())
        .collect(alloc)
}

/// Registers the name of a line with these fields, and returns whether it could. The fields of
/// `multi keys sum COUNTKEYS` register `COUNTKEYS`.
///
/// # Errors
///
/// If memory runs out.
pub fn register_line(
    alloc: Global,
    fields: &[&[u8]],
    registry: &mut Registry,
) -> Result<bool, AllocError>
    ensures good { IfOk result (λ good. good ≡ true
        → Registers (map (λ field. field.now) fields.now) registry.old registry.new) }
    ensures bad { IfOk result (λ good. good ≡ false → (next : Registrations)
        → ¬ (Registers (map (λ field. field.now) fields.now) registry.old next)) }
    ensures kept { result ≢ Ok true → registry.new ≡ registry.old }
{
    let [first, pattern, policy, words @ ..] = fields else {
        return Ok(false);
    };
    if *first != b"multi".as_slice() {
        return Ok(false);
    }
    let (Some(pattern), Some(policy)) = (pattern_by(pattern), policy_by(policy)) else {
        return Ok(false);
    };
    let Some(name) = name_of(alloc, words)? else {
        return Ok(false);
    };
    match registry.register(alloc, &name, pattern, policy) {
        Ok(()) => Ok(true),
        Err(RegisterError::Memory) => Err(AllocError),
        Err(_) => Ok(false),
    }
}

/// How arguments make tuples, by the word for it.
fn pattern_by(word: &[u8]) -> Option<MultiSlotArgPattern>
    ensures { result ≡ lookup_name pattern_words word.now }
{
    match word {
        b"keys" => Some(MultiSlotArgPattern::KeysOnly),
        b"pairs" => Some(MultiSlotArgPattern::KeyValuePairs),
        b"last" => Some(MultiSlotArgPattern::KeysAndLastArg),
        b"triples" => Some(MultiSlotArgPattern::KeyWithTwoArgTriples),
        _ => None,
    }
}

/// How replies make one, by the word for it.
fn policy_by(word: &[u8]) -> Option<ResponsePolicy>
    ensures { result ≡ lookup_name policy_words word.now }
{
    match word {
        b"ok" => Some(ResponsePolicy::AllSucceeded),
        b"sum" => Some(ResponsePolicy::Aggregate(AggregateOp::Sum)),
        b"list" => Some(ResponsePolicy::CombineArrays),
        _ => None,
    }
}

/// The name of one word, or of two.
fn name_of(alloc: Global, words: &[&[u8]]) -> Result<Option<Vec<u8>>, AllocError>
    ensures { IfOk result (λ name. option_map (λ n. n.items) name
        ≡ name_of_words (map (λ word. word.now) words.now)) }
{
    match words {
        [word] => Ok(Some(word.to_vec(alloc)?)),
        [first, second] => {
            let mut name = Vec::with_capacity(alloc, first.len() + 1 + second.len())?;
            name.extend_from_slice(first)?;
            name.push(b' ')?;
            name.extend_from_slice(second)?;
            Ok(Some(name))
        }
        _ => Ok(None),
    }
}
