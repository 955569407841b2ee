ghost use Rattle.std.specs.Prelude.{◌≡◌, ◌++◌, ◌≤◌, length, take};
ghost use Rattle.std.specs.List.{AllByRecursion};
ghost use Rattle.resp.specs.Forms.{IsInLine};
ghost use Rattle.resp.specs.Reading.{IsRead, text_until_line_end, after_text};
ghost use Rattle.resp.specs.Messages.{kind_of, IsSearched, IsKnown, leading_zeros, length_from, announced_at, head_of};

use crate::fault::Fault;
use crate::fields::{bulk_of, end_of, length_at, line_of};
use crate::numbers::length_of;

/// What a mark begins.
#[derive(Clone, Copy)]
pub(super) enum Kind {
    /// A line, as a number or a status.
    Simple,
    /// A line with a length, and so many bytes.
    Bulk,
    /// An array, a set or a push.
    Array,
    Map,
    /// Pairs that belong to the reply after them.
    Attribute,
}

/// The kind of a reply that begins with this byte.
#[tactic(auto, unfolding(crate::specs::Messages::kind_of))]
fn kind_of(mark: u8) -> Option<Kind>
    ensures { result ≡ kind_of mark }
{
    match mark {
        b'+' | b'-' | b':' | b',' | b'#' | b'_' | b'(' => Some(Kind::Simple),
        b'$' | b'!' | b'=' => Some(Kind::Bulk),
        b'*' | b'~' | b'>' => Some(Kind::Array),
        b'%' => Some(Kind::Map),
        b'|' => Some(Kind::Attribute),
        _ => None,
    }
}

/// The line that begins here, and what follows its text. No line ends in the first `searched`
/// bytes.
pub(super) fn line_from(bytes: &[u8], searched: usize) -> (&[u8], &[u8])
    requires { searched ≤ length bytes.now }
    ensures whole { bytes.now ≡ result.0.now ++ result.1.now }
    ensures long { searched ≤ length result.0.now }
    ensures line { AllByRecursion IsInLine (take searched bytes.now)
        → (result.0.now ≡ text_until_line_end bytes.now) × (result.1.now ≡ after_text bytes.now) }
{
    let (_, more) = bytes.split_at(searched);
    let (text, _) = line_of(more);
    bytes.split_at(searched + text.len())
}

/// How many bytes of a line need not be searched again: all bytes, or of a length its mark and the
/// leading zeros.
pub(super) fn searched_of(line: &[u8], searched: usize) -> usize
    requires { searched ≤ length line.now }
    ensures within { result ≤ length line.now }
    ensures zeros { IsSearched (take searched line.now) → IsSearched (take result line.now) }
    ensures known { IsSearched (take searched line.now) → IsKnown line.now result }
{
    let [mark, text @ ..] = line else {
        return 0;
    };
    match kind_of(*mark) {
        Some(Kind::Simple) => line.len(),
        _ => 1 + zeros_of(text, searched.saturating_sub(1)),
    }
}

/// How many zeros lead a text, `zeros` of which are known.
fn zeros_of(text: &[u8], zeros: usize) -> usize
    requires { zeros ≤ length text.now }
    ensures within { result ≤ length text.now }
    ensures zeros { AllByRecursion (λ b. b ≡ 48) (take zeros text.now)
        → AllByRecursion (λ b. b ≡ 48) (take result text.now) }
    ensures all { AllByRecursion (λ b. b ≡ 48) (take zeros text.now)
        → result ≡ leading_zeros text.now }
{
    let (_, more) = text.split_at(zeros);
    for (index, b) in more.iter().enumerate() {
        if *b != b'0' {
            return zeros + index;
        }
    }
    text.len()
}

/// The head by its line, from its mark on, and what follows the line's text: how many items it
/// announces, and what follows the head. So many bytes of the line were searched.
#[tactic(auto, unfolding(crate::specs::Messages::head_of))]
pub(super) fn head_of<'a>(
    searched: usize,
    line: &[u8],
    after: &'a [u8],
) -> Result<(u64, &'a [u8]), Fault>
    requires { searched ≤ length line.now }
    ensures { IsRead (λ x. (x.0, x.1.now)) result (head_of searched line.now after.now) }
{
    let [mark, text @ ..] = line else {
        return Err(if after.is_empty() {
            Fault::Incomplete
        } else {
            Fault::Malformed
        });
    };
    match kind_of(*mark) {
        Some(kind) => announced_at(searched.saturating_sub(1), kind, text, after),
        None => Err(Fault::Malformed),
    }
}

/// The length in a line whose text is known to begin with `zeros` zeros. `None` for -1.
#[tactic(auto, unfolding(crate::specs::Messages::length_from))]
fn length_from<'a>(
    zeros: usize,
    text: &[u8],
    after: &'a [u8],
) -> Result<(Option<u64>, &'a [u8]), Fault>
    requires { zeros ≤ length text.now }
    ensures { IsRead (λ x. (x.0, x.1.now)) result (length_from zeros text.now after.now) }
{
    if zeros == 0 {
        return length_at(text, after);
    }
    let (_, digits) = text.split_at(zeros);
    let length = if digits.is_empty() {
        Some(0)
    } else {
        length_of(digits)
    };
    let Some(length) = length else {
        return Err(Fault::Malformed);
    };
    let rest = end_of(after)?;
    Ok((Some(length), rest))
}

/// The head of a kind, by the text of its line, which is known to begin with `zeros` zeros, and
/// what follows the text.
#[tactic(auto, unfolding(crate::specs::Messages::announced_at, crate::specs::Reading::bytes_at))]
fn announced_at<'a>(
    zeros: usize,
    kind: Kind,
    text: &[u8],
    after: &'a [u8],
) -> Result<(u64, &'a [u8]), Fault>
    requires { zeros ≤ length text.now }
    ensures { IsRead (λ x. (x.0, x.1.now)) result (announced_at zeros kind text.now after.now) }
{
    match kind {
        Kind::Simple => Ok((0, end_of(after)?)),
        Kind::Bulk => {
            let (length, rest) = length_from(zeros, text, after)?;
            let Some(length) = length else {
                return Ok((0, rest));
            };
            let (_, rest) = bulk_of(length, rest)?;
            Ok((0, rest))
        }
        Kind::Array => {
            let (count, rest) = length_from(zeros, text, after)?;
            Ok((count.unwrap_or(0), rest))
        }
        Kind::Map => {
            let (pairs, rest) = length_from(zeros, text, after)?;
            Ok((2 * pairs.unwrap_or(0), rest))
        }
        Kind::Attribute => {
            let (pairs, rest) = length_from(zeros, text, after)?;
            Ok((2 * pairs.unwrap_or(0) + 1, rest))
        }
    }
}
