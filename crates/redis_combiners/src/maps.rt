ghost use Rattle.std.specs.Prelude.{◌≡◌, ◌≤◌, ◌^◌, ◌++◌, ◌∷◌, [], ◌+ℤ◌, ◌⊎◌, ℕ, List, length, map, MatchResult, IfOk, IfErr, OnOk, IfSome, option_map, Some, None, nat_lt, if◌then◌else◌, IsPermutation};
ghost use Rattle.std.specs.Str.{bytes_eq};
ghost use Rattle.std.specs.Ordering.{nat_cmp};
ghost use Rattle.std.specs.Cmp.Lexicographic.{slice_cmp};
ghost use Rattle.std.specs.List.Sorted.{IsSortedByKey};
ghost use Rattle.resp_core.specs.ErrorParts.{out_of_memory};
ghost use Rattle.resp_core.specs.Reply.{Reply};
ghost use Rattle.resp_core.specs.View.{view, view_pair};
ghost use Rattle.resp_core.specs.declared.error.ErrorKind.TheVariants.{UnexpectedReturnType};
ghost use Rattle.cluster_slots.specs.Lists.{all_some};
ghost use Rattle.redis_combiners.specs.Entries.{joined};
ghost use Rattle.redis_combiners.specs.KeyNumbers.{KeyNumber, pairs_among, all_pairs};
ghost use Rattle.redis_combiners.specs.Totals.{totals, total_at, IsListing, reply_pair, combined_map};

use resp_core::{ErrorKind, RedisError, RedisResult, Value};
use std::alloc::{AllocError, Global};
use std::cmp::Ordering;
use std::marker::Model;

/// The most pairs that replies may have: a list has no more items.
const MOST_PAIRS: usize = isize::MAX as usize;

/// A key and the sum of its numbers.
#[derive(Drop)]
struct Total {
    key: Vec<u8>,
    /// Eight bytes of the key, as one number.
    rank: u64,
    sum: i128,
}

impl Model for Total {
    ghost use Rattle.redis_combiners.specs.KeyNumbers.{KeyNumber};

    ghost Value = { KeyNumber };

    ghost view = { λ total. (total.key.items, total.sum) };
}

impl Total {
    fn has_key(&self, key: &[u8]) -> bool
        ensures { result ≡ bytes_eq self.now.0 key.now }
    {
        self.key.as_slice() == key
    }
}

/// Combines replies that are arrays of keys and numbers in turn, as of `PUBSUB NUMSUB`, into one
/// map. The map has each key, by ascending bytes, with the sum of its numbers. No replies make an
/// empty map. The order of the replies does not matter.
///
/// # Errors
///
/// `UnexpectedReturnType` if a reply is not an array of bulk strings and numbers in turn. Also if
/// the sum of a key does not fit in an i64, or if there are more than 2^63-1 pairs. A running sum
/// has 128 bits. `OutOfMemory` if memory runs out.
#[tactic(auto, using(crate::proofs::TotalOrders::any_order))]
pub fn combine_map_results(alloc: Global, values: Vec<Value>) -> RedisResult<Value>
    ensures answer { MatchResult result
        (λ value. combined_map (map view values.items) ≡ Some (view value))
        (λ fault. (fault ≡ out_of_memory)
        ⊎ ((combined_map (map view values.items) ≡ None)
        × (fault.kind ≡ UnexpectedReturnType))) }
    // So many pairs are refused as such, and take no memory.
    ensures too_many { IfSome (all_pairs (map view values.items)) (λ pairs. 2 ^ 63 ≤ length pairs
        → IfErr result (λ fault. fault.kind ≡ UnexpectedReturnType)) }
    ensures listing { (all : List KeyNumber) → IsListing all (totals all) }
    ensures any_order { (others : List Reply) → IsPermutation (map view values.items) others
        → combined_map others ≡ combined_map (map view values.items) }
{
    let Some(count) = pair_count(&values) else {
        return Err(misfit("there are more than 2^63-1 pairs"));
    };
    let Some(totals) = add_up(alloc, values, count)? else {
        return Err(misfit("a reply is not an array of keys and numbers in turn"));
    };
    match to_entries(alloc, by_key(totals))? {
        Some(list) => Ok(Value::Map(list)),
        None => Err(misfit("the sum of a key does not fit in an i64")),
    }
}

/// The error of replies that make no map.
#[cold]
fn misfit(desc: &'static str) -> RedisError
    ensures { result.kind ≡ UnexpectedReturnType }
{
    RedisError::from((ErrorKind::UnexpectedReturnType, desc))
}

/// Totals of the pairs, if each reply is an array of bulk strings and numbers in turn. A key may
/// have several, whose sum is its total. `room` is for the pairs.
fn add_up(alloc: Global, values: Vec<Value>, room: usize) -> Result<Option<Vec<Total>>, AllocError>
    ensures { IfOk result (λ sums. (q : List ℕ)
        → option_map (λ totals. total_at q totals.items) sums
        ≡ option_map (total_at q) (all_pairs (map view values.items))) }
{
    let mut totals = Vec::with_capacity(alloc, room)?;
    for value in values {
        let Some(items) = value.into_array() else {
            return Ok(None);
        };
        if !add_pairs(&mut totals, items)? {
            return Ok(None);
        }
    }
    Ok(Some(totals))
}

/// How many pairs the replies have, unless these are too many.
fn pair_count(values: &[Value]) -> Option<usize>
    ensures { IfSome (all_pairs (map view values.now)) (λ pairs. result
        ≡ (if nat_lt (length pairs) (2 ^ 63) then Some (length pairs) else None)) }
{
    let mut count = 0_usize;
    for value in values {
        if let Some(items) = value.as_array() {
            count = count.saturating_add(items.len() / 2);
        }
    }
    (count <= MOST_PAIRS).then_some(count)
}

/// Adds the pairs of the items, if these are bulk strings and numbers in turn.
///
/// Nodes mostly reply with the same keys in one order. So each key is looked for right after the
/// key before it.
fn add_pairs(totals: &mut Vec<Total>, items: Vec<Value>) -> Result<bool, AllocError>
    ensures { IfOk result (λ ok. (q : List ℕ)
        → option_map (λ pairs. total_at q (totals.old.items ++ pairs))
        (pairs_among (map view items.items))
        ≡ (if ok then Some (total_at q totals.new.items) else None)) }
{
    let mut place = 0_usize;
    let mut rest = items.into_iter();
    while let Some(key) = rest.next() {
        let Some(number) = rest.next() else {
            return Ok(false);
        };
        let Some(bytes) = key.into_bulk_string() else {
            return Ok(false);
        };
        let Some(n) = number.as_int() else {
            return Ok(false);
        };
        place = add_number(totals, place, bytes, i128::from(n))?;
    }
    Ok(true)
}

/// Adds a number to the total at index `place` if that has its key, or appends it. Returns the index
/// to look at for the next key.
fn add_number(
    totals: &mut Vec<Total>,
    place: usize,
    key: Vec<u8>,
    number: i128,
) -> Result<usize, AllocError>
    ensures { OnOk result ((q : List ℕ)
        → total_at q totals.new.items
        ≡ total_at q (totals.old.items ++ (key.items, number) ∷ [])) }
{
    match totals.get_mut(place) {
        Some(total) if total.has_key(&key) => {
            total.sum = sum_of(total.sum, number)?;
            Ok(place.saturating_add(1))
        }
        _ => {
            totals.push(Total {
                key,
                rank: 0,
                sum: number,
            })?;
            Ok(place)
        }
    }
}

/// The sum of two totals, which leaves the 128 bits only after 2^64 pairs, more than are added.
fn sum_of(total: i128, number: i128) -> Result<i128, AllocError>
    ensures { IfOk result (λ sum. sum ≡ total +ℤ number) }
{
    total.checked_add(number).ok_or(AllocError)
}

/// The number of first bytes that all keys share.
fn common_lead(totals: &[Total]) -> usize {
    let Some((first, others)) = totals.split_first() else {
        return 0;
    };
    let mut lead = first.key.as_slice();
    for other in others {
        if !other.key.starts_with(lead) {
            let pairs = lead.iter().zip(&other.key);
            let count = pairs.take_while(|(x, y)| **x == **y).count();
            lead = lead.get(..count).unwrap_or(lead);
        }
    }
    lead.len()
}

/// The eight bytes of a key after the lead, as one number.
fn number_after(key: &[u8], lead: usize) -> u64 {
    let rest = key.get(lead..).unwrap_or(&[]);
    if let Some(eight) = rest.first_chunk::<8>() {
        return u64::from_be_bytes(*eight);
    }
    let mut number = 0_u64;
    for byte in rest {
        number = number << 8 | u64::from(*byte);
    }
    let missing = 8_usize.saturating_sub(rest.len());
    number.wrapping_shl(8 * missing as u32)
}

/// Sets the ranks of totals to bytes after the ones that all keys share.
fn set_ranks(totals: &mut Vec<Total>)
    ensures { totals.new.items ≡ totals.old.items }
{
    let lead = common_lead(totals);
    for index in 0..totals.len() {
        let total = &mut totals[index];
        total.rank = number_after(&total.key, lead);
    }
}

/// The totals by ascending key.
///
/// A sort by ranks reads no key. After it, mostly the keys ascend, and the sort by keys only sees
/// that they do.
fn by_key(mut totals: Vec<Total>) -> Vec<Total>
    ensures same { IsPermutation totals.items result.items }
    ensures ascending { IsSortedByKey (λ total. total.0) (slice_cmp nat_cmp) result.items }
{
    set_ranks(&mut totals);
    totals.sort_unstable_by_key(|total: &Total| total.rank);
    totals.sort_unstable_by(
        |a: &Total, b: &Total| -> Ordering
            ensures { result ≡ slice_cmp nat_cmp a.now.0 b.now.0 }
        { a.key.cmp(&b.key) },
    );
    totals
}

/// The totals as pairs of replies, if each fits in an i64. Totals of one key that are side by side
/// are one.
fn to_entries(alloc: Global, totals: Vec<Total>) -> Result<Option<Vec<(Value, Value)>>, AllocError>
    ensures { IfOk result (λ list. option_map (λ v. map view_pair v.items) list
        ≡ all_some (map reply_pair (joined totals.items))) }
{
    let mut list = Vec::with_capacity(alloc, totals.len())?;
    let mut rest = totals.into_iter();
    let Some(mut total) = rest.next() else {
        return Ok(Some(list));
    };
    for next in rest {
        if next.key == total.key {
            total.sum = sum_of(total.sum, next.sum)?;
            continue;
        }
        if !push_pair(&mut list, total)? {
            return Ok(None);
        }
        total = next;
    }
    Ok(push_pair(&mut list, total)?.then_some(list))
}

/// Adds a key and its total as replies, if the total fits in an i64.
fn push_pair(list: &mut Vec<(Value, Value)>, total: Total) -> Result<bool, AllocError>
    ensures { IfOk result (λ fits.
        option_map (λ pair. map view_pair list.old.items ++ pair ∷ []) (reply_pair total)
        ≡ (if fits then Some (map view_pair list.new.items) else None)) }
{
    let Ok(n) = i64::try_from(total.sum) else {
        return Ok(false);
    };
    list.push((Value::BulkString(total.key), Value::Int(n)))?;
    Ok(true)
}
