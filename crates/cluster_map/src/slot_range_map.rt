ghost use Rattle.std.specs.Prelude.{◌≡◌, ◌<◌, ◌≤◌, ◌+◌, nat_lt, List, [], length, map, filter, take, slice_get, IsOk, IfOk, OnOk, OnErr, MatchOption, IfSome};
ghost use Rattle.std.specs.List.{AllZip};
ghost use Rattle.std.specs.List.Sorted.{IsNonDecreasing};
ghost use Rattle.std.specs.Vec.{vec_capacity};
ghost use Rattle.std.specs.Slice.Iter.{iter_rest};
ghost use Rattle.std.specs.Iterator.{YieldsFirstBy, YieldsFirstRef, item_count};
ghost use Rattle.cluster_map.specs.RangeIndex.{ArePages, IsIndex};
ghost use Rattle.cluster_map.specs.RangeMap.{RangeEntry, end_of, ends_at, value_of, Ascends, IsAnswerAt, IsUncovered, AreDisjoint, IsEntryClone, IsHeldByNone, IsHeldWith, insert_entries, insert_entry};

use std::alloc::{AllocError, Global};
use std::marker::Model;
use std::{fmt, slice};

/// Values for ranges of slots with distinct ends.
///
/// A slot has the range with the smallest end at or after it, if that range starts at or before the
/// slot. So a range that overlaps another, or is reversed, can hide the other.
#[derive(Drop)]
pub struct SlotRangeMap<V> {
    // (start, end, value), by ascending end
    ranges: Vec<(u16, u16, V)>,
    // The ends once more, side by side, so that a search reads few lines of memory. If there are
    // many, a number follows for each page of slots: at least as many ends are below its first
    // slot.
    index: Vec<u16>,
    // A page has 2 ^ page_bits slots.
    page_bits: u32,
}

impl<V> Model for SlotRangeMap<V> {
    ghost use Rattle.std.specs.Prelude.{List};
    ghost use Rattle.cluster_map.specs.RangeMap.{RangeEntry, Ascends};
    ghost use Rattle.cluster_map.specs.RangeIndex.{IsIndex};

    ghost Value = { List (RangeEntry V) };

    ghost view = { λ m. m.ranges.items };

    ghost invariant = { λ m. Ascends m.ranges.items
        × IsIndex m.ranges.items m.index.items m.page_bits };
}

/// Number of ends below `end`.
fn place_of(ends: &[u16], end: u16) -> usize
    requires { IsNonDecreasing ends.now }
    ensures place { result ≡ length (filter (λ e. nat_lt e end) ends.now) }
    ensures bound { result ≤ length ends.now }
{
    ends.partition_point(|other| *other < end)
}

/// How many ends are compared at once.
const LANES: usize = 16;

/// Number of ends below `end`, by a comparison with each. The loop never ends early, so many are
/// compared at once.
fn count_below(ends: &[u16], end: u16) -> usize
    ensures { result ≡ length (filter (λ e. nat_lt e end) ends.now) }
{
    let mut below = 0;
    for other in ends {
        below += usize::from(*other < end);
    }
    below
}

/// Number of ends below `end`, if at least `known` are. Compares `LANES` ends, and returns `None`
/// if all of these are below, or there are fewer.
fn place_near(ends: &[u16], known: usize, end: u16) -> Option<usize>
    requires rises { IsNonDecreasing ends.now }
    requires known { known ≤ length (filter (λ e. nat_lt e end) ends.now) }
    ensures place { IfSome result
        (λ place. place ≡ length (filter (λ e. nat_lt e end) ends.now)) }
    ensures bound { IfSome result (λ place. place ≤ length ends.now) }
{
    let last = ends.len().checked_sub(LANES)?;
    let first = known.min(last);
    let below = count_below(&ends[first..first + LANES], end);
    if below < LANES {
        Some(first + below)
    } else {
        None
    }
}

/// Number of ends below `end`, if at least `known` are.
fn place_from(ends: &[u16], known: usize, end: u16) -> usize
    requires rises { IsNonDecreasing ends.now }
    requires known { known ≤ length (filter (λ e. nat_lt e end) ends.now) }
    ensures place { result ≡ length (filter (λ e. nat_lt e end) ends.now) }
    ensures bound { result ≤ length ends.now }
{
    match place_near(ends, known, end) {
        Some(place) => place,
        None => place_of(ends, end),
    }
}

/// Number of ends below `end`, by the number of its page. Never inline, so that a look-up among few
/// ends can be.
#[inline(never)]
fn place_by_pages(ends: &[u16], pages: &[u16], page_bits: u32, end: u16) -> usize
    requires rises { IsNonDecreasing ends.now }
    requires bits { page_bits < 16 }
    requires pages { ArePages page_bits pages.now ends.now }
    ensures place { result ≡ length (filter (λ e. nat_lt e end) ends.now) }
    ensures bound { result ≤ length ends.now }
{
    let known = match pages.get(usize::from(end >> page_bits)) {
        Some(number) => usize::from(*number),
        None => 0,
    };
    place_from(ends, known, end)
}

/// Whether there is a range at index `place`, and it has this end.
fn ends_at<V>(ranges: &[(u16, u16, V)], place: usize, end: u16) -> bool
    ensures { result ≡ ends_at end (slice_get ranges.now place) }
{
    match ranges.get(place) {
        Some(range) => range.1 == end,
        None => false,
    }
}

impl<V> SlotRangeMap<V> {
    /// An empty map. Takes no memory.
    pub fn new(alloc: Global) -> Self
        ensures { result ≡ [] }
    {
        SlotRangeMap {
            ranges: Vec::new(alloc),
            index: Vec::new(alloc),
            page_bits: 0,
        }
    }

    /// The same as `new`.
    pub fn default(alloc: Global) -> Self
        ensures { result ≡ [] }
    {
        SlotRangeMap::new(alloc)
    }

    /// Number of ranges that end before `end`.
    fn place(&self, end: u16) -> usize
        ensures { result ≡ length (filter (λ e. nat_lt (end_of e) end) self.now) }
    {
        let (ends, pages) = self.index.split_at(self.ranges.len());
        if ends.len() < LANES {
            count_below(ends, end)
        } else {
            place_by_pages(ends, pages, self.page_bits, end)
        }
    }

    /// Inserts a range, both ends included, and replaces the one with the same end. A new range
    /// moves all that end after it. So n inserts take O(n²), unless they ascend by end. Use `extend`
    /// for many.
    ///
    /// # Errors
    ///
    /// If memory runs out, the map stays as it was.
    pub fn insert(&mut self, start: u16, end: u16, value: V) -> Result<(), AllocError>
    where
        V: Drop,
        ensures put { OnOk result (self.new ≡ insert_entry self.old start end value) }
        ensures unchanged { OnErr result (self.new ≡ self.old) }
    {
        let place = self.place(end);
        if ends_at(self.ranges.as_slice(), place, end) {
            self.ranges[place] = (start, end, value);
        } else {
            self.index.reserve(1)?;
            self.ranges.insert(place, (start, end, value))?;
            self.index.insert(place, end)?;
        }
        Ok(())
    }

    /// The value of the range that covers the slot. O(log n). In a map that `extend` filled, the
    /// slot of a key mostly takes one look at 16 ends.
    pub fn get(&self, slot: u16) -> Option<&V>
        ensures least { MatchOption result (IsUncovered self.now slot) (λ value. IsAnswerAt self.now
            slot value.now) }
        // If no two ranges overlap and none is reversed, this is the value of the range that
        // contains the slot.
        ensures disjoint { AreDisjoint self.now
            → MatchOption result (IsHeldByNone self.now slot) (λ value. IsHeldWith self.now slot
            value.now) }
        ensures order { Ascends self.now }
    {
        let place = self.place(slot);
        let (start, _, value) = self.ranges.get(place)?;
        (*start <= slot).then_some(value)
    }

    /// The number of ranges.
    pub(crate) fn len(&self) -> usize
        ensures count { result ≡ length self.now }
        ensures order { Ascends self.now }
    {
        self.ranges.len()
    }

    /// The ranges as (start, end, value), by ascending end.
    pub fn iter(&self) -> Iter<'_, V>
        ensures all { result ≡ self.now }
        ensures order { Ascends self.now }
    {
        Iter {
            ranges: self.ranges.iter(),
        }
    }

    /// The values, by ascending end of their ranges.
    pub fn values(&self) -> Values<'_, V>
        ensures all { result ≡ map value_of self.now }
        ensures order { Ascends self.now }
    {
        let ranges = self.ranges.iter();
        Values { ranges }
    }

    /// Removes all ranges.
    pub fn clear(&mut self)
    where
        V: Drop,
        ensures empty { self.new ≡ [] }
    {
        self.ranges.clear();
        self.index.clear();
    }
}

impl<V: Drop> SlotRangeMap<V> {
    /// Inserts ranges in order. Each replaces an earlier one with the same end. O(n log n) in all
    /// ranges, and O(n) if they ascend by end.
    ///
    /// # Errors
    ///
    /// If memory runs out, the map stays as it was.
    pub fn extend(&mut self, ranges: Vec<(u16, u16, V)>) -> Result<(), AllocError>
        ensures put { OnOk result (self.new ≡ insert_entries self.old ranges.items) }
        ensures unchanged { OnErr result (self.new ≡ self.old) }
    {
        let mut ranges = ranges;
        if self.ranges.is_empty() {
            let page_bits = put_in_order(&mut ranges, &mut self.index)?;
            self.ranges = ranges;
            self.page_bits = page_bits;
            return Ok(());
        }
        let count = self.ranges.len();
        self.ranges.append(&mut ranges)?;
        match put_in_order(&mut self.ranges, &mut self.index) {
            Ok(page_bits) => {
                self.page_bits = page_bits;
                Ok(())
            }
            Err(error) => {
                self.ranges.truncate(count);
                Err(error)
            }
        }
    }
}

/// Sorts the ranges by ascending end, keeps the last of those with the same end, and rewrites the
/// index. Returns the bits of a page.
fn put_in_order<V: Drop>(
    ranges: &mut Vec<(u16, u16, V)>,
    index: &mut Vec<u16>,
) -> Result<u32, AllocError>
    ensures put { OnOk result (ranges.new.items ≡ insert_entries [] ranges.old.items) }
    ensures index { IfOk result (λ bits. IsIndex ranges.new.items index.new.items bits) }
    ensures unchanged { OnErr result
        ((ranges.new.items ≡ ranges.old.items) × (index.new.items ≡ index.old.items)) }
{
    let page_bits = page_bits_for(ranges.len());
    let pages = PAGED_SLOTS >> page_bits;
    // Once the ranges are sorted, no allocation may fail.
    index.reserve((ranges.len() + pages).saturating_sub(index.len()))?;
    sort_by_end(ranges)?;
    write_index(ranges.as_slice(), pages, page_bits, index)?;
    Ok(page_bits)
}

/// Number of slots that pages are for: all that keys have.
const PAGED_SLOTS: usize = 16384;

/// The bits of a page, for `count` ranges: two to four ranges a page, and at most 1024 pages. Up to
/// 16 ranges have no page.
fn page_bits_for(count: usize) -> u32
    ensures { result < 16 }
{
    if count <= LANES {
        return 15;
    }
    15u32.saturating_sub(count.ilog2()).max(4)
}

/// Writes the index of the ranges, with `pages` pages, over the old one.
fn write_index<V>(
    ranges: &[(u16, u16, V)],
    pages: usize,
    page_bits: u32,
    index: &mut Vec<u16>,
) -> Result<(), AllocError>
    requires bits { page_bits < 16 }
    requires short { pages ≤ 16384 }
    requires ascends { Ascends ranges.now }
    ensures written { OnOk result (IsIndex ranges.now index.new.items page_bits) }
    ensures succeeds { length ranges.now + pages ≤ vec_capacity index.old → IsOk result }
{
    index.clear();
    index.resize(ranges.len() + pages, 0)?;
    let (ends, numbers) = index.split_at_mut(ranges.len());
    write_ends(ranges, ends);
    write_pages(ends, page_bits, numbers);
    Ok(())
}

/// Writes the ends of the ranges.
fn write_ends<V>(ranges: &[(u16, u16, V)], ends: &mut [u16])
    requires { length ends.old ≡ length ranges.now }
    ensures { ends.new ≡ map end_of ranges.now }
{
    for place in 0..ranges.len() {
        ends[place] = ranges[place].1;
    }
}

/// Writes for each page the number of ends below its first slot. A number that loses its top bit
/// only makes a look-up longer.
fn write_pages(ends: &[u16], page_bits: u32, numbers: &mut [u16])
    requires bits { page_bits < 16 }
    requires rises { IsNonDecreasing ends.now }
    ensures { ArePages page_bits numbers.new ends.now }
{
    let mut first = 0_u16;
    let mut known = 0;
    for page in 0..numbers.len() {
        known = place_from(ends, known, first);
        numbers[page] = (known % 65536) as u16;
        first = first.saturating_add(1 << page_bits);
    }
}

/// Sorts the ranges by ascending end, and keeps the last of those with the same end.
fn sort_by_end<V: Drop>(ranges: &mut Vec<(u16, u16, V)>) -> Result<(), AllocError>
    ensures put { OnOk result (ranges.new.items ≡ insert_entries [] ranges.old.items) }
    ensures unchanged { OnErr result (ranges.new.items ≡ ranges.old.items) }
{
    if ranges.is_sorted_by(|range, next| range.1 < next.1) {
        return Ok(());
    }
    // `dedup_by_key` keeps the first of equal ends, so the last has to come first.
    ranges.reverse();
    if let Err(error) = ranges.sort_by_key(|range| range.1) {
        ranges.reverse();
        return Err(error);
    }
    ranges.dedup_by_key(|range| range.1);
    Ok(())
}

/// A clone has the ranges of its source, each with a clone of its value.
impl<V: Clone> Clone for SlotRangeMap<V> {
    ghost is_clone = { AllZip (IsEntryClone V.is_clone) };

    fn clone(&self) -> Result<Self, AllocError>
        ensures entries { IfOk result (AllZip (IsEntryClone V.is_clone) self.now) }
        // If clones of values are equal to them, so are clones of maps.
        ensures same { IfOk result
            (λ copy. ((v w : V) → V.is_clone v w → w ≡ v) → copy ≡ self.now) }
    {
        Ok(SlotRangeMap {
            index: self.index.clone()?,
            ranges: self.ranges.clone()?,
            page_bits: self.page_bits,
        })
    }
}

/// Prints the ranges as a map does, from their ends.
impl<V: fmt::Debug> fmt::Debug for SlotRangeMap<V> {
    fn fmt<W: fmt::Write>(&self, f: &mut fmt::Formatter<W>) -> fmt::Result {
        let ranges = ByEnd {
            ranges: self.ranges.as_slice(),
        };
        f.debug_struct("SlotRangeMap")
            .field("ranges", &ranges)
            .finish()
    }
}

/// Ranges that print as a map from their ends.
#[derive(Drop)]
struct ByEnd<'a, V> {
    ranges: &'a [(u16, u16, V)],
}

impl<V: fmt::Debug> fmt::Debug for ByEnd<'_, V> {
    fn fmt<W: fmt::Write>(&self, f: &mut fmt::Formatter<W>) -> fmt::Result {
        let entries = self
            .ranges
            .iter()
            .map(|(start, end, value)| (end, (start, value)));
        f.debug_map().entries(entries).finish()
    }
}

/// The ranges of a `SlotRangeMap` as (start, end, value), by ascending end.
#[derive(Drop)]
pub struct Iter<'a, V> {
    ranges: slice::Iter<'a, (u16, u16, V)>,
}

impl<'a, V> Model for Iter<'a, V> {
    ghost use Rattle.std.specs.Prelude.{List};
    ghost use Rattle.std.specs.Slice.Iter.{iter_rest};
    ghost use Rattle.cluster_map.specs.RangeMap.{RangeEntry};

    ghost Value = { List (RangeEntry V) };

    ghost view = { λ s. iter_rest s.ranges };
}

impl<'a, V> Iterator for Iter<'a, V> {
    type Item = (u16, u16, &'a V);

    ghost next_gives = { YieldsFirstBy (λ e. (e.0, e.1, e.2.now)) (λ s. s) };

    ghost remaining = { item_count (λ s. s) };

    fn next(&mut self) -> Option<(u16, u16, &'a V)> {
        let (start, end, value) = self.ranges.next()?;
        Some((*start, *end, value))
    }
}

/// The values of a `SlotRangeMap`, by ascending end of their ranges.
#[derive(Drop)]
pub struct Values<'a, V> {
    ranges: slice::Iter<'a, (u16, u16, V)>,
}

impl<'a, V> Model for Values<'a, V> {
    ghost use Rattle.std.specs.Prelude.{List, map};
    ghost use Rattle.std.specs.Slice.Iter.{iter_rest};
    ghost use Rattle.cluster_map.specs.RangeMap.{value_of};

    ghost Value = { List V };

    ghost view = { λ s. map value_of (iter_rest s.ranges) };
}

impl<'a, V> Iterator for Values<'a, V> {
    type Item = &'a V;

    ghost next_gives = { YieldsFirstRef (λ s. s) };

    ghost remaining = { item_count (λ s. s) };

    fn next(&mut self) -> Option<&'a V> {
        let (_, _, value) = self.ranges.next()?;
        Some(value)
    }
}

impl<'a, V> IntoIterator for &'a SlotRangeMap<V> {
    type Item = (u16, u16, &'a V);

    type IntoIter = Iter<'a, V>;

    ghost into_iter_gives = { λ m it. (it ≡ m.now) × Ascends m.now };

    fn into_iter(self) -> Iter<'a, V> {
        self.iter()
    }
}
