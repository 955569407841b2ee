ghost use Rattle.std.specs.Prelude.{◌≡◌, ℕ, nat_eq, if◌then◌else◌, IfOk};
ghost use Rattle.redis_routing.specs.Inner.SlotPages.{number_on_pages, number_or, read_pair, spread};

use indexmap::IndexMap;
use std::alloc::{AllocError, Global};
use std::hash::{BuildHasherDefault, Hasher};

/// The number of pages that all slots have.
const ALL_PAGES: usize = 4096;

/// The numbers of slots. A page has those of four slots that follow one another, and 0 for a slot
/// without a number.
pub(crate) type SlotPages = IndexMap<u16, [u16; 4], BuildHasherDefault<PageHasher>>;

/// Hashes the number of a page to itself, with its eight highest bits once more in bits 24 to 31.
///
/// A map finds the group of an entry by the low bits of its hash, and compares bits 24 to 31 in the
/// group. A group holds twelve entries. With room for all pages there are 512 groups. Eight pages
/// belong to each, and they differ in those bits. So no group is ever full, whichever slots are
/// picked.
#[derive(Clone, Copy, Default)]
pub(crate) struct PageHasher {
    page: u64,
}

impl Hasher for PageHasher {
    ghost write = { λ s bytes. record { page = read_pair s.page bytes } };

    ghost finish = { λ s. spread s.page };

    fn finish(&self) -> u64 {
        self.page.wrapping_mul(0x10_0001)
    }

    fn write(&mut self, bytes: &[u8]) {
        if let [low, high] = bytes {
            self.page = u64::from(u16::from_le_bytes([*low, *high]));
        }
    }
}

/// An empty map, with room for the slots of `count` tuples.
///
/// If slots are picked whose pages belong to a few groups, these groups are full. The time to pass
/// them grows with the square of `count`. So the room grows with it, up to that for all pages.
/// Picked slots take at most 1.2 times as long as others, as measured.
pub(crate) fn new_slot_pages(alloc: Global, count: usize) -> Result<SlotPages, AllocError>
    ensures { IfOk result (λ pages. (slot : ℕ) → number_on_pages pages slot ≡ 0) }
{
    let room = count.saturating_mul(count.max(9)) / 9;
    SlotPages::with_capacity_and_hasher(alloc, room.min(ALL_PAGES), BuildHasherDefault::new())
}

/// The number of a slot. A slot without one gets `next`.
pub(crate) fn number_of(pages: &mut SlotPages, slot: u16, next: u16) -> Result<u16, AllocError>
    ensures number { IfOk result (λ number. number ≡ number_or next (number_on_pages pages.old slot)) }
    ensures numbers { IfOk result (λ number. (other : ℕ) → number_on_pages pages.new other
        ≡ if nat_eq slot other then number else number_on_pages pages.old other) }
{
    let page = pages.entry(slot / 4)?.or_insert([0; 4]);
    let number = &mut page[usize::from(slot % 4)];
    if *number == 0 {
        *number = next;
    }
    Ok(*number)
}
