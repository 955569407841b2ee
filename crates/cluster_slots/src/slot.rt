ghost use Rattle.std.specs.Prelude.{◌≡◌, ◌<◌, ◌+◌, ◌*◌, ◌↔◌, [], ◌∷◌, ◌++◌, ℕ, List, IsSome, IfSome, MatchOption, Contains, fold, length, replicate, ◌==◌, bit_xor};
ghost use Rattle.cluster_slots.specs.HashTag.{HasTag, HasNoTag, IsHashTag};
ghost use Rattle.cluster_slots.specs.declared.slot.TheConstants.{SLOT_SIZE};
ghost use Rattle.cluster_slots.specs.KeySlot.{rem, low_bits, zeros_down, crc_of, IsKeySlot, key_slot};

mod remainders;

use self::remainders::REMAINDERS;
use memchr::memchr;
use std::marker::Model;

/// How many slots a cluster has.
pub const SLOT_SIZE: u16 = 16384;

/// A slot number below `SLOT_SIZE`.
#[derive(Clone, Copy, Debug, PartialEq, Eq, Hash)]
pub struct Slot {
    number: u16,
}

impl Model for Slot {
    ghost use Rattle.std.specs.Prelude.{ℕ, ◌<◌};

    ghost Value = { ℕ };

    ghost view = { λ s. s.number };

    ghost invariant = { λ s. s.number < 16384 };

    ghost inverse = { λ n. record { number = n } };
}

impl Slot {
    /// The slot of this number. `None` from 16384 on.
    pub fn new(number: u16) -> Option<Slot>
        ensures there { IsSome result ↔ (number < 16384) }
        ensures size { SLOT_SIZE ≡ 16384 }
        ensures number { IfSome result (λ slot. slot ≡ number) }
    {
        if number < SLOT_SIZE {
            Some(Slot { number })
        } else {
            None
        }
    }

    /// The slot of a key: CRC-16/XMODEM of its hash tag, modulo `SLOT_SIZE`.
    ///
    /// The hash tag is what stands between the first `{` and the first `}` after it. If nothing
    /// stands between them, or there is no such pair, it is the whole key.
    pub fn for_key(key: &[u8]) -> Slot
        ensures slot { IsKeySlot key.now result }
        ensures value { result ≡ key_slot key.now }
        // Keys with one hash tag have one slot.
        ensures tag { (other tag : List ℕ) (slot : ℕ) → IsHashTag key.now tag → IsHashTag other tag
            → IsKeySlot other slot → result ≡ slot }
        ensures below { result < 16384 }
    {
        let tag = get_hashtag(key).unwrap_or(key);
        Slot {
            number: crc16(tag) % SLOT_SIZE,
        }
    }

    /// This slot as a number.
    pub fn number(&self) -> u16
        ensures number { result ≡ self.now }
        ensures below { result < 16384 }
    {
        self.number
    }
}

/// Which of a slot's nodes a command may go to.
#[derive(Clone, Copy, Debug, PartialEq, Eq, Hash)]
pub enum SlotAddr {
    /// The primary only.
    Master,
    /// The primary, or a replica if the client reads from replicas.
    ReplicaOptional,
    /// A replica, or the primary if the slot has no replica.
    ReplicaRequired,
}

/// Where a command goes: a slot, and which of its nodes.
///
/// ```
/// map.slot_addr_for_route(Route::with_key(key, SlotAddr::Master), None, 0)
/// ```
#[derive(Clone, Copy, Debug, PartialEq, Eq, Hash)]
pub struct Route {
    slot: u16,
    slot_addr: SlotAddr,
}

impl Model for Route {
    ghost use Rattle.cluster_slots.specs.SlotRoute.{SlotRoute};

    ghost Value = { SlotRoute };

    ghost view = { λ r. record { slot = r.slot; addr = r.slot_addr } };

    ghost inverse = { λ r. record { slot = r.slot; slot_addr = r.addr } };
}

impl Route {
    /// A route to this slot number, which is not checked.
    pub fn new(slot: u16, slot_addr: SlotAddr) -> Self
        ensures { result ≡ record { slot = slot; addr = slot_addr } }
    {
        Route { slot, slot_addr }
    }

    /// A route to a slot.
    pub fn with_slot(slot: Slot, slot_addr: SlotAddr) -> Self
        ensures { result ≡ record { slot = slot; addr = slot_addr } }
    {
        Route::new(slot.number(), slot_addr)
    }

    /// A route to the slot of a key.
    pub fn with_key(key: &[u8], slot_addr: SlotAddr) -> Self
        ensures slot { IsKeySlot key.now result.slot }
        ensures value { result.slot ≡ key_slot key.now }
        ensures addr { result.addr ≡ slot_addr }
        ensures route { result ≡ record { slot = key_slot key.now; addr = slot_addr } }
    {
        Route::with_slot(Slot::for_key(key), slot_addr)
    }

    /// The slot number. Above 16383 only if `new` was given such a number.
    pub fn slot(&self) -> u16
        ensures { result ≡ self.now.slot }
    {
        self.slot
    }

    /// Which of the slot's nodes the command may go to.
    pub fn slot_addr(&self) -> SlotAddr
        ensures { result ≡ self.now.addr }
    {
        self.slot_addr
    }
}

/// The bytes before and after the first `byte`, which may stand behind many others.
fn cut_at(bytes: &[u8], byte: u8) -> Option<(&[u8], &[u8])>
    ensures { MatchOption result (¬ (Contains bytes.now byte))
        (λ parts. (bytes.now ≡ parts.0.now ++ byte ∷ parts.1.now) × ¬ (Contains parts.0.now byte)) }
{
    let at = memchr(byte, bytes)?;
    Some((&bytes[..at], &bytes[at + 1..]))
}

/// The same for a byte that is likely to be near. There `memchr` would take longer.
fn cut_near(bytes: &[u8], byte: u8) -> Option<(&[u8], &[u8])>
    ensures { MatchOption result (¬ (Contains bytes.now byte))
        (λ parts. (bytes.now ≡ parts.0.now ++ byte ∷ parts.1.now) × ¬ (Contains parts.0.now byte)) }
{
    let at = bytes.iter().position(|b| *b == byte)?;
    Some((&bytes[..at], &bytes[at + 1..]))
}

/// What stands between the first braces of a key, if it is not empty.
fn get_hashtag(key: &[u8]) -> Option<&[u8]>
    ensures { MatchOption result (HasNoTag key.now) (λ tag. HasTag key.now tag.now) }
{
    // Most keys have no brace. In a short one `contains` sees that sooner than `memchr`.
    if key.len() < 32 && !key.contains(&b'{') {
        return None;
    }
    let (_, rest) = cut_at(key, b'{')?;
    let (tag, _) = cut_near(rest, b'}')?;
    if tag.is_empty() { None } else { Some(tag) }
}

/// The remainder of the bits of a byte followed by 16 zero bits, and 8 more for each byte after it.
fn remainder(byte: u8, after: usize) -> u16
    requires { after < 8 }
    ensures { result ≡ rem (low_bits byte 8 ++ replicate (16 + 8 * after) 0) }
{
    REMAINDERS[after][usize::from(byte)]
}

/// The register after a byte.
fn update(crc: u16, byte: u8) -> u16
    ensures { result ≡ zeros_down 8 (bit_xor crc (byte * 256)) }
{
    (crc << 8) ^ remainder((crc >> 8) as u8 ^ byte, 0)
}

/// The register after two bytes, and then `after` zero bytes.
fn update_by_two(crc: u16, a: u8, b: u8, after: usize) -> u16
    requires { after < 7 }
    ensures { result ≡ zeros_down (8 * after) (fold (λ r byte. zeros_down 8 (bit_xor r (byte * 256)))
        crc (a ∷ b ∷ [])) }
{
    let [high, low] = crc.to_be_bytes();
    remainder(high ^ a, after + 1) ^ remainder(low ^ b, after)
}

/// The register after eight bytes. The look-ups of the last six need not wait for the register.
fn update_by_eight(crc: u16, a: u8, b: u8, c: u8, d: u8, e: u8, f: u8, g: u8, h: u8) -> u16
    ensures { result ≡ fold (λ r byte. zeros_down 8 (bit_xor r (byte * 256))) crc
        (a ∷ b ∷ c ∷ d ∷ e ∷ f ∷ g ∷ h ∷ []) }
{
    let later = remainder(c, 5)
        ^ remainder(d, 4)
        ^ remainder(e, 3)
        ^ remainder(f, 2)
        ^ remainder(g, 1)
        ^ remainder(h, 0);
    update_by_two(crc, a, b, 6) ^ later
}

/// The register after fewer than four bytes.
fn update_by_few(crc: u16, bytes: &[u8]) -> u16
    requires { length bytes.now < 4 }
    ensures { result ≡ fold (λ r byte. zeros_down 8 (bit_xor r (byte * 256))) crc bytes.now }
{
    match bytes {
        [a] => update(crc, *a),
        [a, b] => update_by_two(crc, *a, *b, 0),
        [a, b, c] => update_by_two(crc, *a, *b, 1) ^ remainder(*c, 0),
        _ => crc,
    }
}

/// The register after fewer than eight bytes.
fn update_by_last(crc: u16, bytes: &[u8]) -> u16
    requires { length bytes.now < 8 }
    ensures { result ≡ fold (λ r byte. zeros_down 8 (bit_xor r (byte * 256))) crc bytes.now }
{
    match bytes {
        [a, b, c, d, after @ ..] => {
            let four = update_by_two(crc, *a, *b, 2) ^ (remainder(*c, 1) ^ remainder(*d, 0));
            update_by_few(four, after)
        }
        _ => update_by_few(crc, bytes),
    }
}

/// CRC-16/XMODEM, eight bytes a step.
fn crc16(bytes: &[u8]) -> u16
    ensures { result ≡ crc_of bytes.now }
{
    let mut crc = 0;
    let mut rest = bytes;
    while let [a, b, c, d, e, f, g, h, after @ ..] = rest {
        crc = update_by_eight(crc, *a, *b, *c, *d, *e, *f, *g, *h);
        rest = after;
    }
    update_by_last(crc, rest)
}
