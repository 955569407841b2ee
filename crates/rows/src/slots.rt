//! Slots of keys, and the remainder that they are made of, bit by bit.
use cluster_map::Slot;
use fixtures::{bad_row, bytes, shown};
use resp_core::RedisResult;
use std::alloc::Global;

/// What a call of this name returns.
pub fn call(alloc: Global, name: &str, words: &str) -> RedisResult<String> {
    match name {
        "slot" => shown(alloc, &Slot::for_key(&bytes(alloc, words)?).number()),
        "remainder" => shown(alloc, &remainder(&bytes(alloc, words)?)),
        "remainders" => shown(alloc, &remainders()),
        _ => Err(bad_row("no call of this name")),
    }
}

/// The remainder after one more bit.
fn with_bit(remainder: u16, bit: u16) -> u16 {
    match (remainder >> 15) ^ bit {
        0 => remainder << 1,
        _ => (remainder << 1) ^ 0x1021,
    }
}

/// The remainder after one more byte, whose highest bit comes first.
fn with_byte(remainder: u16, byte: u8) -> u16 {
    let mut remainder = remainder;
    for place in 0..8u32 {
        remainder = with_bit(remainder, u16::from(byte >> (7 - place)) & 1);
    }
    remainder
}

/// CRC-16/XMODEM of these bytes by a division bit by bit.
fn remainder(bytes: &[u8]) -> u16 {
    let mut remainder = 0;
    for byte in bytes {
        remainder = with_byte(remainder, *byte);
    }
    remainder
}

/// Number of keys of one byte whose slot is this remainder modulo 16384.
fn remainders() -> usize {
    let mut count: usize = 0;
    for byte in 0..=255u8 {
        let key = [byte];
        if Slot::for_key(&key).number() == remainder(&key) % 16384 {
            count = count.saturating_add(1);
        }
    }
    count
}
