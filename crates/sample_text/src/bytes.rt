// Bytes in pairs of hexadecimal digits, `-` for none, and their hash.
ghost use Rattle.std.specs.Prelude.{◌≤◌, length};
ghost use Rattle.std.specs.Iterator.{IsFinite};

use crate::{digit, hex_at, past, word_at};
use std::num::f64_to_bits_with_nan;

// The byte of two digits; none where there are no two, or they are more than a byte.
fn byte_of(pair: &[u8]) -> Option<u8> {
    let [high, low] = pair else {
        return None;
    };
    u8::try_from((digit(*high) << 4) | digit(*low)).ok()
}

// The bytes of a word, as far as there is room for them: how many.
pub fn bytes_at(text: &[u8], at: usize, bytes: &mut [u8]) -> usize
    ensures { result ≤ length bytes.old }
{
    let word = word_at(text, at);
    let mut pairs = word.value.chunks_exact(2);
    for (n, byte) in bytes.iter_mut().enumerate() {
        let Some(stored) = pairs.next().and_then(byte_of) else {
            return n;
        };
        *byte = stored;
    }
    bytes.len()
}

// The stored answer is these bytes: where the next word starts, or 0 where they are others. 0 stays.
pub fn expect_bytes(text: &[u8], at: usize, bytes: &[u8]) -> usize {
    if at == 0 {
        return 0;
    }
    let word = word_at(text, at);
    let stored = word.value.chunks_exact(2).map_while(byte_of);
    let met = stored.eq(bytes.iter().copied());
    past(word, met)
}

// Where the FNV-1a hash starts.
pub const HASH_START: u64 = 0xCBF29CE484222325;

// The FNV-1a hash of numbers, from another's on: it takes in a whole number where the hash of bytes takes in a byte.
fn hash_from<I: Iterator<Item = u64> + Drop>(values: I, from: u64) -> u64
    requires can { I.can_next values }
    requires ends { IsFinite (I.remaining values) }
{
    values.fold(from, |h, value| (h ^ value).wrapping_mul(0x100000001B3))
}

// The 64-bit FNV-1a hash.
pub fn hash(bytes: &[u8]) -> u64 {
    hash_from(bytes.iter().map(|b| u64::from(*b)), HASH_START)
}

// The same over words, to tell memory that was altered.
pub fn hash_words(words: &[u64], from: u64) -> u64 {
    hash_from(words.iter().copied(), from)
}

// A double's bits; every NaN is one.
pub fn bits_of(x: f64) -> u64 {
    f64_to_bits_with_nan(x)
}

pub fn hash_doubles(xs: &[f64], from: u64) -> u64 {
    hash_from(xs.iter().map(|x| bits_of(*x)), from)
}

// The stored answer is the bytes' hash behind `#`, or the bytes themselves.
pub fn expect_file(text: &[u8], at: usize, bytes: &[u8]) -> usize {
    if text.get(at) == Some(&b'#') {
        let word = hex_at(text, at + 1);
        let met = word.value == hash(bytes);
        return if met { word.next } else { 0 };
    }
    expect_bytes(text, at, bytes)
}
