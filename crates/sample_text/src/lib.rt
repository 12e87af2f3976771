// The words of stored samples, for the programs that replay them: numbers in decimal, doubles as 16 hexadecimal digits, names,
// lists, points, bytes in pairs of digits. What a word says is shown by the replays; proved is that every text is read safely.
#![tactic(auto)]

pub mod bytes;

ghost use Rattle.std.specs.Prelude.{◌≡◌, ◌<◌, ◌≤◌, length, slice_index, EachIndex};

use std::num::f64_from_bits_with_nan;

// What a word says, and where the next one starts.
#[derive(Drop)]
pub struct Word<T> {
    pub value: T,
    pub next: usize,
}

// The points of a request; a count of 65 stands for more than 64.
#[derive(Drop)]
pub struct Points {
    pub coords: [f64; 192],
    pub count: u64,
    pub next: usize,
}

// Past the end of the line.
pub fn line_end(text: &[u8], at: usize) -> usize
    requires { at < length text.now }
    ensures { (at < result) × (result ≤ length text.now) }
{
    match text[at..].iter().position(|b| *b == b'\n') {
        Some(n) => at + n + 1,
        None => text.len(),
    }
}

// The letters up to a blank or the end of the line.
pub fn word_at(text: &[u8], at: usize) -> Word<&[u8]>
    ensures letters { EachIndex result.value.now (λ k. 32 < slice_index result.value.now k) }
    ensures forward { at ≤ result.next }
    ensures within { at ≤ length text.now → result.next ≤ length text.now }
{
    let rest = text.get(at..).unwrap_or(&[]);
    match rest.iter().position(|b| *b <= b' ') {
        Some(n) => Word {
            value: &rest[..n],
            next: at + n + 1,
        },
        None => Word {
            value: rest,
            next: at + rest.len(),
        },
    }
}

// Every byte counts as a digit, so that each word is some number: the replays compare what it says, and refuse none.
pub fn digit(b: u8) -> u64 {
    let d = u64::from(b);
    if d < 58 { d % 16 } else { d % 16 + 9 }
}

// A word in hexadecimal digits; of more than sixteen, the last ones.
fn hex_of(word: &[u8]) -> u64 {
    word.iter().fold(0, |n, b| (n << 4) | digit(*b))
}

// A word in decimal digits, modulo 2^64.
fn number_of(word: &[u8]) -> u64 {
    word.iter()
        .fold(0u64, |n, b| n.wrapping_mul(10).wrapping_add(digit(*b)))
}

// A double's pattern.
pub fn hex_at(text: &[u8], at: usize) -> Word<u64> {
    let word = word_at(text, at);
    Word {
        value: hex_of(word.value),
        next: word.next,
    }
}

pub fn number_at(text: &[u8], at: usize) -> Word<u64> {
    let word = word_at(text, at);
    Word {
        value: number_of(word.value),
        next: word.next,
    }
}

// The last eight letters of a name, which tell the functions apart.
pub fn name_at(text: &[u8], at: usize) -> Word<u64> {
    let word = word_at(text, at);
    Word {
        value: word.value.iter().fold(0, |n, b| (n << 8) | letter(*b)),
        next: word.next,
    }
}

pub fn letter(b: u8) -> u64 {
    u64::from(b)
}

// Every NaN pattern is a NaN.
pub fn double_at(text: &[u8], at: usize) -> Word<f64> {
    let word = hex_at(text, at);
    Word {
        value: f64_from_bits_with_nan(word.value),
        next: word.next,
    }
}

pub fn points_at(text: &[u8], at: usize) -> Points
    ensures { 192 ≡ length result.coords }
{
    let Word {
        value: count,
        mut next,
    } = number_at(text, at);
    let mut coords = [0.0; 192];
    if count > 64 {
        return Points {
            coords,
            count: 65,
            next,
        };
    }
    let n = count as usize * 3;
    for coord in coords[..n].iter_mut() {
        let double = double_at(text, next);
        *coord = double.value;
        next = double.next;
    }
    Points {
        coords,
        count,
        next,
    }
}

// ---- the stored answer, from `at` on: where the next word starts, or 0 where it is another. 0 stays.

// Past a word that is what was expected.
pub(crate) fn past(word: Word<&[u8]>, met: bool) -> usize {
    if met { word.next } else { 0 }
}

pub fn expect_number(text: &[u8], at: usize, n: u64) -> usize {
    if at == 0 {
        return 0;
    }
    let word = word_at(text, at);
    let met = number_of(word.value) == n;
    past(word, met)
}

pub fn expect(text: &[u8], at: usize, x: f64) -> usize {
    if at == 0 {
        return 0;
    }
    let word = word_at(text, at);
    let met = if x.is_nan() {
        matches!(word.value, b"nan")
    } else {
        hex_of(word.value) == x.to_bits()
    };
    past(word, met)
}
