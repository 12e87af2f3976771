// Whole numbers and doubles as bytes: each function works on a slice from a place on. A slice and a place, and no part of the slice: what is
// promised is where a value ends in the whole file, and callers hand on that place, past a fault too. Numbers and doubles are read alike in
// name only: one goes by its groups, the other by eight bytes.
#![tactic(auto)]

ghost use Rattle.std.specs.Prelude.{◌≡◌, true, not, ◌+◌, ◌≤◌, ◌<◌, T, length, drop};
ghost use Rattle.std.specs.Float.Ieee.{is_nan};
ghost use Rattle.std.proofs.lemmas.List.Edits.{sets};
ghost use Rattle.codec.specs.Format.{got};
ghost use Rattle.codec.specs.Number.{number};
ghost use Rattle.codec.specs.Double.{read_low, low_bytes, double};
ghost use Rattle.codec.specs.Answers.{NumberRead, DoubleRead, Wrote};

// A whole number and the place after it.
#[tactic(auto, using(crate::proofs::NumberLaws::reading))]
pub fn read_number(s: &[u8], at: usize) -> Option<(u64, usize)>
    ensures { NumberRead s.now at result }
{
    let mut n: u64 = 0;
    let mut weight: u64 = 1;
    let mut i = at;
    for k in 0..9usize {
        let b = *s.get(i)? as u64;
        i += 1;
        if b < 128 {
            if k == 0 {
                return Some((b, i));
            }
            // a longer form than is needed
            if b == 0 {
                return None;
            }
            return Some((n + b * weight, i));
        }
        n += b % 128 * weight;
        weight *= 128;
    }
    // Of the tenth group 64 bits have room for one bit, and it is no leading zero.
    if *s.get(i)? == 1 {
        Some((n + weight, i + 1))
    } else {
        None
    }
}

// From `at` on, the written form of `n`; the place after it.
#[tactic(auto, using(crate::proofs::NumberLaws::writing))]
pub fn write_number(out: &mut [u8], at: usize, n: u64) -> usize
    requires { at + length (number.write n) ≤ length out.old }
    ensures { Wrote (number.write n) out.old at result out.new }
{
    let mut rest = n;
    let mut i = at;
    // the number itself says how often, so this is no loop over a range; the same in number_size
    while 128 <= rest {
        out[i] = (128 + rest % 128) as u8;
        rest /= 128;
        i += 1;
    }
    out[i] = rest as u8;
    i + 1
}

// How many bytes the written form of `n` has.
#[tactic(auto, using(crate::proofs::NumberLaws::sizing))]
pub fn number_size(n: u64) -> usize
    ensures { result ≡ length (number.write n) }
{
    let mut left = n;
    let mut k: usize = 1;
    while 128 <= left {
        left /= 128;
        k += 1;
    }
    k
}

// Eight bytes, low byte first.
#[tactic(auto, using(crate::proofs::DoubleLaws::reading_low))]
fn low_at(s: &[u8], at: usize) -> u64
    requires { at + 8 ≤ length s.now }
    ensures { read_low 8 (drop at s.now) ≡ got result (drop (at + 8) s.now) }
{
    let mut n: u64 = 0;
    for k in (0..8usize).rev() {
        n = n * 256 + s[at + k] as u64;
    }
    n
}

#[tactic(auto, using(crate::proofs::DoubleLaws::putting_low))]
fn put_low(out: &mut [u8], at: usize, n: u64)
    requires { at + 8 ≤ length out.old }
    ensures { out.new ≡ sets out.old at (low_bytes 8 n) }
{
    let mut rest = n;
    for k in 0..8usize {
        out[at + k] = (rest % 256) as u8;
        rest /= 256;
    }
}

// A double and the place after it.
#[tactic(auto, using(crate::proofs::DoubleLaws::reading_double))]
pub fn read_double(s: &[u8], at: usize) -> Option<(f64, usize)>
    ensures { DoubleRead s.now at result }
{
    if s.len() < 8 || s.len() - 8 < at {
        return None;
    }
    let n = low_at(s, at);
    // a NaN, which has no written form
    if 0x7FF0_0000_0000_0000 < n % 0x8000_0000_0000_0000 {
        return None;
    }
    Some((f64::from_bits(n), at + 8))
}

#[tactic(auto, unfolding(crate::specs::Double::double))]
pub fn write_double(out: &mut [u8], at: usize, x: f64)
    requires { (at + 8 ≤ length out.old) × T (not (is_nan x)) }
    ensures { out.new ≡ sets out.old at (double.write x) }
{
    put_low(out, at, f64::to_bits(x));
}
