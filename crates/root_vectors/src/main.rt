// Runs published squareRoot vectors: each line of the input is an operand's pattern and its root's, in 16 digits.
// The vectors are glibc's for binary64, rounded to nearest (math/auto-libm-test-out-sqrt and libm-test-sqrt.inc of
// version 2.36); for a NaN the root's pattern is that of document 01.
#![tactic(auto)]

ghost use Rattle.std.specs.Prelude.{◌<◌, ◌≤◌, length};

use printing::Output;
use std::io;
use std::io::Read;
use std::num::{FpCategory, f64_from_bits_with_nan};

// No more of the input is read.
const ROOM: usize = 65536;

// A vector is a line of so many bytes: two patterns, and a byte behind each.
const LINE: usize = 34;

// The classes of operands, in the order of their names.
#[derive(Clone, Copy)]
enum Class {
    Zero,
    Subnormal,
    Normal,
    Infinite,
    Negative,
    Nan,
}

const NAMES: [&str; 6] = [
    "zeros",
    "subnormal",
    "normal",
    "infinite",
    "negative",
    "NaN",
];

fn class_of(x: f64) -> Class {
    if x < 0.0 {
        return Class::Negative;
    }
    match x.classify() {
        FpCategory::Zero => Class::Zero,
        FpCategory::Subnormal => Class::Subnormal,
        FpCategory::Normal => Class::Normal,
        FpCategory::Infinite => Class::Infinite,
        FpCategory::Nan => Class::Nan,
    }
}

// The value of a hexadecimal digit, 0 where it is none.
fn digit(b: u8) -> u64
    ensures { result < 16 }
{
    match b {
        b'0'..=b'9' => u64::from(b - b'0'),
        b'a'..=b'f' => u64::from(b - b'a') + 10,
        _ => 0,
    }
}

// The number in 16 digits.
fn pattern(digits: &[u8]) -> u64 {
    digits.iter().fold(0, |n, b| (n << 4) | digit(*b))
}

// The bytes of the input, as far as there is room for them: how many. What cannot be read is its end.
fn read_full<R: Read>(input: &mut R, buffer: &mut [u8]) -> usize
    ensures { result ≤ length buffer.old }
{
    let mut done = 0;
    while done < buffer.len() {
        match input.read(&mut buffer[done..]) {
            Ok(n) if n > 0 => done += n,
            _ => break,
        }
    }
    done
}

fn add_one(count: &mut u64) {
    *count = count.saturating_add(1);
}

fn main(rt: HostRuntime) -> io::Result<()> {
    let out = Output(&rt);
    let mut buffer = [0; ROOM];
    let got = read_full(&mut rt.stdin(), &mut buffer);
    let mut counts = [0; 6];
    let mut differ = 0;
    let (lines, _) = buffer[..got].as_chunks::<LINE>();
    for line in lines {
        let operand = pattern(&line[..16]);
        let class = class_of(f64_from_bits_with_nan(operand));
        add_one(&mut counts[class as usize]);
        if root::square_root_bits(operand) != pattern(&line[17..33]) {
            add_one(&mut differ);
        }
    }
    for (count, name) in counts.iter().zip(NAMES) {
        println!(out; "{count} {name}")?;
    }
    println!(out; "{differ} differ")
}
