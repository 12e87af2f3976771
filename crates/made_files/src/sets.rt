// Set files made byte by byte.
use crate::{bytes, items, number};

// A list of so many entries, rising by kind, then number; numbers from `first` on.
fn entries(out: &mut [u8], at: usize, count: u64, first: u64) -> usize {
    items(out, at, count, |out, at, i| {
        let next = number(out, at, 1 + i / 65);
        number(out, next, first.wrapping_add(i))
    })
}

// A warning of code 1 + n % 4, about kind n % 9; kind 0 stands alone.
fn warning(out: &mut [u8], at: usize, n: u64) -> usize {
    let kind = number(out, at, 1 + n % 4);
    let next = number(out, kind, n % 9);
    if n % 9 == 0 {
        return next;
    }
    number(out, next, n)
}

fn warnings(out: &mut [u8], at: usize, count: u64) -> usize {
    items(out, at, count, warning)
}

// The set file with lists of so many entries and so many warnings.
pub fn set(out: &mut [u8], created: u64, modified: u64, deleted: u64, warned: u64) -> usize {
    let a = entries(out, 0, created, 1);
    let b = entries(out, a, modified, 1000);
    let c = entries(out, b, deleted, 2000);
    warnings(out, c, warned)
}

// The set of the second worked crossing.
pub fn worked_set(out: &mut [u8]) -> usize {
    bytes(
        out,
        0,
        b"\x02\x06\x06\x08\x07\x00\x01\x08\x05\x02\x03\x00\x04\x08\x05",
    )
}
