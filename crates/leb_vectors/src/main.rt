// Published ULEB128 vectors: DWARF's examples, the boundary of each length up to ten bytes, and forms that
// are no number. Each number is written and read back, each form read; what comes out is held to the file stdout.
#![tactic(auto)]

use printing::Output;
use std::{fmt, io};

const NUMBERS: [u64; 27] = [
    2,
    127,
    128,
    129,
    130,
    12857,
    0,
    1,
    300,
    624485,
    16383,
    16384,
    2097151,
    2097152,
    268435455,
    268435456,
    34359738367,
    34359738368,
    4398046511103,
    4398046511104,
    562949953421311,
    562949953421312,
    72057594037927935,
    72057594037927936,
    9223372036854775807,
    9223372036854775808,
    18446744073709551615,
];

// Bytes, two hexadecimal digits each, and what stands there: a number and where it ends, or a fault.
#[derive(Drop)]
struct Form<'a> {
    shown: &'a [u8],
    bytes: &'a [u8],
}

impl<'a> fmt::Display for Form<'a> {
    fn fmt<W: fmt::Write>(&self, f: &mut fmt::Formatter<W>) -> fmt::Result {
        for b in self.shown {
            write!(f, " {b:02x}")?;
        }
        match codec::read_number(self.bytes, 0) {
            Some((n, next)) => write!(f, " = {n} up to {next}"),
            None => write!(f, " fault"),
        }
    }
}

// A number written, and read back. No number has more than ten bytes.
fn written(rt: &impl Print, n: u64) -> io::Result<()> {
    let mut buf = [0; 10];
    let size = codec::write_number(&mut buf, 0, n);
    let read = Form {
        shown: &buf[..size],
        bytes: &buf,
    };
    println!(rt; "{n}:{read}")
}

fn show(rt: &impl Print, s: &[u8]) -> io::Result<()> {
    let read = Form { shown: s, bytes: s };
    println!(rt; "{read}")
}

fn main(rt: HostRuntime) -> io::Result<()> {
    let out = Output(&rt);
    for n in NUMBERS {
        written(&out, n)?;
    }
    show(&out, b"")?;
    show(&out, b"\x80")?;
    show(&out, b"\x80\x00")?;
    show(&out, b"\x81\x80\x00")?;
    show(&out, b"\xff\xff\xff\xff\xff\xff\xff\xff\xff\x02")?;
    show(&out, b"\xff\xff\xff\xff\xff\xff\xff\xff\xff\x81\x00")?;
    show(&out, b"\xff\xff\xff\xff\xff\xff\xff\xff\xff\xff")?;
    show(&out, b"\x80\x80\x80\x80\x80\x80\x80\x80\x80\x01")?;
    show(&out, b"\x7f\x09")?;
    show(&out, b"\x05")?;
    show(&out, b"\x80\x80\x80\x80\x80\x80\x80\x80\x80\x00")?;
    show(&out, b"\x80\x80\x80\x80\x80\x80\x80\x80\x80\x80\x01")
}
