// Coordinates and heights at the edge of the map, past it and not finite.
#![tactic(auto)]

use file_trials::{Count, Trials, Want};
use made_files::{bytes, eight, number, worked_map};

// Bits that are no number or infinite, past every height.
const NOT_FINITE: [u64; 6] = [
    0x7FF8000000000000,
    0x7FF0000000000001,
    0xFFF8000000000000,
    0x7FFFFFFFFFFFFFFF,
    0x7FF0000000000000,
    0xFFF0000000000000,
];

// Past 2^26 or below -2^26 by the least step, and far past it.
const OFF_THE_MAP: [u64; 3] = [0x4190000000000001, 0xC190000000000001, 0x7FEFFFFFFFFFFFFF];

// Those two edges, -0, the least double and the largest within the edge.
const ON_THE_MAP: [u64; 5] = [
    0x4190000000000000,
    0xC190000000000000,
    0x8000000000000000,
    1,
    0x418FFFFFFFFFFFFF,
];

// Each pattern at a place of a file.
fn patterns_at<F: Fn(&mut [u8]) -> usize>(
    trials: &mut Trials,
    patterns: &[u64],
    want: Want,
    make: F,
    at: usize,
)
    requires { F.IsAlwaysCallable make }
{
    for bits in patterns {
        trials.trial_made(want, |out| {
            let size = make(out);
            eight(out, at, *bits);
            size
        });
    }
}

// A coordinate is within 2^26.
fn coordinate_at<F: Fn(&mut [u8]) -> usize>(trials: &mut Trials, make: F, at: usize)
    requires { F.IsAlwaysCallable make }
{
    patterns_at(trials, &NOT_FINITE, Want::Refused, &make, at);
    patterns_at(trials, &OFF_THE_MAP, Want::Refused, &make, at);
    patterns_at(trials, &ON_THE_MAP, Want::Accepted, &make, at);
}

// A height is finite.
fn height_at<F: Fn(&mut [u8]) -> usize>(trials: &mut Trials, make: F, at: usize)
    requires { F.IsAlwaysCallable make }
{
    patterns_at(trials, &NOT_FINITE, Want::Refused, &make, at);
    patterns_at(trials, &OFF_THE_MAP, Want::Accepted, &make, at);
    patterns_at(trials, &ON_THE_MAP, Want::Accepted, &make, at);
}

// Where the coordinates of the worked map stand: of each of its two boundaries six.
const WORKED: [usize; 12] = [12, 20, 28, 36, 44, 52, 62, 70, 78, 86, 94, 102];

pub fn worked(trials: &mut Trials) -> Count {
    for at in WORKED {
        coordinate_at(trials, worked_map, at);
    }
    trials.counted()
}

// A map with one signal that has a height, at 10, and a bulb, whose position begins at 19.
fn signal_file(out: &mut [u8]) -> usize {
    let next = number(out, 0, 1000);
    let height = bytes(out, next, b"\x00\x00\x00\x01\x01\x00\x00\x01");
    let count = eight(out, height, 0);
    let x = number(out, count, 1);
    let y = eight(out, x, 0);
    let z = eight(out, y, 0);
    let color = eight(out, z, 0);
    bytes(out, color, b"\x00\x00\x00\x00")
}

pub fn signal(trials: &mut Trials) -> Count {
    height_at(trials, signal_file, 10);
    for at in [19, 27, 35] {
        coordinate_at(trials, signal_file, at);
    }
    trials.counted()
}
