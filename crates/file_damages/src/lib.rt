// Files damaged: cut short, a byte changed, a number in a longer form, bytes left over; and buffers too short to write to.
#![tactic(auto)]

use file_trials::{Count, Trials, Want};
use made_files::{bytes, part, put};
use std::fmt;

// A class of damage.
#[derive(Clone, Copy)]
pub enum Damage {
    CutShort,
    Changed,
    Longer,
    LeftOver,
    ShortBuffer,
}

// The classes in their order.
impl From<u64> for Damage {
    fn from(number: u64) -> Damage {
        match number {
            0 => Damage::CutShort,
            1 => Damage::Changed,
            2 => Damage::Longer,
            3 => Damage::LeftOver,
            _ => Damage::ShortBuffer,
        }
    }
}

impl fmt::Display for Damage {
    fn fmt<W: fmt::Write>(&self, f: &mut fmt::Formatter<W>) -> fmt::Result {
        f.write_str(match self {
            Damage::CutShort => "cut short",
            Damage::Changed => "a byte changed",
            Damage::Longer => "a longer number",
            Damage::LeftOver => "a byte left over",
            Damage::ShortBuffer => "written to short buffers",
        })
    }
}

// A file of which every place is tried.
fn is_small(file: &[u8]) -> bool {
    file.len() < 1000
}

// All places of a small file; of a large one every 97th, and those near its end. The driver of files outside the gate tries all.
fn is_tried(file: &[u8], i: usize) -> bool {
    is_small(file) || file.len() < i.saturating_add(100) || i % 97 == 0
}

// A file cut short is no file.
fn cut_short(file: &[u8], trials: &mut Trials) {
    for size in 0..file.len() {
        if is_tried(file, size) {
            trials.trial(&file[..size], Want::Refused);
        }
    }
}

// Whether bit k of byte i is changed: in a small file each bit of each, in a large one a bit here and there.
fn is_changed(file: &[u8], i: usize, k: u32) -> bool {
    is_small(file) || i % 31 == 0 && i % 8 == k as usize
}

// A byte changed.
fn changed(file: &[u8], trials: &mut Trials) {
    for (i, byte) in file.iter().enumerate() {
        for k in 0..8 {
            if is_changed(file, i, k) {
                trials.trial_made(Want::Either, |out| {
                    let size = bytes(out, 0, file);
                    put(out, i, *byte ^ (1 << k));
                    size
                });
            }
        }
    }
}

// Groups more, the last of them zero: one, two, nine or ten.
const GROUPS: [&[u8]; 4] = [
    b"\x00",
    b"\x80\x00",
    b"\x80\x80\x80\x80\x80\x80\x80\x80\x00",
    b"\x80\x80\x80\x80\x80\x80\x80\x80\x80\x00",
];

// A longer form is no number. In a set all bytes are numbers', in the worked map, of 114 bytes, all but its coordinates'.
fn wanted_longer(file: &[u8], i: usize, is_set: bool) -> Want {
    let is_number = file.len() == 114 && matches!(i, 0..12 | 60 | 61 | 110..);
    if is_set || is_number {
        Want::Refused
    } else {
        Want::Either
    }
}

// Numbers in longer forms: of two groups, three, ten and eleven.
fn longer(file: &[u8], trials: &mut Trials) {
    let is_set = trials.is_of_sets();
    for (i, byte) in file.iter().enumerate() {
        if is_tried(file, i) {
            for groups in GROUPS {
                trials.trial_made(wanted_longer(file, i, is_set), |out| {
                    let first = part(out, 0, file, 0, i);
                    let begun = put(out, first, *byte | 128);
                    let rest = bytes(out, begun, groups);
                    part(out, rest, file, i + 1, file.len())
                });
            }
        }
    }
}

// A whole file, then the same with each byte after it.
fn left_over(file: &[u8], trials: &mut Trials) {
    trials.trial(file, Want::Accepted);
    for byte in 0..=u8::MAX {
        trials.trial_made(Want::Refused, |out| {
            let size = bytes(out, 0, file);
            put(out, size, byte)
        });
    }
}

// A file read, and written to buffers of each size up to 20 bytes more than it has.
fn short_buffers(file: &[u8], trials: &mut Trials) {
    trials.trial(file, Want::Accepted);
    for size in 0..file.len().saturating_add(20) {
        if is_tried(file, size) {
            trials.trial_written(file, size);
        }
    }
}

// One class of damage, and what came of it. A match: the classes have no more in common than what they are given.
pub fn damaged(damage: Damage, file: &[u8], trials: &mut Trials) -> Count {
    match damage {
        Damage::CutShort => cut_short(file, trials),
        Damage::Changed => changed(file, trials),
        Damage::Longer => longer(file, trials),
        Damage::LeftOver => left_over(file, trials),
        Damage::ShortBuffer => short_buffers(file, trials),
    }
    trials.counted()
}
