// Files at each ceiling, and one past it.
#![tactic(auto)]

use file_trials::{Count, Trials, Want};
use made_files::sets::set;
use made_files::{bulbs, bytes, list, number, one_table, points, table};

// What stands in a map file around a list, behind the next number.
#[derive(Clone, Copy)]
struct Frame {
    before: &'static [u8],
    after: &'static [u8],
}

impl Frame {
    // The file; the list is written by a closure, from a place on.
    fn file<F: FnOnce(&mut [u8], usize) -> usize>(&self, out: &mut [u8], write: F) -> usize
        requires { F.IsAlwaysCallable write }
    {
        let next = number(out, 0, 1000);
        let at = bytes(out, next, self.before);
        let end = write(out, at);
        bytes(out, end, self.after)
    }
}

// Polylines: a lane's centreline, a boundary, a stop line, a housing, a crosswalk's left and right edge and outline, a sign's shape.
const LINES: [Frame; 8] = [
    Frame {
        before: b"\x01\x01\x00\x00\x00\x00\x00\x01",
        after: b"\x00\x00\x00\x00\x00",
    },
    Frame {
        before: b"\x00\x01\x01",
        after: b"\x00\x00\x00\x00",
    },
    Frame {
        before: b"\x00\x00\x01\x01",
        after: b"\x00\x00\x00",
    },
    Frame {
        before: b"\x00\x00\x00\x01\x01\x00",
        after: b"\x00\x00\x00\x00",
    },
    Frame {
        before: b"\x00\x00\x00\x00\x01\x01",
        after: b"\x00\x00\x00",
    },
    Frame {
        before: b"\x00\x00\x00\x00\x01\x01\x00",
        after: b"\x00\x00",
    },
    Frame {
        before: b"\x00\x00\x00\x00\x01\x01\x00\x00\x01",
        after: b"\x00",
    },
    Frame {
        before: b"\x00\x00\x00\x00\x00\x01\x01\x02\x01\x01",
        after: b"\x00\x00\x00",
    },
];

// Lists of a rule: a light's signals, who has priority, who yields, the lines of a right of way and of a crossing, lanes, controlled
// crosswalks.
const LISTS: [Frame; 7] = [
    Frame {
        before: b"\x00\x00\x00\x00\x00\x01\x01\x01",
        after: b"\x00\x00\x00",
    },
    Frame {
        before: b"\x00\x00\x00\x00\x00\x01\x01\x04",
        after: b"\x00\x00\x00\x00",
    },
    Frame {
        before: b"\x00\x00\x00\x00\x00\x01\x01\x04\x00",
        after: b"\x00\x00\x00",
    },
    Frame {
        before: b"\x00\x00\x00\x00\x00\x01\x01\x04\x00\x00",
        after: b"\x00\x00",
    },
    Frame {
        before: b"\x00\x00\x00\x00\x00\x01\x01\x05\x09",
        after: b"\x00\x00",
    },
    Frame {
        before: b"\x00\x00\x00\x00\x00\x01\x01\x06\x01",
        after: b"\x00",
    },
    Frame {
        before: b"\x00\x00\x00\x00\x00\x01\x01\x06\x01\x00",
        after: b"",
    },
];

const BULBS: Frame = Frame {
    before: b"\x00\x00\x00\x01\x01\x00\x00\x00",
    after: b"\x00\x00",
};

// How many records each table has room for.
const TABLES: [u64; 6] = [64, 128, 64, 64, 32, 128];

// A file at a ceiling, and one past it.
fn at_ceiling<F: Fn(&mut [u8], u64) -> usize>(trials: &mut Trials, most: u64, make: F)
    requires { F.IsAlwaysCallable make }
{
    trials.trial_made(Want::Accepted, |out| make(out, most));
    let more = most.saturating_add(1);
    trials.trial_made(Want::Refused, |out| make(out, more));
}

// Each table, polyline and list of a map.
pub fn maps(trials: &mut Trials) -> Count {
    for (kind, most) in (0..6).zip(TABLES) {
        at_ceiling(trials, most, |out, count| one_table(out, kind, count));
    }
    for line in LINES {
        at_ceiling(
            trials,
            64,
            |out, count| line.file(out, |out, at| points(out, at, count, 7)),
        );
    }
    for frame in LISTS {
        at_ceiling(
            trials,
            16,
            |out, count| frame.file(out, |out, at| list(out, at, count, 7)),
        );
    }
    at_ceiling(
        trials,
        4,
        |out, count| BULBS.file(out, |out, at| bulbs(out, at, count)),
    );
    trials.counted()
}

// So many lanes, boundaries, stop lines, signals and crosswalks. Boundaries have 64 points, crosswalks three, the others one.
fn points_file(out: &mut [u8], counts: [u64; 5]) -> usize {
    let mut next = number(out, 0, 1000);
    for (kind, count) in (0..5).zip(counts) {
        let each = if kind == 1 { 64 } else { 1 };
        next = table(out, next, kind, count, 1, each);
    }
    number(out, next, 0)
}

// 1,024 points, and one more of each kind.
pub fn points_in_all(trials: &mut Trials) -> Count {
    for counts in [[0, 16, 0, 0, 0], [20, 15, 20, 21, 1]] {
        trials.trial_made(Want::Accepted, |out| points_file(out, counts));
    }
    for counts in [
        [1, 16, 0, 0, 0],
        [0, 16, 1, 0, 0],
        [0, 16, 0, 1, 0],
        [21, 15, 20, 21, 1],
    ] {
        trials.trial_made(Want::Refused, |out| points_file(out, counts));
    }
    trials.counted()
}

// The lists of a set, and its warnings.
pub fn sets(trials: &mut Trials) -> Count {
    at_ceiling(trials, 512, |out, count| set(out, count, 0, 0, 0));
    at_ceiling(trials, 512, |out, count| set(out, 0, count, 0, 0));
    at_ceiling(trials, 512, |out, count| set(out, 0, 0, count, 0));
    at_ceiling(trials, 160, |out, count| set(out, 1, 0, 0, count));
    trials.counted()
}
