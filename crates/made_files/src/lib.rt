// Map files and set files made byte by byte, for the programs that try them: nothing of the proved writers is used. What a
// file holds is shown by the programs; proved is that every call is safe and ends. A byte past the room is left out.
#![tactic(auto)]

pub mod sets;

pub fn get(s: &[u8], i: usize) -> u8 {
    s.get(i).copied().unwrap_or(0)
}

// A byte; the place after it.
pub fn put(out: &mut [u8], at: usize, b: u8) -> usize {
    let Some(byte) = out.get_mut(at) else {
        return at;
    };
    *byte = b;
    at + 1
}

pub fn low(n: u64) -> u8 {
    (n % 256) as u8
}

// The bytes of s from a up to e; zeros past its end.
pub fn part(out: &mut [u8], at: usize, s: &[u8], a: usize, e: usize) -> usize {
    let end = e.min(s.len());
    let mut next = bytes(out, at, s.get(a..end).unwrap_or(&[]));
    for _ in a.max(end)..e {
        next = put(out, next, 0);
    }
    next
}

// Bytes copied, as many as there is room for: whole files too.
pub fn bytes(out: &mut [u8], at: usize, s: &[u8]) -> usize {
    let Some(room) = out.get_mut(at..) else {
        return at;
    };
    let size = s.len().min(room.len());
    room[..size].copy_from_slice(&s[..size]);
    at + size
}

// A whole number in groups of seven bits.
pub fn number(out: &mut [u8], at: usize, n: u64) -> usize {
    let mut rest = n;
    let mut next = at;
    while 128 <= rest {
        next = put(out, next, low(128 + rest % 128));
        rest /= 128;
    }
    put(out, next, low(rest))
}

// Eight bytes, low byte first.
pub fn eight(out: &mut [u8], at: usize, bits: u64) -> usize {
    bytes(out, at, &bits.to_le_bytes())
}

// A coordinate on the map, another for each seed.
fn coordinate(out: &mut [u8], at: usize, seed: u64) -> usize {
    let mixed = (seed << 55) ^ (seed << 41) ^ (seed << 17) ^ seed;
    eight(out, at, 0x4000000000000000 | (mixed & 0x80FFFFFFFFFFFFFF))
}

fn point(out: &mut [u8], at: usize, seed: u64) -> usize {
    let x = coordinate(out, at, seed << 2);
    let y = coordinate(out, x, (seed << 2) | 1);
    coordinate(out, y, (seed << 2) | 2)
}

// A list: its count, then the items, each by its index.
pub(crate) fn items<F: Fn(&mut [u8], usize, u64) -> usize>(
    out: &mut [u8],
    at: usize,
    n: u64,
    item: F,
) -> usize
    requires { F.IsAlwaysCallable item }
{
    let mut next = number(out, at, n);
    for i in 0..n {
        next = item(out, next, i);
    }
    next
}

// A polyline of n points.
pub fn points(out: &mut [u8], at: usize, n: u64, seed: u64) -> usize {
    let first = seed << 6;
    items(
        out,
        at,
        n,
        |out, next, i| point(out, next, first.wrapping_add(i)),
    )
}

// The same as an option; none where there are no points.
fn option_points(out: &mut [u8], at: usize, n: u64, seed: u64) -> usize {
    if n == 0 {
        return number(out, at, 0);
    }
    let next = number(out, at, 1);
    points(out, next, n, seed)
}

// A list of n numbers, from `first` on.
pub fn list(out: &mut [u8], at: usize, n: u64, first: u64) -> usize {
    items(
        out,
        at,
        n,
        |out, next, i| number(out, next, first.wrapping_add(i)),
    )
}

// A bulb of colour n % 4 and arrow n % 9.
fn bulb(out: &mut [u8], at: usize, n: u64) -> usize {
    let position = point(out, at, n);
    let color = number(out, position, n % 4);
    number(out, color, n % 9)
}

pub fn bulbs(out: &mut [u8], at: usize, n: u64) -> usize {
    items(out, at, n, bulb)
}

// ---- records of number n. With p points or entries each where p is not 0, else as short as can be.

fn lane(out: &mut [u8], at: usize, n: u64, p: u64) -> usize {
    let kind = number(out, at, n);
    let left = number(out, kind, n % 8);
    let left_reversed = number(out, left, n);
    let right = number(out, left_reversed, n % 2);
    let right_reversed = number(out, right, n / 2);
    let centerline = number(out, right_reversed, 1 - n % 2);
    option_points(out, centerline, p, n)
}

fn line(out: &mut [u8], at: usize, n: u64, p: u64) -> usize {
    let next = number(out, at, n);
    points(out, next, p, n)
}

fn signal(out: &mut [u8], at: usize, n: u64, p: u64) -> usize {
    let kind = number(out, at, n);
    let housing = number(out, kind, n % 2);
    let height = points(out, housing, p, n);
    if p == 0 {
        return bytes(out, height, b"\x00\x00");
    }
    let given = number(out, height, 1);
    let lamps = coordinate(out, given, n);
    bulbs(out, lamps, 4)
}

fn crosswalk(out: &mut [u8], at: usize, n: u64, p: u64) -> usize {
    let left = number(out, at, n);
    let right = points(out, left, p, n);
    let outline = points(out, right, p, n / 2);
    option_points(out, outline, p, n / 3)
}

// The fields of a rule of a kind from 1 to 6.
fn rule_fields(out: &mut [u8], at: usize, kind: u64, n: u64, p: u64) -> usize {
    if kind == 1 {
        let line = list(out, at, p, n);
        let given = number(out, line, 1);
        return number(out, given, n);
    }
    if kind == 2 {
        return bytes(out, at, b"\x01\x01\x00\x01\x07");
    }
    if kind == 4 {
        let yielding = list(out, at, p, 1);
        let lines = list(out, yielding, p, n);
        return list(out, lines, p, 200);
    }
    let next = number(out, at, 1 + n % 1000);
    if kind == 5 {
        return list(out, next, p, n);
    }
    next
}

fn rule(out: &mut [u8], at: usize, n: u64, p: u64) -> usize {
    let kind = number(out, at, n);
    let fields = number(out, kind, 1 + n % 6);
    let lanes = rule_fields(out, fields, 1 + n % 6, n, p);
    let crosswalks = list(out, lanes, p, 1);
    list(out, crosswalks, p, 300)
}

// A record of kind k: 0 lane, 1 boundary, 2 stop line, 3 signal, 4 crosswalk, 5 rule.
fn record(out: &mut [u8], at: usize, k: u64, n: u64, p: u64) -> usize {
    match k {
        0 => lane(out, at, n, p),
        1 => line(out, at, n, p),
        2 => line(out, at, n, p),
        3 => signal(out, at, n, p),
        4 => crosswalk(out, at, n, p),
        _ => rule(out, at, n, p),
    }
}

// A table of so many records, their numbers from `first` on.
pub fn table(out: &mut [u8], at: usize, k: u64, count: u64, first: u64, p: u64) -> usize {
    items(
        out,
        at,
        count,
        |out, next, i| record(out, next, k, first.wrapping_add(i), p),
    )
}

// A map file with so many short records of kind k, and none else.
pub fn one_table(out: &mut [u8], k: u64, count: u64) -> usize {
    let mut next = number(out, 0, 1000);
    for t in 0..6 {
        let n = if t == k { count } else { 0 };
        next = table(out, next, t, n, 1, 0);
    }
    next
}

// The map file with records of all kinds, a few of each.
pub fn small_map(out: &mut [u8]) -> usize {
    let lanes = number(out, 0, 200);
    let boundaries = table(out, lanes, 0, 2, 3, 1);
    let lines = table(out, boundaries, 1, 1, 1, 1);
    let signals = table(out, lines, 2, 1, 9, 0);
    let crosswalks = table(out, signals, 3, 1, 10, 0);
    let rules = table(out, crosswalks, 4, 1, 127, 1);
    table(out, rules, 5, 6, 128, 1)
}

// The map file with every table, the lists of every rule and the points in all at their ceilings.
pub fn full_map(out: &mut [u8]) -> usize {
    let lanes = number(out, 0, 481);
    let boundaries = table(out, lanes, 0, 64, 1, 2);
    let lines = table(out, boundaries, 1, 128, 65, 2);
    let signals = table(out, lines, 2, 64, 193, 5);
    let crosswalks = table(out, signals, 3, 64, 257, 2);
    let rules = table(out, crosswalks, 4, 32, 321, 2);
    table(out, rules, 5, 128, 353, 16)
}

// A boundary of two points, from x = 0 to x = 10, at the y of these bits.
fn side(out: &mut [u8], at: usize, n: u64, y: u64) -> usize {
    let count = number(out, at, n);
    let x = number(out, count, 2);
    let a = eight(out, x, 0);
    let b = eight(out, a, y);
    let c = eight(out, b, 0);
    let d = eight(out, c, 0x4024000000000000);
    let e = eight(out, d, y);
    eight(out, e, 0)
}

// The map file of the worked crossings: 114 bytes, with coordinates from 12 to 60 and from 62 to 110.
pub fn worked_map(out: &mut [u8]) -> usize {
    let a = bytes(out, 0, b"\x04\x01\x03\x00\x01\x00\x02\x00\x00\x02");
    let b = side(out, a, 1, 0x4000000000000000);
    let c = side(out, b, 2, 0xC000000000000000);
    bytes(out, c, b"\x00\x00\x00\x00")
}

// The file of a number: 0 to 2 maps, 3 and 4 sets.
pub fn made(file: &mut [u8], k: u64) -> usize {
    match k {
        0 => worked_map(file),
        1 => small_map(file),
        2 => full_map(file),
        3 => sets::worked_set(file),
        _ => sets::set(file, 512, 512, 512, 160),
    }
}
