// IEEE 754's squareRoot at binary64, by whole numbers: on bit patterns, and on `f64`.
#![tactic(auto)]

ghost use Rattle.std.specs.Prelude.{◌≡◌, ◌+◌, ◌-◌, ◌*◌, ◌/◌, ◌^◌, ◌≤◌, ◌<◌};
ghost use Rattle.std.specs.Float.{binary64};
ghost use Rattle.std.specs.Float.Ieee.{of_bits, to_bits};
ghost use Rattle.root.specs.Whole.{IsRoot, Lengthened, Lengthens, Turned, Turns};
ghost use Rattle.root.specs.Root.{root_of, square_root};

// The highest digits of a root, `count` of them, as the number `root`. As many pairs of the radicand's digits are its square and `rest`;
// those not yet taken are `left`, at the top of 64.
#[derive(Drop)]
struct Prefix {
    root: u64,
    rest: u64,
    left: u64,
    count: u64,
}

// A root and what the radicand is above its square.
#[derive(Drop)]
struct Longer {
    root: u64,
    rest: u64,
}

// From the root r of r * r + rest the root of ((r * r + rest) * l + a) * l + b: one division gives the digits of l more.
fn lengthen(r: u64, rest: u64, l: u64, a: u64, b: u64) -> Longer
    requires { Lengthens r rest l a b }
    ensures { Lengthened r rest l a b result.root result.rest }
{
    let n = rest * l + a;
    let d = r * 2;
    let q = n / d;
    let v = n % d * l + b;
    let s = r * l + q;
    // that number is s * s + v - q * q, so that its root is s or one lower
    let over = (v < q * q) as u64;
    Longer {
        root: s - over,
        rest: v + (s * 2 - 1) * over - q * q,
    }
}

// One turn: as many digits more as make `count`, at most twice as many as there are.
fn turn(t: Prefix, count: u64) -> Prefix
    requires { Turns t.root t.rest t.count count }
    ensures { Turned t.root t.rest t.left t.count result.root result.rest result.left result.count × (result.count ≡ count) }
{
    let more = count - t.count;
    let up = 64 - more;
    let left = t.left;
    let low = left << more;
    let next = lengthen(t.root, t.rest, 1 << more, left >> up, low >> up);
    Prefix {
        root: next.root,
        rest: next.rest,
        left: low << more,
        count,
    }
}

// The whole part of the root of m * 2 ^ 54. Its 54 digits come out of one loop, which begins with the first, always 1, and whose turns
// make 2, 4, 7, 14, 27 and 54 of them: no number that is divided but the last has more than 32 digits.
fn whole_root(m: u64) -> u64
    requires { (2 ^ 52 ≤ m) × (m < 2 ^ 54) }
    ensures { IsRoot (m * 2 ^ 54) result }
{
    let w = m * 1024;
    let mut t = Prefix {
        root: 1,
        rest: (w >> 62) - 1,
        left: w << 2,
        count: 1,
    };
    for turns in (0..6u64).rev() {
        t = turn(t, (53 >> turns) + 1);
    }
    t.root
}

// The pattern of the root of m * 2 ^ a / 2 ^ 2148, for an m whose top digit is 2 ^ 52. The root has 54
// digits before the point, once m is at an even power of two; the last of them is half a unit of the
// result, and the root is never half-way between two values.
fn root_pattern(m: u64, a: u64) -> u64
    requires { (2 ^ 52 ≤ m) × (m < 2 ^ 53) × (1000 ≤ a) × (a < 4000) }
    ensures { result ≡ to_bits binary64 (root_of (m * 2 ^ a)) }
{
    let even = m * (1 + a % 2);
    let root = whole_root(even);
    (a / 2 - 26) * 4503599627370496 + (root + 1) / 2
}

// squareRoot on bit patterns.
#[unsafe(no_mangle)]
pub extern "C" fn square_root_bits(b: u64) -> u64
    ensures { result ≡ to_bits binary64 (square_root (of_bits binary64 b)) }
{
    if b == 0 {
        return b;
    }
    if b == 0x8000_0000_0000_0000 {
        return b;
    }
    if b == 0x7FF0_0000_0000_0000 {
        return b;
    }
    if b > 0x7FF0_0000_0000_0000 {
        return 0x7FF8_0000_0000_0000;
    }
    let field = b / 4503599627370496;
    if field == 0 {
        let up = u64::leading_zeros(b) as u64 - 11;
        root_pattern(b << up, 1074 - up)
    } else {
        root_pattern(b % 4503599627370496 + 4503599627370496, 1073 + field)
    }
}

#[unsafe(no_mangle)]
pub extern "C" fn square_root(x: f64) -> f64
    ensures { result ≡ square_root x }
{
    if x != x {
        return 0.0 / 0.0;
    }
    let r = square_root_bits(f64::to_bits(x));
    if r == 0x7FF8_0000_0000_0000 {
        return 0.0 / 0.0;
    }
    f64::from_bits(r)
}
