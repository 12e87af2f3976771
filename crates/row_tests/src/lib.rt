// The tests of one row: whether its kinds, flags, counts and coordinates are those of a record. A row is told by its two places in
// the two slices that C lends, and a kind by any number that stands there: a struct of both would be taken apart in each test.
#![tactic(auto)]

ghost use Rattle.std.specs.Prelude.{◌≡◌, ◌&&◌, ◌+◌, ◌*◌, ◌≤◌, ◌<◌, length, get_or};
ghost use Rattle.rows.specs.Lists.{every};
ghost use Rattle.rows.specs.Rows.{cut};
ghost use Rattle.row_tests.specs.Flat.{good_coord, good_line, good_lane, good_string, good_bulb, good_bulbs, good_height, good_signal, good_crosswalk, good_body, good_rule};

const FARTHEST: f64 = 67108864.0;

// A coordinate at most 2 ^ 26 in size. No NaN and no infinity passes.
pub fn coord_ok(x: f64) -> bool
    ensures { result ≡ good_coord x }
{
    if x <= FARTHEST {
        return -FARTHEST <= x;
    }
    false
}

fn both(a: bool, b: bool) -> bool
    ensures { result ≡ (a && b) }
{
    if a {
        return b;
    }
    false
}

// The n coordinates from index at on. Nearly always all are good: a loop without a way out is several at a time.
pub fn coords_ok(coords: &[f64], at: usize, n: usize) -> bool
    requires { at + n ≤ length coords.now }
    ensures { result ≡ every good_coord (cut coords.now at n) }
{
    let part = &coords[at..at + n];
    let mut good = true;
    for x in part {
        good = both(good, coord_ok(*x));
    }
    good
}

// A polyline of n points, from index at on: there is room for 64.
pub fn line_ok(coords: &[f64], at: usize, n: u64) -> bool
    requires { at + 192 ≤ length coords.now }
    ensures { result ≡ good_line coords.now at n }
{
    if 64 < n {
        return false;
    }
    coords_ok(coords, at, rows::index(n) * 3)
}

// A lane, whose words begin at index at and its coordinates at o.
pub fn lane_ok(words: &[u64], coords: &[f64], at: usize, o: usize) -> bool
    requires { (at + 8 ≤ length words.now) × (o + 192 ≤ length coords.now) }
    ensures { result ≡ good_lane words.now coords.now at o }
{
    if 8 <= words[at + 1] {
        return false;
    }
    if words[at + 6] == 0 {
        return true;
    }
    line_ok(coords, o, words[at + 7])
}

// A boundary or a stop line.
pub fn string_ok(words: &[u64], coords: &[f64], at: usize, o: usize) -> bool
    requires { (at + 2 ≤ length words.now) × (o + 192 ≤ length coords.now) }
    ensures { result ≡ good_string words.now coords.now at o }
{
    line_ok(coords, o, words[at + 1])
}

// Bulb j of a signal.
pub fn bulb_ok(words: &[u64], coords: &[f64], at: usize, o: usize, j: usize) -> bool
    requires { (at + 13 ≤ length words.now) × (o + 205 ≤ length coords.now) × (j < 4) }
    ensures { result ≡ good_bulb words.now coords.now at o j }
{
    if 4 <= words[at + 5 + j * 2] {
        return false;
    }
    if 9 <= words[at + 6 + j * 2] {
        return false;
    }
    coords_ok(coords, o + 193 + j * 3, 3)
}

pub fn bulbs_ok(words: &[u64], coords: &[f64], at: usize, o: usize) -> bool
    requires { (at + 13 ≤ length words.now) × (o + 205 ≤ length coords.now) }
    ensures { result ≡ good_bulbs words.now coords.now at o }
{
    let n = rows::index(words[at + 4]);
    if 4 < n {
        return false;
    }
    for j in 0..n {
        if !bulb_ok(words, coords, at, o, j) {
            return false;
        }
    }
    true
}

pub fn height_ok(words: &[u64], coords: &[f64], at: usize, o: usize) -> bool
    requires { (at + 13 ≤ length words.now) × (o + 205 ≤ length coords.now) }
    ensures { result ≡ good_height words.now coords.now at o }
{
    if words[at + 3] == 0 {
        return true;
    }
    geometry::double::is_finite(coords[o + 192])
}

pub fn signal_ok(words: &[u64], coords: &[f64], at: usize, o: usize) -> bool
    requires { (at + 13 ≤ length words.now) × (o + 205 ≤ length coords.now) }
    ensures { result ≡ good_signal words.now coords.now at o }
{
    if 2 <= words[at + 1] {
        return false;
    }
    if !line_ok(coords, o, words[at + 2]) {
        return false;
    }
    if !height_ok(words, coords, at, o) {
        return false;
    }
    bulbs_ok(words, coords, at, o)
}

pub fn crosswalk_ok(words: &[u64], coords: &[f64], at: usize, o: usize) -> bool
    requires { (at + 5 ≤ length words.now) × (o + 576 ≤ length coords.now) }
    ensures { result ≡ good_crosswalk words.now coords.now at o }
{
    if !line_ok(coords, o, words[at + 1]) {
        return false;
    }
    if !line_ok(coords, o + 192, words[at + 2]) {
        return false;
    }
    if words[at + 3] == 0 {
        return true;
    }
    line_ok(coords, o + 384, words[at + 4])
}

// A sign's type and shape.
pub fn sign_ok(words: &[u64], coords: &[f64], at: usize, o: usize) -> bool
    requires { (at + 92 ≤ length words.now) × (o + 192 ≤ length coords.now) }
    ensures { result ≡ good_body 2 words.now coords.now at o }
{
    if words[at + 2] < 1 {
        return false;
    }
    if words[at + 5] == 0 {
        return true;
    }
    line_ok(coords, o, words[at + 6])
}

// The three lists of a right of way.
pub fn right_of_way_ok(words: &[u64], coords: &[f64], at: usize, o: usize) -> bool
    requires { at + 92 ≤ length words.now }
    ensures { result ≡ good_body 4 words.now coords.now at o }
{
    if 16 < words[at + 41] {
        return false;
    }
    if 16 < words[at + 58] {
        return false;
    }
    words[at + 75] <= 16
}

// A rule's fields, by its kind.
pub fn body_ok(words: &[u64], coords: &[f64], at: usize, o: usize) -> bool
    requires { (at + 92 ≤ length words.now) × (o + 192 ≤ length coords.now) }
    ensures { result ≡ good_body (get_or words.now (at + 1) 0) words.now coords.now at o }
{
    let kind = words[at + 1];
    match kind {
        1 => words[at + 41] <= 16,
        2 => sign_ok(words, coords, at, o),
        3 => true,
        4 => right_of_way_ok(words, coords, at, o),
        5 => words[at + 75] <= 16,
        6 => 1 <= words[at + 2],
        _ => false,
    }
}

pub fn rule_ok(words: &[u64], coords: &[f64], at: usize, o: usize) -> bool
    requires { (at + 92 ≤ length words.now) × (o + 192 ≤ length coords.now) }
    ensures { result ≡ good_rule words.now coords.now at o }
{
    if 16 < words[at + 7] {
        return false;
    }
    if 16 < words[at + 24] {
        return false;
    }
    body_ok(words, coords, at, o)
}
