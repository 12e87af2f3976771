// Whether two slices are the tables of a map: one tight pass over what the counts say.
#![tactic(auto)]

ghost use Rattle.std.specs.Prelude.{◌≡◌, ◌&&◌, not, cond, eqb, ◌+◌, ◌*◌, ◌≤◌, ◌<◌, length};
ghost use Rattle.store.specs.Kinds.{kind_number};
ghost use Rattle.store.specs.Layout.{Sized, SizedWords, count_of, limit_of, all_words};
ghost use Rattle.map.specs.Tables.{is_map_tables};
ghost use Rattle.row_tests.specs.Flat.{good_row, good_rows, good_table, good_tables, good_counts, crosswalk_points, row_points, table_points, all_points, Few};

use store::Kind;

// Row i of kind k.
#[tactic(auto, using(crate::proofs::Within::row_room), unfolding(store::specs::Layout::width_of, store::specs::Layout::coord_width_of))]
pub fn row_ok(words: &[u64], coords: &[f64], k: Kind, i: usize) -> bool
    requires { Sized words.now coords.now × (i < count_of words.now (kind_number k)) }
    ensures { result ≡ good_row (kind_number k) words.now coords.now i }
{
    // the kind of each arm is a constant, and so are the numbers of its layout
    match k {
        Kind::Lane => {
            let at = Kind::Lane.place(i);
            let o = Kind::Lane.coord_place(i);
            row_tests::lane_ok(words, coords, at, o)
        }
        Kind::Boundary => {
            let at = Kind::Boundary.place(i);
            let o = Kind::Boundary.coord_place(i);
            row_tests::string_ok(words, coords, at, o)
        }
        Kind::StopLine => {
            let at = Kind::StopLine.place(i);
            let o = Kind::StopLine.coord_place(i);
            row_tests::string_ok(words, coords, at, o)
        }
        Kind::Signal => {
            let at = Kind::Signal.place(i);
            let o = Kind::Signal.coord_place(i);
            row_tests::signal_ok(words, coords, at, o)
        }
        Kind::Crosswalk => {
            let at = Kind::Crosswalk.place(i);
            let o = Kind::Crosswalk.coord_place(i);
            row_tests::crosswalk_ok(words, coords, at, o)
        }
        Kind::Rule => {
            let at = Kind::Rule.place(i);
            let o = Kind::Rule.coord_place(i);
            row_tests::rule_ok(words, coords, at, o)
        }
    }
}

// All rows of kind k.
pub fn rows_ok(words: &[u64], coords: &[f64], k: Kind) -> bool
    requires { Sized words.now coords.now }
    ensures { result ≡ good_rows words.now coords.now (kind_number k) }
{
    let n = store::count(words, k);
    for i in 0..n {
        if !row_ok(words, coords, k, i) {
            return false;
        }
    }
    true
}

// The numbers of kind k rise and are below the next number, and its rows are right.
pub fn table_ok(words: &[u64], coords: &[f64], k: Kind) -> bool
    requires { Sized words.now coords.now }
    ensures { result ≡ good_table words.now coords.now (kind_number k) }
{
    let n = store::count(words, k);
    let next = store::next(words);
    rows::rising(words, k.base(), k.width(), n, next) && rows_ok(words, coords, k)
}

pub fn tables_ok(words: &[u64], coords: &[f64]) -> bool
    requires { Sized words.now coords.now }
    ensures { result ≡ good_tables words.now coords.now }
{
    for k in Kind::ALL {
        if !table_ok(words, coords, k) {
            return false;
        }
    }
    true
}

// No count is above its kind's room.
pub fn counts_ok(words: &[u64]) -> bool
    requires { length words.now ≡ all_words }
    ensures { result ≡ good_counts words.now }
{
    for k in Kind::ALL {
        if (k.limit() as u64) < words[k.count_at()] {
            return false;
        }
    }
    true
}

// The points of a polyline that is there where the flag says so.
fn points_if(flag: u64, n: u64) -> u64
    ensures { result ≡ cond (not (eqb flag 0)) n 0 }
{
    if flag == 0 {
        return 0;
    }
    n
}

// The points of a rule's shape: only a sign has one.
fn sign_points(kind: u64, flag: u64, n: u64) -> u64
    ensures { result ≡ cond (eqb kind 2 && not (eqb flag 0)) n 0 }
{
    if kind == 2 {
        return points_if(flag, n);
    }
    0
}

// The points of a crosswalk's edges and outline, whose words begin at index at.
fn crosswalk_points(words: &[u64], at: usize) -> u64
    requires { (at + 5 ≤ length words.now) × (crosswalk_points words.now at ≤ 192) }
    ensures { result ≡ crosswalk_points words.now at }
{
    let outline = points_if(words[at + 3], words[at + 4]);
    words[at + 1] + words[at + 2] + outline
}

// The points of row i of kind k.
#[tactic(auto, using(crate::proofs::Within::word_room), unfolding(store::specs::Layout::width_of))]
pub fn row_points(words: &[u64], k: Kind, i: usize) -> u64
    requires { SizedWords words.now × (i < count_of words.now (kind_number k)) × (row_points (kind_number k) words.now i ≤ 192) }
    ensures { result ≡ row_points (kind_number k) words.now i }
{
    match k {
        Kind::Lane => {
            let at = Kind::Lane.place(i);
            points_if(words[at + 6], words[at + 7])
        }
        Kind::Boundary => {
            let at = Kind::Boundary.place(i);
            words[at + 1]
        }
        Kind::StopLine => {
            let at = Kind::StopLine.place(i);
            words[at + 1]
        }
        Kind::Signal => {
            let at = Kind::Signal.place(i);
            words[at + 2]
        }
        Kind::Crosswalk => {
            let at = Kind::Crosswalk.place(i);
            crosswalk_points(words, at)
        }
        Kind::Rule => {
            let at = Kind::Rule.place(i);
            sign_points(words[at + 1], words[at + 5], words[at + 6])
        }
    }
}

// The points of all rows of kind k.
pub fn table_points(words: &[u64], k: Kind) -> u64
    requires { SizedWords words.now × Few words.now }
    ensures { result ≡ table_points words.now (kind_number k) }
{
    let n = store::count(words, k);
    let mut sum = 0;
    for i in 0..n {
        sum += row_points(words, k, i);
    }
    sum
}

// The points in use, bulbs apart.
pub fn points_used(words: &[u64]) -> u64
    requires { SizedWords words.now × Few words.now }
    ensures { result ≡ all_points words.now }
{
    let mut sum = 0;
    for k in Kind::ALL {
        sum += table_points(words, k);
    }
    sum
}

// Whether the slices are the tables of a map: their lengths, and the map that they stand for has a
// map file. The counts come first, so that no read goes astray.
pub fn is_map(words: &[u64], coords: &[f64]) -> bool
    ensures { result ≡ is_map_tables words.now coords.now }
{
    if words.len() != store::layout::WORDS {
        return false;
    }
    if coords.len() != store::layout::COORDS {
        return false;
    }
    if !counts_ok(words) {
        return false;
    }
    if !tables_ok(words, coords) {
        return false;
    }
    points_used(words) <= 1024
}
