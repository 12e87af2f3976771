// A side of a lane, and its centreline.
ghost use Rattle.std.specs.Prelude.{◌≡◌, false, ◌*◌, ◌/◌, ◌≤◌, length, take, None, Some};
ghost use Rattle.geometry.specs.Polyline.{polyline_of};
ghost use Rattle.centerline.specs.Line.{points_of};
ghost use Rattle.map.specs.Lookup.{oriented};
ghost use Rattle.map.specs.Tables.{map_of};
ghost use Rattle.place.specs.Place.{between, lane_centerline};
ghost use Rattle.place.specs.Readable.{Readable};
ghost use Rattle.place.specs.Values.{maybe_line, Roomy, LineRead, side_of, between_sides};

use crate::MaybeLine;
use centerline::Line;
use map::{LaneRow, lookup};
use store::Kind;

// The points of a slice of coordinates, by value.
pub fn copied(cs: &[f64]) -> Line
    requires { length cs.now / 3 ≤ 64 }
    ensures { points_of result ≡ polyline_of cs.now }
{
    let count = cs.len() / 3;
    let e = count * 3;
    let mut coords = [0.0; 192];
    rows::put(&mut coords, 0, &cs[..e]);
    Line { coords, count }
}

pub fn absent() -> MaybeLine
    ensures { LineRead None result }
{
    MaybeLine {
        there: false,
        line: centerline::empty(),
    }
}

// A boundary's points along the lane.
#[tactic(auto, using(crate::proofs::LineLaws::oriented_none, crate::proofs::LineLaws::boundary_word, crate::proofs::LineLaws::boundary_part))]
pub fn oriented(words: &[u64], coords: &[f64], number: u64, reversed: bool) -> MaybeLine
    requires { Readable words.now coords.now }
    ensures { LineRead (oriented (map_of words.now coords.now) (side_of number reversed)) result }
{
    let Some(i) = lookup::find(words, Kind::Boundary, number) else {
        return absent();
    };
    let n = rows::index(lookup::word(words, Kind::Boundary, i, 1));
    let cs = lookup::points(coords, Kind::Boundary, i, 0, n);
    if reversed {
        return MaybeLine {
            there: true,
            line: centerline::reversed::reversed(cs),
        };
    }
    MaybeLine {
        there: true,
        line: copied(cs),
    }
}

// The line between two sides.
#[tactic(auto, using(crate::proofs::LineLaws::between_none, crate::proofs::LineLaws::no_left, crate::proofs::LineLaws::no_right))]
fn between(a: MaybeLine, b: MaybeLine) -> MaybeLine
    requires { Roomy a.line × Roomy b.line }
    ensures { LineRead (between (maybe_line a) (maybe_line b)) result }
{
    if !a.there || !b.there {
        return absent();
    }
    let e = a.line.count * 3;
    let f = b.line.count * 3;
    match centerline::middle::centerline(&a.line.coords[..e], &b.line.coords[..f]) {
        Some(line) => MaybeLine { there: true, line },
        None => absent(),
    }
}

// The line between a lane's sides, of which one at least runs against it.
fn between_turned(words: &[u64], coords: &[f64], row: LaneRow) -> MaybeLine
    requires { Readable words.now coords.now }
    ensures { LineRead (between_sides (map_of words.now coords.now) row) result }
{
    let a = oriented(words, coords, row.left, row.left_reversed);
    let b = oriented(words, coords, row.right, row.right_reversed);
    between(a, b)
}

// The line between two boundaries that run along the lane: they are read where they stand.
#[tactic(auto, using(crate::proofs::LineLaws::along_no_left, crate::proofs::LineLaws::along_no_right, crate::proofs::LineLaws::boundary_word, crate::proofs::LineLaws::boundary_part, crate::proofs::LineLaws::stands_along, crate::proofs::LineLaws::along_none))]
fn between_along(words: &[u64], coords: &[f64], left: u64, right: u64) -> MaybeLine
    requires { Readable words.now coords.now }
    ensures { LineRead (between (oriented (map_of words.now coords.now) (side_of left false)) (oriented (map_of words.now coords.now) (side_of right false))) result }
{
    let Some(i) = lookup::find(words, Kind::Boundary, left) else {
        return absent();
    };
    let Some(j) = lookup::find(words, Kind::Boundary, right) else {
        return absent();
    };
    let n = rows::index(lookup::word(words, Kind::Boundary, i, 1));
    let m = rows::index(lookup::word(words, Kind::Boundary, j, 1));
    let a = lookup::points(coords, Kind::Boundary, i, 0, n);
    let b = lookup::points(coords, Kind::Boundary, j, 0, m);
    match centerline::middle::centerline(a, b) {
        Some(line) => MaybeLine { there: true, line },
        None => absent(),
    }
}

fn between_sides(words: &[u64], coords: &[f64], row: LaneRow) -> MaybeLine
    requires { Readable words.now coords.now }
    ensures { LineRead (between_sides (map_of words.now coords.now) row) result }
{
    if row.left_reversed || row.right_reversed {
        return between_turned(words, coords, row);
    }
    between_along(words, coords, row.left, row.right)
}

// The stored one, even if it is empty; else the line between the sides.
#[tactic(auto, using(crate::proofs::LineLaws::no_lane, crate::proofs::LineLaws::lane_row, crate::proofs::LineLaws::stored_part, crate::proofs::LineLaws::made_line))]
pub fn lane_centerline(words: &[u64], coords: &[f64], lane: u64) -> MaybeLine
    requires { Readable words.now coords.now }
    ensures { LineRead (lane_centerline (map_of words.now coords.now) lane) result }
{
    let Some(i) = lookup::find(words, Kind::Lane, lane) else {
        return absent();
    };
    let row = lookup::lane(words, i);
    if let Some(points) = row.centerline {
        let n = rows::index(points);
        return MaybeLine {
            there: true,
            line: copied(lookup::points(coords, Kind::Lane, i, 0, n)),
        };
    }
    between_sides(words, coords, row)
}
