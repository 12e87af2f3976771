// Where a stop line goes.
ghost use Rattle.std.specs.Prelude.{◌≡◌, [], ◌∷◌, ◌<◌, length, get_or, Some};
ghost use Rattle.std.specs.Float.Ieee.{lt};
ghost use Rattle.geometry.specs.Double.{◌⊖◌, epsilon, absolute};
ghost use Rattle.geometry.specs.Polyline.{polyline_of, polyline_length};
ghost use Rattle.centerline.specs.Line.{points_of};
ghost use Rattle.map.specs.Tables.{map_of};
ghost use Rattle.place.specs.Place.{lane_centerline, place_as, place_stop_line};
ghost use Rattle.place.specs.Readable.{Readable};
ghost use Rattle.place.specs.Values.{Roomy, LineRead};
ghost use Rattle.placing.specs.Answers.{RefusedWith, placed_answer, place_on, place_given};

use crate::PlacedLine;
use crate::checks::check_polyline;
use centerline::Line;
use geometry::double::{EPSILON, abs, clamp, is_finite};
use place::lines::{copied, lane_centerline};
use place::section::cross_section;
use place::{CrossSection, MaybeLine, Placement};
use refusal::{Measure, PlaceFault, Refusal};

pub fn refused_line(r: Refusal) -> PlacedLine
    ensures { RefusedWith r result }
{
    PlacedLine {
        checked: Err(r),
        line: centerline::empty(),
        clamped: false,
        ends: None,
    }
}

// The line from one end of a cross-section to the other.
#[tactic(auto, using(crate::proofs::PlaceLaws::across_is))]
pub fn across(s: CrossSection) -> Line
    ensures { points_of result ≡ s.left ∷ s.right ∷ [] }
{
    let a = s.left;
    let b = s.right;
    let mut coords = [0.0; 192];
    coords[0] = a.x;
    coords[1] = a.y;
    coords[2] = a.z;
    coords[3] = b.x;
    coords[4] = b.y;
    coords[5] = b.z;
    Line { coords, count: 2 }
}

// The clamp warning is due where the station was moved by more than 1e-9.
fn moved(station: f64, clamped: f64) -> bool
    ensures { result ≡ lt epsilon (absolute (clamped ⊖ station)) }
{
    abs(clamped - station) > EPSILON
}

// Across a centreline of length len, at a station that is held to it.
fn place_at(
    words: &[u64],
    coords: &[f64],
    center: &[f64],
    lanes: &[u64],
    len: f64,
    station: f64,
) -> PlacedLine
    requires { Readable words.now coords.now }
    ensures { (placed_answer (get_or lanes.now 0 0) result ≡ place_on (map_of words.now coords.now) (polyline_of center.now) lanes.now (get_or lanes.now 0 0) len station) × Roomy result.line }
{
    if !is_finite(station) {
        return refused_line(Refusal::BadMeasure(Measure::Station));
    }
    let clamped = clamp(station, 0.0, len);
    match cross_section(words, coords, center, clamped, lanes) {
        Err(r) => refused_line(r),
        Ok((s, names)) => PlacedLine {
            checked: Ok(()),
            line: across(s),
            clamped: moved(station, clamped),
            ends: Some(names),
        },
    }
}

fn given_line(given: &[f64], reference: u64) -> PlacedLine
    ensures { (placed_answer reference result ≡ place_given given.now) × Roomy result.line }
{
    match check_polyline(given) {
        Err(r) => refused_line(r),
        Ok(()) => PlacedLine {
            checked: Ok(()),
            line: copied(given),
            clamped: false,
            ends: None,
        },
    }
}

// A placement along the first lane, whose centreline is at hand. The given points are read for a given line only.
pub fn place_as(
    words: &[u64],
    coords: &[f64],
    center: &[f64],
    lanes: &[u64],
    how: Placement,
    given: &[f64],
) -> PlacedLine
    requires { Readable words.now coords.now × (0 < length lanes.now) × (lane_centerline (map_of words.now coords.now) (get_or lanes.now 0 0) ≡ Some (polyline_of center.now)) }
    ensures { (placed_answer (get_or lanes.now 0 0) result ≡ place_as how given.now (map_of words.now coords.now) lanes.now (get_or lanes.now 0 0) (polyline_length (polyline_of center.now))) × Roomy result.line }
{
    let len = polyline::length::length(center);
    match how {
        Placement::Given => given_line(given, lanes[0]),
        Placement::AtStation(s) => place_at(words, coords, center, lanes, len, s),
        Placement::AtLaneEnd(offset) => {
            if !is_finite(offset) || offset < 0.0 {
                return refused_line(Refusal::BadMeasure(Measure::Offset));
            }
            place_at(words, coords, center, lanes, len, len - offset)
        }
    }
}

// The line, or a refusal, with the first lane's centreline looked up before.
pub fn place_with(
    words: &[u64],
    coords: &[f64],
    center: MaybeLine,
    lanes: &[u64],
    how: Placement,
    given: &[f64],
) -> PlacedLine
    requires { Readable words.now coords.now × (0 < length lanes.now) × LineRead (lane_centerline (map_of words.now coords.now) (get_or lanes.now 0 0)) center }
    ensures { (placed_answer (get_or lanes.now 0 0) result ≡ place_stop_line (map_of words.now coords.now) lanes.now how given.now) × Roomy result.line }
{
    if !center.there {
        return refused_line(Refusal::NoPlace(PlaceFault::NoLaneGeometry));
    }
    let e = center.line.count * 3;
    place_as(words, coords, &center.line.coords[..e], lanes, how, given)
}

// The line, or a refusal; the list of lanes is checked before.
pub fn place_stop_line(
    words: &[u64],
    coords: &[f64],
    lanes: &[u64],
    how: Placement,
    given: &[f64],
) -> PlacedLine
    requires { Readable words.now coords.now × (0 < length lanes.now) }
    ensures { (placed_answer (get_or lanes.now 0 0) result ≡ place_stop_line (map_of words.now coords.now) lanes.now how given.now) × Roomy result.line }
{
    let center = lane_centerline(words, coords, lanes[0]);
    place_with(words, coords, center, lanes, how, given)
}
