// Where a station lies, and the point there.
ghost use Rattle.std.specs.Prelude.{◌≡◌, ◌&&◌, ◌-◌, ◌/◌, ◌<◌, length};
ghost use Rattle.std.specs.Float.Ieee.{le, lt};
ghost use Rattle.rows.specs.Lists.{or_default, first_from};
ghost use Rattle.geometry.specs.Double.{◌⊕◌, f0, f1};
ghost use Rattle.geometry.specs.Polyline.{polyline_of, location, reach, locate, point_of, point_at, point_at_fraction};

use crate::length::{length, point, segment_length};
use geometry::double::clamp;
use geometry::{Location, Point3};

// A segment of positive length that starts at the station acc reaches the station s.
pub fn reaches(acc: f64, seg: f64, s: f64) -> bool
    ensures { result ≡ (le s (acc ⊕ seg) && lt f0 seg) }
{
    s <= acc + seg && 0.0 < seg
}

// The first segment that reaches the station, or the end of the last.
fn reaching(cs: &[f64], s: f64) -> Location
    requires { 1 < length cs.now / 3 }
    ensures { result ≡ or_default (first_from (reach (polyline_of cs.now) s) (length cs.now / 3 - 1) 0) (location (length cs.now / 3 - 2) f1) }
{
    let last = cs.len() / 3 - 1;
    let mut acc = 0.0;
    for i in 0..last {
        let seg = segment_length(cs, i);
        if reaches(acc, seg, s) {
            return Location {
                segment: i as u64,
                fraction: clamp((s - acc) / seg, 0.0, 1.0),
            };
        }
        acc += seg;
    }
    Location {
        segment: (last - 1) as u64,
        fraction: 1.0,
    }
}

// No points, none; one point or a station of at most 0, the start; else where the station lies.
// (How many points there are is a number, and no case.)
pub fn locate(cs: &[f64], s: f64) -> Option<Location>
    ensures { result ≡ locate (polyline_of cs.now) s }
{
    let n = cs.len() / 3;
    if n == 0 {
        return None;
    }
    let start = Location {
        segment: 0,
        fraction: 0.0,
    };
    if n == 1 {
        return Some(start);
    }
    if s <= 0.0 {
        return Some(start);
    }
    Some(reaching(cs, s))
}

// The point at a location; past the last segment it is the last point.
#[tactic(auto, using(crate::proofs::Lines::point_inside, crate::proofs::Lines::point_past))]
pub fn point_of(cs: &[f64], l: Location) -> Point3
    requires { 0 < length cs.now / 3 }
    ensures { result ≡ point_of (polyline_of cs.now) l }
{
    let i = l.segment as usize;
    let last = cs.len() / 3 - 1;
    if i < last {
        return geometry::point::lerp(point(cs, i), point(cs, i + 1), l.fraction);
    }
    point(cs, last)
}

// The point at a station, which counts as held to the polyline's length.
pub fn point_at(cs: &[f64], s: f64) -> Option<Point3>
    ensures { result ≡ point_at (polyline_of cs.now) s }
{
    if cs.len() / 3 == 0 {
        return None;
    }
    let l = locate(cs, s)?;
    Some(point_of(cs, l))
}

// The point at a fraction of the length, which is held to 0..1.
#[tactic(auto, unfolding(geometry::specs::Polyline::point_at_fraction))]
pub fn point_at_fraction(cs: &[f64], t: f64) -> Option<Point3>
    ensures { result ≡ point_at_fraction (polyline_of cs.now) t }
{
    point_at(cs, clamp(t, 0.0, 1.0) * length(cs))
}
