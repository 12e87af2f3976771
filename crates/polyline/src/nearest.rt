// The point of a polyline that is nearest to a point of the plane.
ghost use Rattle.std.specs.Prelude.{◌≡◌, ◌+◌, ◌/◌, ◌<◌, length, Some};
ghost use Rattle.geometry.specs.Polyline.{polyline_of, length_to, lateral_of, nearest_on, nearest_point};

use crate::direction::segment_direction;
use crate::length::{point, segment_length};
use geometry::double::EPSILON;
use geometry::point::{cross, flat, lerp, project_on_segment};
use geometry::vector::{Vector, distance};
use geometry::{NearestPoint, Point2};

// How far to the left of a direction p lies, seen from q: 0 where there is no direction, which the definition says too.
#[tactic(auto, unfolding(geometry::specs::Polyline::lateral_of))]
fn lateral_of(u: Option<Point2>, p: Point2, q: Point2) -> f64
    ensures { result ≡ lateral_of u p q }
{
    match u {
        Some(d) => cross(d, p.sub(q)),
        None => 0.0,
    }
}

// How far p is from segment i, in the plane.
fn segment_distance(cs: &[f64], p: Point2, i: usize) -> f64
    requires { i + 1 < length cs.now / 3 }
    ensures { result ≡ (nearest_on (polyline_of cs.now) p i).distance }
{
    let a = point(cs, i);
    let b = point(cs, i + 1);
    let t = project_on_segment(p, flat(a), flat(b));
    let q = lerp(a, b, t);
    distance(flat(q), p)
}

// The point of segment i that is nearest to p. The segment starts at the station acc.
fn nearest_on(cs: &[f64], p: Point2, i: usize, acc: f64) -> NearestPoint
    requires { (i + 1 < length cs.now / 3) × (acc ≡ length_to (polyline_of cs.now) i) }
    ensures { result ≡ nearest_on (polyline_of cs.now) p i }
{
    let a = point(cs, i);
    let b = point(cs, i + 1);
    let t = project_on_segment(p, flat(a), flat(b));
    let q = lerp(a, b, t);
    let d = distance(flat(q), p);
    let seg = segment_length(cs, i);
    NearestPoint {
        point: q,
        distance: d,
        station: acc + t * seg,
        segment: i as u64,
        lateral: lateral_of(segment_direction(cs, i), p, flat(q)),
    }
}

// The best of all segments: a later one is taken only where it is nearer by more than 1e-9. All but its
// place and distance is worked out once, at the end.
fn nearest_of_segments(cs: &[f64], p: Point2) -> NearestPoint
    requires { 1 < length cs.now / 3 }
    ensures { Some result ≡ nearest_point (polyline_of cs.now) p }
{
    let last = cs.len() / 3 - 1;
    let mut best = segment_distance(cs, p, 0);
    let mut at = 0;
    let mut start = 0.0;
    let mut acc = 0.0 + segment_length(cs, 0);
    for i in 1..last {
        let d = segment_distance(cs, p, i);
        let seg = segment_length(cs, i);
        if d < best - EPSILON {
            best = d;
            at = i;
            start = acc;
        }
        acc += seg;
    }
    nearest_on(cs, p, at, start)
}

// None of no points; of one point itself; else the best of the segments. (A number of points, and no case.)
pub fn nearest_point(cs: &[f64], p: Point2) -> Option<NearestPoint>
    ensures { result ≡ nearest_point (polyline_of cs.now) p }
{
    let n = cs.len() / 3;
    if n == 0 {
        return None;
    }
    if n == 1 {
        let q = point(cs, 0);
        return Some(NearestPoint {
            point: q,
            distance: distance(flat(q), p),
            station: 0.0,
            segment: 0,
            lateral: 0.0,
        });
    }
    Some(nearest_of_segments(cs, p))
}
