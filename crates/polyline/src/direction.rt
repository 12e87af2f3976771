// The direction at a station.
ghost use Rattle.std.specs.Prelude.{◌≡◌, ◌+◌, ◌-◌, ◌/◌, ◌<◌, length};
ghost use Rattle.rows.specs.Lists.{first_from, first_below};
ghost use Rattle.geometry.specs.Polyline.{polyline_of, segment_direction, direction_from, direction_at};

use crate::length::point;
use crate::locate::locate;
use geometry::Point2;
use geometry::point::{flat, normalized};
use geometry::vector::Vector;

// The direction of segment i in the plane, where it has one.
#[tactic(auto, unfolding(geometry::specs::Polyline::segment_direction))]
pub fn segment_direction(cs: &[f64], i: usize) -> Option<Point2>
    requires { i + 1 < length cs.now / 3 }
    ensures { result ≡ segment_direction (polyline_of cs.now) i }
{
    let a = flat(point(cs, i));
    let b = flat(point(cs, i + 1));
    normalized(b.sub(a))
}

// The first direction from segment start on.
#[tactic(auto, using(crate::proofs::Lists::first_here, crate::proofs::Lists::first_past, crate::proofs::Lists::first_end))]
fn forward(cs: &[f64], start: usize) -> Option<Point2>
    requires { start < length cs.now / 3 }
    ensures { result ≡ first_from (segment_direction (polyline_of cs.now)) (length cs.now / 3 - 1 - start) start }
{
    for i in start..cs.len() / 3 - 1 {
        if let Some(d) = segment_direction(cs, i) {
            return Some(d);
        }
    }
    None
}

// The first direction before segment start, from there back.
#[tactic(auto, using(crate::proofs::Lists::below_here, crate::proofs::Lists::below_past, crate::proofs::Lists::below_end))]
fn backward(cs: &[f64], start: usize) -> Option<Point2>
    requires { start < length cs.now / 3 }
    ensures { result ≡ first_below (segment_direction (polyline_of cs.now)) start }
{
    for i in (0..start).rev() {
        if let Some(d) = segment_direction(cs, i) {
            return Some(d);
        }
    }
    None
}

// Forward from a segment, then backward.
#[tactic(auto, using(crate::proofs::Lines::direction_forward, crate::proofs::Lines::direction_backward))]
fn direction_from(cs: &[f64], i: usize) -> Option<Point2>
    requires { 1 < length cs.now / 3 }
    ensures { result ≡ direction_from (polyline_of cs.now) i }
{
    let start = i.min(cs.len() / 3 - 2);
    match forward(cs, start) {
        Some(d) => Some(d),
        None => backward(cs, start),
    }
}

#[tactic(auto, using(crate::proofs::Lines::direction_few, crate::proofs::Lines::direction_none, crate::proofs::Lines::direction_some))]
pub fn direction_at(cs: &[f64], s: f64) -> Option<Point2>
    ensures { result ≡ direction_at (polyline_of cs.now) s }
{
    if cs.len() / 3 < 2 {
        return None;
    }
    let l = locate(cs, s)?;
    direction_from(cs, l.segment as usize)
}
