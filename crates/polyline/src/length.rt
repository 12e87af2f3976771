// Points, segments and their lengths.
ghost use Rattle.std.specs.Prelude.{◌≡◌, ◌+◌, ◌/◌, ◌<◌, length};
ghost use Rattle.geometry.specs.Polyline.{polyline_of, pt, segment_length, polyline_length, is_valid};

use geometry::Point3;
use geometry::double::EPSILON;
use geometry::vector::distance;

// Point i.
#[tactic(auto, using(crate::proofs::Lines::point_is), unfolding(geometry::specs::Polyline::point_in))]
pub fn point(cs: &[f64], i: usize) -> Point3
    requires { i < length cs.now / 3 }
    ensures { result ≡ pt (polyline_of cs.now) i }
{
    let k = i * 3;
    Point3 {
        x: cs[k],
        y: cs[k + 1],
        z: cs[k + 2],
    }
}

#[tactic(auto, unfolding(geometry::specs::Polyline::segment_length))]
pub fn segment_length(cs: &[f64], i: usize) -> f64
    requires { i + 1 < length cs.now / 3 }
    ensures { result ≡ segment_length (polyline_of cs.now) i }
{
    distance(point(cs, i), point(cs, i + 1))
}

// The length of fewer than two points is +0. (The Rust's sum starts at -0, which shows there only.)
#[tactic(auto, using(crate::proofs::Lines::length_next, crate::proofs::Lines::length_is), unfolding(geometry::specs::Polyline::length_to))]
pub fn length(cs: &[f64]) -> f64
    ensures { result ≡ polyline_length (polyline_of cs.now) }
{
    let segments = (cs.len() / 3).saturating_sub(1);
    let mut acc = 0.0;
    for i in 0..segments {
        acc += segment_length(cs, i);
    }
    acc
}

// At least two points, and a length above 1e-9.
#[tactic(auto, using(crate::proofs::Lines::few_valid, crate::proofs::Lines::many_valid))]
pub fn is_valid(cs: &[f64]) -> bool
    ensures { result ≡ is_valid (polyline_of cs.now) }
{
    cs.len() / 3 >= 2 && length(cs) > EPSILON
}
