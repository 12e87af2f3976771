// Calls on points and vectors: a component is a coordinate, and a factor a fraction.
ghost use Rattle.std.specs.Prelude.{◌≡◌};
ghost use Rattle.refusal.specs.Answer.{answered};
ghost use Rattle.geometry.specs.Calls.{pair_call, factor_call, one_call, lerp_call, project_on_segment_call, xy_call, dot_call, cross_call, normalized_call, perp_call, add3_call};

use crate::tests;
use geometry::vector::Vector;
use geometry::{Point2, Point3};
use refusal::Refusal;

// ---- of the plane and of space

pub fn distance<V: Vector>(a: V, b: V) -> Result<f64, Refusal>
    ensures { answered result ≡ pair_call V.is_on_map V.distance_of a b }
{
    tests::pair(a, b)?;
    Ok(geometry::vector::distance(a, b))
}

pub fn sub<V: Vector>(a: V, b: V) -> Result<V, Refusal>
    ensures { answered result ≡ pair_call V.is_on_map V.difference a b }
{
    tests::pair(a, b)?;
    Ok(a.sub(b))
}

pub fn scale<V: Vector>(a: V, factor: f64) -> Result<V, Refusal>
    ensures { answered result ≡ factor_call V.is_on_map V.scaled a factor }
{
    tests::vector(a)?;
    tests::measure(factor)?;
    Ok(a.scale(factor))
}

pub fn norm<V: Vector>(a: V) -> Result<f64, Refusal>
    ensures { answered result ≡ one_call V.is_on_map V.norm_of a }
{
    tests::vector(a)?;
    Ok(a.norm())
}

// ---- of the plane

#[tactic(auto, using(crate::proofs::Laws::passes, crate::proofs::Laws::stands), unfolding(geometry::specs::Calls::project_on_segment_call))]
pub fn project_on_segment(p: Point2, a: Point2, b: Point2) -> Result<f64, Refusal>
    ensures { answered result ≡ project_on_segment_call p a b }
{
    tests::off_map(p.on_map() && a.on_map() && b.on_map())?;
    Ok(geometry::point::project_on_segment(p, a, b))
}

#[tactic(auto, using(crate::proofs::Laws::passes, crate::proofs::Laws::stands), unfolding(geometry::specs::Calls::dot_call))]
pub fn dot(a: Point2, b: Point2) -> Result<f64, Refusal>
    ensures { answered result ≡ dot_call a b }
{
    tests::pair(a, b)?;
    Ok(geometry::point::dot(a, b))
}

#[tactic(auto, using(crate::proofs::Laws::passes, crate::proofs::Laws::stands), unfolding(geometry::specs::Calls::cross_call))]
pub fn cross(a: Point2, b: Point2) -> Result<f64, Refusal>
    ensures { answered result ≡ cross_call a b }
{
    tests::pair(a, b)?;
    Ok(geometry::point::cross(a, b))
}

// The unit vector, where the norm is above 1e-9.
#[tactic(auto, using(crate::proofs::Laws::passes, crate::proofs::Laws::stands), unfolding(geometry::specs::Calls::normalized_call))]
pub fn normalized(a: Point2) -> Result<Option<Point2>, Refusal>
    ensures { answered result ≡ normalized_call a }
{
    tests::vector(a)?;
    Ok(geometry::point::normalized(a))
}

// Rotated by a quarter to the left.
#[tactic(auto, using(crate::proofs::Laws::passes, crate::proofs::Laws::stands), unfolding(geometry::specs::Calls::perp_call))]
pub fn perp(a: Point2) -> Result<Point2, Refusal>
    ensures { answered result ≡ perp_call a }
{
    tests::vector(a)?;
    Ok(geometry::point::perp(a))
}

// ---- of space

// The point's place in the plane.
#[tactic(auto, using(crate::proofs::Laws::passes, crate::proofs::Laws::stands), unfolding(geometry::specs::Calls::xy_call))]
pub fn flat(p: Point3) -> Result<Point2, Refusal>
    ensures { answered result ≡ xy_call p }
{
    tests::vector(p)?;
    Ok(geometry::point::flat(p))
}

#[tactic(auto, using(crate::proofs::Laws::passes, crate::proofs::Laws::stands), unfolding(geometry::specs::Calls::lerp_call))]
pub fn lerp(a: Point3, b: Point3, t: f64) -> Result<Point3, Refusal>
    ensures { answered result ≡ lerp_call a b t }
{
    tests::pair(a, b)?;
    tests::measure(t)?;
    Ok(geometry::point::lerp(a, b, t))
}

#[tactic(auto, using(crate::proofs::Laws::passes, crate::proofs::Laws::stands), unfolding(geometry::specs::Calls::add3_call))]
pub fn add3(a: Point3, b: Point3) -> Result<Point3, Refusal>
    ensures { answered result ≡ add3_call a b }
{
    tests::pair(a, b)?;
    Ok(geometry::point::add3(a, b))
}
