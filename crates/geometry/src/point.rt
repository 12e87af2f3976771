// Points and vectors: what is of the plane alone, or of space alone.
ghost use Rattle.std.specs.Prelude.{◌≡◌};
ghost use Rattle.geometry.specs.Point.{xy, dot, cross, normalized, perp, project_on_segment, add3, lerp, finite_point};

use crate::double::EPSILON;
use crate::vector::Vector;
use crate::{Point2, Point3, double};

// The point's place in the plane.
pub fn flat(p: Point3) -> Point2
    ensures { result ≡ xy p }
{
    Point2 { x: p.x, y: p.y }
}

// ---- in the plane

#[tactic(auto, unfolding(crate::specs::Point::dot))]
pub fn dot(a: Point2, b: Point2) -> f64
    ensures { result ≡ dot a b }
{
    a.x * b.x + a.y * b.y
}

// The third coordinate of the product in space.
#[tactic(auto, unfolding(crate::specs::Point::cross))]
pub fn cross(a: Point2, b: Point2) -> f64
    ensures { result ≡ cross a b }
{
    a.x * b.y - a.y * b.x
}

// The unit vector, where the norm is above 1e-9.
#[tactic(auto, unfolding(crate::specs::Point::normalized))]
pub fn normalized(a: Point2) -> Option<Point2>
    ensures { result ≡ normalized a }
{
    let n = a.norm();
    if n > EPSILON {
        Some(Point2 {
            x: a.x / n,
            y: a.y / n,
        })
    } else {
        None
    }
}

// Rotated by a quarter to the left.
#[tactic(auto, unfolding(crate::specs::Point::perp))]
pub fn perp(a: Point2) -> Point2
    ensures { result ≡ perp a }
{
    Point2 { x: -a.y, y: a.x }
}

// How far along a to b the point nearest to p is, from 0 to 1. Along a point it is 0.
#[tactic(auto, unfolding(crate::specs::Point::project_on_segment))]
pub fn project_on_segment(p: Point2, a: Point2, b: Point2) -> f64
    ensures { result ≡ project_on_segment p a b }
{
    let ab = b.sub(a);
    let squared = dot(ab, ab);
    if squared < EPSILON * EPSILON {
        return 0.0;
    }
    double::clamp(dot(p.sub(a), ab) / squared, 0.0, 1.0)
}

// ---- in space

#[tactic(auto, unfolding(crate::specs::Point::add3))]
pub fn add3(a: Point3, b: Point3) -> Point3
    ensures { result ≡ add3 a b }
{
    Point3 {
        x: a.x + b.x,
        y: a.y + b.y,
        z: a.z + b.z,
    }
}

// Between a (t = 0) and b (t = 1).
#[tactic(auto, unfolding(crate::specs::Point::lerp))]
pub fn lerp(a: Point3, b: Point3, t: f64) -> Point3
    ensures { result ≡ lerp a b t }
{
    add3(a, b.sub(a).scale(t))
}

#[tactic(auto, unfolding(crate::specs::Point::finite_point))]
pub fn is_finite(p: Point3) -> bool
    ensures { result ≡ finite_point p }
{
    double::is_finite(p.x) && double::is_finite(p.y) && double::is_finite(p.z)
}
