// Calls on a polyline.
ghost use Rattle.std.specs.Prelude.{◌≡◌};
ghost use Rattle.refusal.specs.Answer.{answered};
ghost use Rattle.geometry.specs.Calls.{length_call, is_valid_call, locate_call, point_at_call, point_at_fraction_call, direction_at_call, nearest_point_call};

use crate::tests;
use geometry::{Location, NearestPoint, Point2, Point3};
use refusal::Refusal;

// The length of fewer than two points is +0; the Rust's is -0, and the sign is not compared.
#[tactic(auto, using(crate::proofs::Laws::passes, crate::proofs::Laws::stands), unfolding(geometry::specs::Calls::length_call))]
pub fn length(cs: &[f64]) -> Result<f64, Refusal>
    ensures { answered result ≡ length_call cs.now }
{
    tests::line(cs)?;
    Ok(polyline::length::length(cs))
}

#[tactic(auto, using(crate::proofs::Laws::passes, crate::proofs::Laws::stands), unfolding(geometry::specs::Calls::is_valid_call))]
pub fn is_valid(cs: &[f64]) -> Result<bool, Refusal>
    ensures { answered result ≡ is_valid_call cs.now }
{
    tests::line(cs)?;
    Ok(polyline::length::is_valid(cs))
}

#[tactic(auto, using(crate::proofs::Laws::line_at_passes, crate::proofs::Laws::line_at_stands), unfolding(geometry::specs::Calls::locate_call))]
pub fn locate(cs: &[f64], s: f64) -> Result<Option<Location>, Refusal>
    ensures { answered result ≡ locate_call cs.now s }
{
    tests::line_at(cs, s)?;
    Ok(polyline::locate::locate(cs, s))
}

#[tactic(auto, using(crate::proofs::Laws::line_at_passes, crate::proofs::Laws::line_at_stands), unfolding(geometry::specs::Calls::point_at_call))]
pub fn point_at(cs: &[f64], s: f64) -> Result<Option<Point3>, Refusal>
    ensures { answered result ≡ point_at_call cs.now s }
{
    tests::line_at(cs, s)?;
    Ok(polyline::locate::point_at(cs, s))
}

#[tactic(auto, using(crate::proofs::Laws::line_at_passes, crate::proofs::Laws::line_at_stands), unfolding(geometry::specs::Calls::point_at_fraction_call))]
pub fn point_at_fraction(cs: &[f64], t: f64) -> Result<Option<Point3>, Refusal>
    ensures { answered result ≡ point_at_fraction_call cs.now t }
{
    tests::line_at(cs, t)?;
    Ok(polyline::locate::point_at_fraction(cs, t))
}

#[tactic(auto, using(crate::proofs::Laws::line_at_passes, crate::proofs::Laws::line_at_stands), unfolding(geometry::specs::Calls::direction_at_call))]
pub fn direction_at(cs: &[f64], s: f64) -> Result<Option<Point2>, Refusal>
    ensures { answered result ≡ direction_at_call cs.now s }
{
    tests::line_at(cs, s)?;
    Ok(polyline::direction::direction_at(cs, s))
}

#[tactic(auto, using(crate::proofs::Laws::count_passes, crate::proofs::Laws::count_stands), unfolding(geometry::specs::Calls::nearest_point_call))]
pub fn nearest_point(cs: &[f64], p: Point2) -> Result<Option<NearestPoint>, Refusal>
    ensures { answered result ≡ nearest_point_call cs.now p }
{
    tests::line_and_point(cs, p)?;
    Ok(polyline::nearest::nearest_point(cs, p))
}
