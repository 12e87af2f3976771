// Calls that make a polyline, or its stations.
ghost use Rattle.std.specs.Prelude.{◌≡◌};
ghost use Rattle.refusal.specs.Answer.{answered_as};
ghost use Rattle.geometry.specs.Calls.{stations_call, reversed_call, resample_count_call, centerline_call};
ghost use Rattle.centerline.specs.Line.{points_of, line_option, stations_of};

use crate::tests;
use centerline::{Line, Stations};
use refusal::Refusal;

#[tactic(auto, using(crate::proofs::Laws::passes, crate::proofs::Laws::stands, crate::proofs::Laws::line_few), unfolding(geometry::specs::Calls::stations_call))]
pub fn stations(cs: &[f64]) -> Result<Stations, Refusal>
    ensures { answered_as stations_of result ≡ stations_call cs.now }
{
    tests::line(cs)?;
    Ok(centerline::measure::stations(cs))
}

#[tactic(auto, using(crate::proofs::Laws::passes, crate::proofs::Laws::stands, crate::proofs::Laws::line_few), unfolding(geometry::specs::Calls::reversed_call))]
pub fn reversed(cs: &[f64]) -> Result<Line, Refusal>
    ensures { answered_as points_of result ≡ reversed_call cs.now }
{
    tests::line(cs)?;
    Ok(centerline::reversed::reversed(cs))
}

#[tactic(auto, using(crate::proofs::Laws::count_passes, crate::proofs::Laws::count_stands, crate::proofs::Laws::asked_few), unfolding(geometry::specs::Calls::resample_count_call))]
pub fn resample_count(cs: &[f64], n: usize) -> Result<Line, Refusal>
    ensures { answered_as points_of result ≡ resample_count_call cs.now n }
{
    tests::line_and_count(cs, n)?;
    Ok(centerline::resample::resample_count(cs, n))
}

#[tactic(auto, using(crate::proofs::Laws::count_passes, crate::proofs::Laws::count_stands, crate::proofs::Laws::lines_few), unfolding(geometry::specs::Calls::centerline_call))]
pub fn centerline(left: &[f64], right: &[f64]) -> Result<Option<Line>, Refusal>
    ensures { answered_as line_option result ≡ centerline_call left.now right.now }
{
    tests::lines(left, right)?;
    Ok(centerline::middle::centerline(left, right))
}
