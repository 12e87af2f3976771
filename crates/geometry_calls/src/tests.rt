// What is refused, in order.
ghost use Rattle.std.specs.Prelude.{◌≡◌, ◌&&◌, max, length};
ghost use Rattle.refusal.specs.Answer.{answered};
ghost use Rattle.geometry.specs.Point.{point2_on_map};
ghost use Rattle.geometry.specs.Polyline.{polyline_of};
ghost use Rattle.geometry.specs.Calls.{coords_on_map, refuse_off_map, refuse_measure, check_line};
ghost use Rattle.geometry_calls.specs.Tests.{check_count, check_line_at};

use geometry::Point2;
use geometry::double::{is_finite, on_map};
use geometry::vector::Vector;
use refusal::{Measure, Refusal};

// Every coordinate is there, finite and at most 2 ^ 26 in size.
#[tactic(auto, using(crate::proofs::Laws::lacks, crate::proofs::Laws::on_map_start, crate::proofs::Laws::on_map_out, crate::proofs::Laws::on_map_next, crate::proofs::Laws::on_map_end))]
pub fn coords_on_map(cs: &[f64]) -> bool
    ensures { result ≡ coords_on_map cs.now }
{
    if cs.len() % 3 != 0 {
        return false;
    }
    for c in cs {
        if !on_map(*c) {
            return false;
        }
    }
    true
}

pub fn off_map(ok: bool) -> Result<(), Refusal>
    ensures { answered result ≡ refuse_off_map ok }
{
    if ok { Ok(()) } else { Err(Refusal::OffTheMap) }
}

pub fn vector<V: Vector>(a: V) -> Result<(), Refusal>
    ensures { answered result ≡ refuse_off_map (V.is_on_map a) }
{
    off_map(a.on_map())
}

pub fn pair<V: Vector>(a: V, b: V) -> Result<(), Refusal>
    ensures { answered result ≡ refuse_off_map (V.is_on_map a && V.is_on_map b) }
{
    off_map(a.on_map() && b.on_map())
}

// 9 where a coordinate is off the map, then 10 for more than 64 points.
#[tactic(auto, unfolding(crate::specs::Tests::check_count))]
pub fn count(ok: bool, n: usize) -> Result<(), Refusal>
    ensures { answered result ≡ check_count ok n }
{
    off_map(ok)?;
    if n > 64 {
        return Err(Refusal::Full);
    }
    Ok(())
}

#[tactic(auto, using(crate::proofs::Laws::line_is))]
pub fn line(cs: &[f64]) -> Result<(), Refusal>
    ensures { answered result ≡ check_line cs.now }
{
    count(coords_on_map(cs), cs.len() / 3)
}

// A polyline, and a point beside it.
pub fn line_and_point(cs: &[f64], p: Point2) -> Result<(), Refusal>
    ensures { answered result ≡ check_count (coords_on_map cs.now && point2_on_map p) (length (polyline_of cs.now)) }
{
    count(coords_on_map(cs) && p.on_map(), cs.len() / 3)
}

// Two polylines.
pub fn lines(a: &[f64], b: &[f64]) -> Result<(), Refusal>
    ensures { answered result ≡ check_count (coords_on_map a.now && coords_on_map b.now) (max (length (polyline_of a.now)) (length (polyline_of b.now))) }
{
    let larger = (a.len() / 3).max(b.len() / 3);
    count(coords_on_map(a) && coords_on_map(b), larger)
}

// A polyline, and the number of points that are asked for.
pub fn line_and_count(cs: &[f64], n: usize) -> Result<(), Refusal>
    ensures { answered result ≡ check_count (coords_on_map cs.now) (max n (length (polyline_of cs.now))) }
{
    count(coords_on_map(cs), n.max(cs.len() / 3))
}

pub fn measure(s: f64) -> Result<(), Refusal>
    ensures { answered result ≡ refuse_measure s }
{
    if is_finite(s) {
        Ok(())
    } else {
        Err(Refusal::BadMeasure(Measure::Station))
    }
}

#[tactic(auto, using(crate::proofs::Laws::passes, crate::proofs::Laws::stands), unfolding(crate::specs::Tests::check_line_at))]
pub fn line_at(cs: &[f64], s: f64) -> Result<(), Refusal>
    ensures { answered result ≡ check_line_at cs.now s }
{
    line(cs)?;
    measure(s)
}
