// Calls on a polyline: its coordinates, x, y and z in turn.
ghost use Rattle.told.specs.Told.{Told, always, perhaps};
ghost use Rattle.geometry.specs.Point.{at2};
ghost use Rattle.geometry.specs.Calls.{length_call, is_valid_call, locate_call, point_at_call, point_at_fraction_call, direction_at_call, nearest_point_call};
ghost use Rattle.geometry_export.specs.Lent.{flagged, lent, number_in, word_in, location_in, space_in, plane_in, nearest_in};

use crate::written;
use geometry::Point2;

#[tactic(auto, using(told::proofs::Laws::always_of))]
#[unsafe(no_mangle)]
pub extern "C" fn geometry_length(cs: &[f64], out: &mut [f64; 1]) -> u64
    ensures { Told (always (length_call cs.now)) number_in result out.old out.new }
{
    let a = geometry_calls::lines::length(cs);
    written::always(a, out)
}

// At least two points, and a length above 1e-9.
#[tactic(auto, using(told::proofs::Laws::always_of))]
#[unsafe(no_mangle)]
pub extern "C" fn geometry_is_valid(cs: &[f64], valid: &mut [u64; 1]) -> u64
    ensures { Told (always (flagged (is_valid_call cs.now))) word_in result valid.old valid.new }
{
    let a = geometry_calls::lines::is_valid(cs);
    written::truth(a, valid)
}

// No answer where there are no points.
#[tactic(auto, using(told::proofs::Laws::perhaps_of))]
#[unsafe(no_mangle)]
pub extern "C" fn geometry_locate(
    cs: &[f64],
    s: f64,
    fraction: &mut [f64; 1],
    segment: &mut [u64; 1],
) -> u64
    ensures { Told (perhaps (locate_call cs.now s)) location_in result (lent fraction.old segment.old) (lent fraction.new segment.new) }
{
    let a = geometry_calls::lines::locate(cs, s);
    written::location(a, fraction, segment)
}

// No answer where there are no points.
#[tactic(auto, using(told::proofs::Laws::perhaps_of))]
#[unsafe(no_mangle)]
pub extern "C" fn geometry_point_at(cs: &[f64], s: f64, out: &mut [f64; 3]) -> u64
    ensures { Told (perhaps (point_at_call cs.now s)) space_in result out.old out.new }
{
    let a = geometry_calls::lines::point_at(cs, s);
    written::perhaps(a, out)
}

// No answer where there are no points.
#[tactic(auto, using(told::proofs::Laws::perhaps_of))]
#[unsafe(no_mangle)]
pub extern "C" fn geometry_point_at_fraction(cs: &[f64], t: f64, out: &mut [f64; 3]) -> u64
    ensures { Told (perhaps (point_at_fraction_call cs.now t)) space_in result out.old out.new }
{
    let a = geometry_calls::lines::point_at_fraction(cs, t);
    written::perhaps(a, out)
}

// No answer where no segment has a direction in the plane.
#[tactic(auto, using(told::proofs::Laws::perhaps_of))]
#[unsafe(no_mangle)]
pub extern "C" fn geometry_direction_at(cs: &[f64], s: f64, out: &mut [f64; 2]) -> u64
    ensures { Told (perhaps (direction_at_call cs.now s)) plane_in result out.old out.new }
{
    let a = geometry_calls::lines::direction_at(cs, s);
    written::perhaps(a, out)
}

// No answer where there are no points.
#[tactic(auto, using(told::proofs::Laws::perhaps_of))]
#[unsafe(no_mangle)]
pub extern "C" fn geometry_nearest_point(
    cs: &[f64],
    px: f64,
    py: f64,
    out: &mut [f64; 6],
    segment: &mut [u64; 1],
) -> u64
    ensures { Told (perhaps (nearest_point_call cs.now (at2 px py))) nearest_in result (lent out.old segment.old) (lent out.new segment.new) }
{
    let a = geometry_calls::lines::nearest_point(cs, Point2 { x: px, y: py });
    written::nearest(a, out, segment)
}
