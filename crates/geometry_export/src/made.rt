// Calls that make a polyline, or its stations: as many as the count says, from the first number on; what comes after has no meaning.
ghost use Rattle.told.specs.Told.{Told, always, perhaps};
ghost use Rattle.geometry.specs.Calls.{stations_call, reversed_call, resample_count_call, centerline_call};
ghost use Rattle.geometry_export.specs.Lent.{lent, stations_in, line_in};

use crate::written;

// The length up to each point.
#[tactic(auto, using(told::proofs::Laws::always_of))]
#[unsafe(no_mangle)]
pub extern "C" fn geometry_stations(cs: &[f64], out: &mut [f64; 64], count: &mut [u64; 1]) -> u64
    ensures { Told (always (stations_call cs.now)) stations_in result (lent out.old count.old) (lent out.new count.new) }
{
    let a = geometry_calls::made::stations(cs);
    written::stations(a, out, count)
}

#[tactic(auto, using(told::proofs::Laws::always_of))]
#[unsafe(no_mangle)]
pub extern "C" fn geometry_reversed(cs: &[f64], out: &mut [f64; 192], count: &mut [u64; 1]) -> u64
    ensures { Told (always (reversed_call cs.now)) line_in result (lent out.old count.old) (lent out.new count.new) }
{
    let a = geometry_calls::made::reversed(cs);
    written::line(a, out, count)
}

// At least two points, unless there are none.
#[tactic(auto, using(told::proofs::Laws::always_of))]
#[unsafe(no_mangle)]
pub extern "C" fn geometry_resample_count(
    cs: &[f64],
    n: usize,
    out: &mut [f64; 192],
    count: &mut [u64; 1],
) -> u64
    ensures { Told (always (resample_count_call cs.now n)) line_in result (lent out.old count.old) (lent out.new count.new) }
{
    let a = geometry_calls::made::resample_count(cs, n);
    written::line(a, out, count)
}

// No answer where a side has no points.
#[tactic(auto, using(told::proofs::Laws::perhaps_of))]
#[unsafe(no_mangle)]
pub extern "C" fn geometry_centerline(
    left: &[f64],
    right: &[f64],
    out: &mut [f64; 192],
    count: &mut [u64; 1],
) -> u64
    ensures { Told (perhaps (centerline_call left.now right.now)) line_in result (lent out.old count.old) (lent out.new count.new) }
{
    let a = geometry_calls::made::centerline(left, right);
    written::center(a, out, count)
}
