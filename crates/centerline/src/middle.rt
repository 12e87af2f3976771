// The centreline between two sides.
ghost use Rattle.std.specs.Prelude.{◌≡◌, ◌/◌, ◌≤◌, length};
ghost use Rattle.geometry.specs.Polyline.{polyline_of, centerline};
ghost use Rattle.centerline.specs.Line.{points_of, line_option, halfway_to};

use crate::resample::resample_count;
use crate::{Line, empty};
use geometry::point::lerp;
use polyline::length::point;

// Half-way between two polylines, point by point.
fn halfway(l: &Line, r: &Line) -> Line
    requires { l.now.count ≤ 64 }
    ensures { points_of result ≡ halfway_to l.now.coords r.now.coords l.now.count }
{
    let mut line = empty();
    for i in 0..l.count {
        line.push(lerp(point(&l.coords, i), point(&r.coords, i), 0.5));
    }
    line
}

// Both sides resampled to the larger point count, and averaged point by point: at least two points.
// None where a side has no points.
pub fn centerline(left: &[f64], right: &[f64]) -> Option<Line>
    requires { (length left.now / 3 ≤ 64) × (length right.now / 3 ≤ 64) }
    ensures { line_option result ≡ centerline (polyline_of left.now) (polyline_of right.now) }
{
    let n = left.len() / 3;
    let m = right.len() / 3;
    if n == 0 {
        return None;
    }
    if m == 0 {
        return None;
    }
    let larger = n.max(m);
    let l = resample_count(left, larger);
    let r = resample_count(right, larger);
    Some(halfway(&l, &r))
}
