// A polyline the other way round.
ghost use Rattle.std.specs.Prelude.{◌≡◌, ◌/◌, ◌≤◌, length};
ghost use Rattle.geometry.specs.Polyline.{polyline_of, reversed};
ghost use Rattle.centerline.specs.Line.{points_of};

use crate::Line;
use polyline::length::point;

pub fn reversed(cs: &[f64]) -> Line
    requires { length cs.now / 3 ≤ 64 }
    ensures { points_of result ≡ reversed (polyline_of cs.now) }
{
    let n = cs.len() / 3;
    let mut coords = [0.0; 192];
    for i in 0..n {
        let p = point(cs, n - 1 - i);
        let k = i * 3;
        coords[k] = p.x;
        coords[k + 1] = p.y;
        coords[k + 2] = p.z;
    }
    // an array that becomes the line: with a line that grows by its points all of it is copied once more
    Line { coords, count: n }
}
