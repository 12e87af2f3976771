// Evenly spaced points. A polyline is measured once, and each station is looked up from where the
// last one lay.
ghost use Rattle.std.specs.Prelude.{◌≡◌, false, cond, ◌/◌, ◌≤◌, ◌<◌, length};
ghost use Rattle.std.specs.Float.Ieee.{le};
ghost use Rattle.geometry.specs.Double.{f0};
ghost use Rattle.geometry.specs.Polyline.{polyline_of, resample_count};
ghost use Rattle.centerline.specs.Line.{points_of, Passed, Located};

use crate::measure::{Survey, measure};
use crate::{Line, empty};
use geometry::Location;
use geometry::double::clamp;
use polyline::locate::{point_of, reaches};

// Where to look from: the last place serves a station that is no smaller, since a segment that falls
// short of the smaller one falls short of it too.
fn resumed(before: f64, s: f64, from: usize) -> usize
    ensures { result ≡ cond (le before s) from 0 }
{
    if before <= s { from } else { 0 }
}

impl Survey<'_> {
    // The first segment from `from` on that reaches the station, or the end of the last.
    fn reaching_from(&self, s: f64, from: usize) -> Location
        requires { (1 < length self.now.cs.now / 3) × (from < length self.now.cs.now / 3) × Passed (polyline_of self.now.cs.now) s from × (le s f0 ≡ false) }
        ensures { Located (polyline_of self.now.cs.now) s result }
    {
        let last = self.cs.len() / 3 - 1;
        for i in from..last {
            let acc = self.table[i * 2];
            let seg = self.table[i * 2 + 1];
            if reaches(acc, seg, s) {
                return Location {
                    segment: i as u64,
                    fraction: clamp((s - acc) / seg, 0.0, 1.0),
                };
            }
        }
        Location {
            segment: (last - 1) as u64,
            fraction: 1.0,
        }
    }

    // Where a station lies, where no segment before `from` reaches it.
    fn locate_from(&self, s: f64, from: usize) -> Location
        requires { (from < length self.now.cs.now / 3) × Passed (polyline_of self.now.cs.now) s from }
        ensures { Located (polyline_of self.now.cs.now) s result }
    {
        let start = Location {
            segment: 0,
            fraction: 0.0,
        };
        if self.cs.len() / 3 == 1 {
            return start;
        }
        if s <= 0.0 {
            return start;
        }
        self.reaching_from(s, from)
    }

    // The points at i of count - 1 equal parts of the length, for i from 0 on.
    fn resampled(&self, count: usize) -> Line
        requires { (0 < length self.now.cs.now / 3) × (1 < count) × (count ≤ 64) }
        ensures { points_of result ≡ resample_count (polyline_of self.now.cs.now) count }
    {
        let total = self.table[(self.cs.len() / 3 - 1) * 2];
        let parts = (count - 1) as f64;
        let mut line = empty();
        let mut before = 0.0;
        let mut from = 0;
        for i in 0..count {
            let s = total * i as f64 / parts;
            let l = self.locate_from(s, resumed(before, s, from));
            line.push(point_of(self.cs, l));
            from = l.segment as usize;
            before = s;
        }
        line
    }
}

// At least two points, unless there are none.
pub fn resample_count(cs: &[f64], n: usize) -> Line
    requires { (length cs.now / 3 ≤ 64) × (n ≤ 64) }
    ensures { points_of result ≡ resample_count (polyline_of cs.now) n }
{
    if cs.len() / 3 == 0 {
        return empty();
    }
    measure(cs).resampled(n.max(2))
}
