// Polylines that are made: reversed, resampled, and the centreline between two sides.
//
// The inner functions ask that a polyline has at most 64 points, which an array here holds: what C calls has no heap. So a line
// and its stations are an array and a count, as C lends them; their sizes and numbers differ, and no function is for both.

#![tactic(auto)]

ghost use Rattle.std.specs.Prelude.{◌<◌};
ghost use Rattle.centerline.specs.Line.{Empty, Pushed};

use geometry::Point3;

pub mod measure; // measure.rt: the length up to each point
pub mod reversed; // reversed.rt: the other way round
pub mod resample; // resample.rt: evenly spaced points
pub mod middle; // middle.rt: the centreline

// A polyline: the first `count` points, x, y and z in turn.
#[derive(Clone, Copy)]
pub struct Line {
    pub coords: [f64; 192],
    pub count: usize,
}

// The first `count` of the numbers.
#[derive(Drop)]
pub struct Stations {
    pub values: [f64; 64],
    pub count: usize,
}

// A line without points.
pub fn empty() -> Line
    ensures { Empty result }
{
    Line {
        coords: [0.0; 192],
        count: 0,
    }
}

impl Line {
    // One point more.
    #[tactic(auto, using(crate::proofs::Arrays::pushed))]
    pub fn push(&mut self, p: Point3)
        requires { self.old.count < 64 }
        ensures { Pushed self.old p self.new }
    {
        let k = self.count * 3;
        self.coords[k] = p.x;
        self.coords[k + 1] = p.y;
        self.coords[k + 2] = p.z;
        self.count += 1;
    }
}
