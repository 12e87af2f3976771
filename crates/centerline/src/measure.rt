// The length up to each point.
ghost use Rattle.std.specs.Prelude.{◌≡◌, ◌<◌, ◌/◌, ◌≤◌, length};
ghost use Rattle.geometry.specs.Polyline.{polyline_of, stations};
ghost use Rattle.centerline.specs.Line.{stations_of, Measured};

use crate::Stations;
use polyline::length::segment_length;

pub fn stations(cs: &[f64]) -> Stations
    requires { length cs.now / 3 ≤ 64 }
    ensures { stations_of result ≡ stations (polyline_of cs.now) }
{
    let n = cs.len() / 3;
    let mut values = [0.0; 64];
    let mut acc = 0.0;
    for i in 1..n {
        acc += segment_length(cs, i - 1);
        values[i] = acc;
    }
    Stations { values, count: n }
}

// A polyline with its stations and segment lengths in one table, so that a resampling works out no root twice.
#[derive(Drop)]
pub struct Survey<'a> {
    pub cs: &'a [f64],
    pub table: [f64; 128],
    pub ghost few: { length cs.now / 3 ≤ 64 },
    pub ghost measured: { Measured (polyline_of cs.now) table },
}

// At 2 * j the length up to point j, and after it the length of segment j.
pub fn measure(cs: &[f64]) -> Survey<'_>
    requires { length cs.now / 3 ≤ 64 }
    ensures { result.cs.now ≡ cs.now }
{
    let mut table = [0.0; 128];
    let mut acc = 0.0;
    for i in 1..cs.len() / 3 {
        let seg = segment_length(cs, i - 1);
        table[i * 2 - 1] = seg;
        acc += seg;
        table[i * 2] = acc;
    }
    Survey { cs, table }
}
