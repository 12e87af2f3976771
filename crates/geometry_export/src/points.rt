// Calls on points.
ghost use Rattle.told.specs.Told.{Told, always};
ghost use Rattle.geometry.specs.Point.{at2, at3};
ghost use Rattle.geometry.specs.Calls.{distance2_call, distance3_call, lerp_call, project_on_segment_call};
ghost use Rattle.geometry_export.specs.Lent.{number_in, space_in};

use crate::written;
use geometry::{Point2, Point3};

#[tactic(auto, using(told::proofs::Laws::always_of), unfolding(geometry::specs::Calls::distance2_call))]
#[unsafe(no_mangle)]
pub extern "C" fn geometry_distance2(ax: f64, ay: f64, bx: f64, by: f64, out: &mut [f64; 1]) -> u64
    ensures { Told (always (distance2_call (at2 ax ay) (at2 bx by))) number_in result out.old out.new }
{
    let a = geometry_calls::points::distance(Point2 { x: ax, y: ay }, Point2 { x: bx, y: by });
    written::always(a, out)
}

#[tactic(auto, using(told::proofs::Laws::always_of), unfolding(geometry::specs::Calls::distance3_call))]
#[unsafe(no_mangle)]
pub extern "C" fn geometry_distance3(
    ax: f64,
    ay: f64,
    az: f64,
    bx: f64,
    by: f64,
    bz: f64,
    out: &mut [f64; 1],
) -> u64
    ensures { Told (always (distance3_call (at3 ax ay az) (at3 bx by bz))) number_in result out.old out.new }
{
    let a = geometry_calls::points::distance(
        Point3 {
            x: ax,
            y: ay,
            z: az,
        },
        Point3 {
            x: bx,
            y: by,
            z: bz,
        },
    );
    written::always(a, out)
}

// Between a (t = 0) and b (t = 1).
#[tactic(auto, using(told::proofs::Laws::always_of))]
#[unsafe(no_mangle)]
pub extern "C" fn geometry_lerp(
    ax: f64,
    ay: f64,
    az: f64,
    bx: f64,
    by: f64,
    bz: f64,
    t: f64,
    out: &mut [f64; 3],
) -> u64
    ensures { Told (always (lerp_call (at3 ax ay az) (at3 bx by bz) t)) space_in result out.old out.new }
{
    let a = geometry_calls::points::lerp(
        Point3 {
            x: ax,
            y: ay,
            z: az,
        },
        Point3 {
            x: bx,
            y: by,
            z: bz,
        },
        t,
    );
    written::always(a, out)
}

// How far along a to b the point nearest to p is, from 0 to 1.
#[tactic(auto, using(told::proofs::Laws::always_of))]
#[unsafe(no_mangle)]
pub extern "C" fn geometry_project_on_segment(
    px: f64,
    py: f64,
    ax: f64,
    ay: f64,
    bx: f64,
    by: f64,
    out: &mut [f64; 1],
) -> u64
    ensures { Told (always (project_on_segment_call (at2 px py) (at2 ax ay) (at2 bx by))) number_in result out.old out.new }
{
    let a = geometry_calls::points::project_on_segment(
        Point2 { x: px, y: py },
        Point2 { x: ax, y: ay },
        Point2 { x: bx, y: by },
    );
    written::always(a, out)
}
