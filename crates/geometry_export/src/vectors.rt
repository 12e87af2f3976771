// Calls on vectors.
ghost use Rattle.told.specs.Told.{Told, always, perhaps};
ghost use Rattle.geometry.specs.Point.{at2, at3};
ghost use Rattle.geometry.specs.Calls.{xy_call, sub2_call, scale2_call, dot_call, cross_call, norm2_call, normalized_call, perp_call, add3_call, sub3_call, scale3_call, norm3_call};
ghost use Rattle.geometry_export.specs.Lent.{plane_in, number_in, space_in};

use crate::written;
use geometry::{Point2, Point3};

// The point's place in the plane.
#[tactic(auto, using(told::proofs::Laws::always_of))]
#[unsafe(no_mangle)]
pub extern "C" fn geometry_flat(px: f64, py: f64, pz: f64, out: &mut [f64; 2]) -> u64
    ensures { Told (always (xy_call (at3 px py pz))) plane_in result out.old out.new }
{
    let a = geometry_calls::points::flat(Point3 {
        x: px,
        y: py,
        z: pz,
    });
    written::always(a, out)
}

#[tactic(auto, using(told::proofs::Laws::always_of), unfolding(geometry::specs::Calls::sub2_call))]
#[unsafe(no_mangle)]
pub extern "C" fn geometry_sub2(ax: f64, ay: f64, bx: f64, by: f64, out: &mut [f64; 2]) -> u64
    ensures { Told (always (sub2_call (at2 ax ay) (at2 bx by))) plane_in result out.old out.new }
{
    let a = geometry_calls::points::sub(Point2 { x: ax, y: ay }, Point2 { x: bx, y: by });
    written::always(a, out)
}

#[tactic(auto, using(told::proofs::Laws::always_of), unfolding(geometry::specs::Calls::scale2_call))]
#[unsafe(no_mangle)]
pub extern "C" fn geometry_scale2(ax: f64, ay: f64, t: f64, out: &mut [f64; 2]) -> u64
    ensures { Told (always (scale2_call (at2 ax ay) t)) plane_in result out.old out.new }
{
    let a = geometry_calls::points::scale(Point2 { x: ax, y: ay }, t);
    written::always(a, out)
}

#[tactic(auto, using(told::proofs::Laws::always_of))]
#[unsafe(no_mangle)]
pub extern "C" fn geometry_dot(ax: f64, ay: f64, bx: f64, by: f64, out: &mut [f64; 1]) -> u64
    ensures { Told (always (dot_call (at2 ax ay) (at2 bx by))) number_in result out.old out.new }
{
    let a = geometry_calls::points::dot(Point2 { x: ax, y: ay }, Point2 { x: bx, y: by });
    written::always(a, out)
}

#[tactic(auto, using(told::proofs::Laws::always_of))]
#[unsafe(no_mangle)]
pub extern "C" fn geometry_cross(ax: f64, ay: f64, bx: f64, by: f64, out: &mut [f64; 1]) -> u64
    ensures { Told (always (cross_call (at2 ax ay) (at2 bx by))) number_in result out.old out.new }
{
    let a = geometry_calls::points::cross(Point2 { x: ax, y: ay }, Point2 { x: bx, y: by });
    written::always(a, out)
}

#[tactic(auto, using(told::proofs::Laws::always_of), unfolding(geometry::specs::Calls::norm2_call))]
#[unsafe(no_mangle)]
pub extern "C" fn geometry_norm2(ax: f64, ay: f64, out: &mut [f64; 1]) -> u64
    ensures { Told (always (norm2_call (at2 ax ay))) number_in result out.old out.new }
{
    let a = geometry_calls::points::norm(Point2 { x: ax, y: ay });
    written::always(a, out)
}

// No answer where the norm is not above 1e-9.
#[tactic(auto, using(told::proofs::Laws::perhaps_of))]
#[unsafe(no_mangle)]
pub extern "C" fn geometry_normalized(ax: f64, ay: f64, out: &mut [f64; 2]) -> u64
    ensures { Told (perhaps (normalized_call (at2 ax ay))) plane_in result out.old out.new }
{
    let a = geometry_calls::points::normalized(Point2 { x: ax, y: ay });
    written::perhaps(a, out)
}

// Rotated by a quarter to the left.
#[tactic(auto, using(told::proofs::Laws::always_of))]
#[unsafe(no_mangle)]
pub extern "C" fn geometry_perp(ax: f64, ay: f64, out: &mut [f64; 2]) -> u64
    ensures { Told (always (perp_call (at2 ax ay))) plane_in result out.old out.new }
{
    let a = geometry_calls::points::perp(Point2 { x: ax, y: ay });
    written::always(a, out)
}

#[tactic(auto, using(told::proofs::Laws::always_of))]
#[unsafe(no_mangle)]
pub extern "C" fn geometry_add3(
    ax: f64,
    ay: f64,
    az: f64,
    bx: f64,
    by: f64,
    bz: f64,
    out: &mut [f64; 3],
) -> u64
    ensures { Told (always (add3_call (at3 ax ay az) (at3 bx by bz))) space_in result out.old out.new }
{
    let a = geometry_calls::points::add3(
        Point3 {
            x: ax,
            y: ay,
            z: az,
        },
        Point3 {
            x: bx,
            y: by,
            z: bz,
        },
    );
    written::always(a, out)
}

#[tactic(auto, using(told::proofs::Laws::always_of), unfolding(geometry::specs::Calls::sub3_call))]
#[unsafe(no_mangle)]
pub extern "C" fn geometry_sub3(
    ax: f64,
    ay: f64,
    az: f64,
    bx: f64,
    by: f64,
    bz: f64,
    out: &mut [f64; 3],
) -> u64
    ensures { Told (always (sub3_call (at3 ax ay az) (at3 bx by bz))) space_in result out.old out.new }
{
    let a = geometry_calls::points::sub(
        Point3 {
            x: ax,
            y: ay,
            z: az,
        },
        Point3 {
            x: bx,
            y: by,
            z: bz,
        },
    );
    written::always(a, out)
}

#[tactic(auto, using(told::proofs::Laws::always_of), unfolding(geometry::specs::Calls::scale3_call))]
#[unsafe(no_mangle)]
pub extern "C" fn geometry_scale3(ax: f64, ay: f64, az: f64, t: f64, out: &mut [f64; 3]) -> u64
    ensures { Told (always (scale3_call (at3 ax ay az) t)) space_in result out.old out.new }
{
    let a = geometry_calls::points::scale(
        Point3 {
            x: ax,
            y: ay,
            z: az,
        },
        t,
    );
    written::always(a, out)
}

#[tactic(auto, using(told::proofs::Laws::always_of), unfolding(geometry::specs::Calls::norm3_call))]
#[unsafe(no_mangle)]
pub extern "C" fn geometry_norm3(ax: f64, ay: f64, az: f64, out: &mut [f64; 1]) -> u64
    ensures { Told (always (norm3_call (at3 ax ay az))) number_in result out.old out.new }
{
    let a = geometry_calls::points::norm(Point3 {
        x: ax,
        y: ay,
        z: az,
    });
    written::always(a, out)
}
