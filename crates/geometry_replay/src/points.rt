// Cases on numbers and points; not asked where the name is none of these. A name is told by its last eight letters.
use crate::answer::{Outcome, compared};
use crate::words::Numbers;
use geometry::vector::{Vector, distance};
use geometry::{Point2, Point3, double, point};

// A case of the plane.
pub fn plane(name: &[u8], numbers: Numbers, answer: &[u8]) -> Outcome {
    let [ax, ay, bx, by, cx, cy, _] = numbers;
    let a = Point2 { x: ax, y: ay };
    let b = Point2 { x: bx, y: by };
    let c = Point2 { x: cx, y: cy };
    match name {
        b"sub2" => compared(a.sub(b), answer),
        b"scale2" => compared(a.scale(bx), answer),
        b"dot2" => compared(point::dot(a, b), answer),
        b"cross2" => compared(point::cross(a, b), answer),
        b"norm2" | b"hypot" => compared(a.norm(), answer),
        b"istance2" => compared(distance(a, b), answer),
        b"malized2" => compared(point::normalized(a), answer),
        b"perp2" => compared(point::perp(a), answer),
        b"_segment" => compared(point::project_on_segment(a, b, c), answer),
        _ => Outcome::NotAsked,
    }
}

// A case of space, or of numbers.
pub fn space(name: &[u8], numbers: Numbers, answer: &[u8]) -> Outcome {
    let [ax, ay, az, bx, by, bz, t] = numbers;
    let a = Point3 {
        x: ax,
        y: ay,
        z: az,
    };
    let b = Point3 {
        x: bx,
        y: by,
        z: bz,
    };
    match name {
        b"add3" => compared(point::add3(a, b), answer),
        b"sub3" => compared(a.sub(b), answer),
        b"scale3" => compared(a.scale(bx), answer),
        b"norm3" => compared(a.norm(), answer),
        b"istance3" => compared(distance(a, b), answer),
        b"lerp3" => compared(point::lerp(a, b, t), answer),
        b"_finite3" => compared(point::is_finite(a), answer),
        b"clamp" => compared(double::clamp(ax, ay, az), answer),
        b"abs" => compared(double::abs(ax), answer),
        b"root" => compared(root::square_root(ax), answer),
        _ => Outcome::NotAsked,
    }
}
