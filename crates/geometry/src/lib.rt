// Points, vectors and polylines in doubles. Knows nothing of lanes.
//
// The functions of the modules are total: each answers what its definition gives for any doubles.

#![tactic(auto)]

pub mod double; // double.rt: tests on one number, and its clamp
pub mod vector; // vector.rt: what points of the plane and of space have in common
pub mod point; // point.rt: points and vectors of the plane, and of space

// A point of the plane, or a vector. It and a point of space differ in what they can do, and not in a number alone: so no
// array of a const length, whose coordinates would have no names.
#[derive(Clone, Copy)]
pub struct Point2 {
    pub x: f64,
    pub y: f64,
}

// A point in space, or a vector.
#[derive(Clone, Copy)]
pub struct Point3 {
    pub x: f64,
    pub y: f64,
    pub z: f64,
}

// Where on a polyline: the segment and how far along it, from 0 to 1.
#[derive(Clone, Copy)]
pub struct Location {
    pub segment: u64,
    pub fraction: f64,
}

// The point of a polyline that is nearest to a point of the plane.
#[derive(Drop)]
pub struct NearestPoint {
    pub point: Point3,
    // in the plane
    pub distance: f64,
    // the length along the polyline up to the point
    pub station: f64,
    pub segment: u64,
    // how far to the left of the segment the query lies
    pub lateral: f64,
}
