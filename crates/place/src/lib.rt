// What the edits read from the map before they store: where a stop line goes, and the checks on the way.

#![tactic(auto)]

pub mod lines; // lines.rt: a side of a lane, and its centreline
pub mod section; // section.rt: the cross-section

use geometry::{NearestPoint, Point3};
use refusal::Refusal;

// Where a stop line goes. Given points come beside it, in a slice of coordinates.
#[derive(Clone, Copy)]
pub enum Placement {
    // this far before the end of the first lane
    AtLaneEnd(f64),
    // at this station of the first lane
    AtStation(f64),
    Given,
}

// A line that may be missing: one without points is there all the same.
#[derive(Clone, Copy)]
pub struct MaybeLine {
    pub there: bool,
    pub line: centerline::Line,
}

// Which side of a lane.
#[derive(Clone, Copy)]
pub enum LaneSide {
    Left,
    Right,
}

// A side of a lane: which one, a boundary's number, and whether it runs against the lane.
#[derive(Drop)]
pub struct Side {
    pub side: LaneSide,
    pub number: u64,
    pub reversed: bool,
}

// What an end of a cross-section is called: a lane, and the side of it whose boundary has the point.
#[derive(Clone, Copy)]
pub struct EndName {
    pub lane: u64,
    pub side: LaneSide,
}

// The nearest point of a side, whose boundary may be missing or without points.
#[derive(Drop)]
pub struct SideNearest {
    pub there: bool,
    pub nearest: Option<NearestPoint>,
}

// How far to the left a boundary's nearest point lies, that point, and whose it is.
#[derive(Clone, Copy)]
pub struct SectionEnd {
    pub lateral: f64,
    pub point: Point3,
    pub name: EndName,
}

// The outermost ends so far.
#[derive(Drop)]
pub struct SectionEnds {
    pub left: Option<SectionEnd>,
    pub right: Option<SectionEnd>,
}

// The names of both ends.
#[derive(Clone, Copy)]
pub struct SectionNames {
    pub left: EndName,
    pub right: EndName,
}

// A cross-section, from left to right.
#[derive(Drop)]
pub struct CrossSection {
    pub left: Point3,
    pub right: Point3,
}
