// Polylines: slices of coordinates, x, y and z in turn. A last point that lacks a coordinate is none.
//
// The public functions are total: each answers what its definition gives for any doubles. Those on a segment ask that it lies
// within the slice, as an index of a slice does: a struct round the slice would ask the same, and give it a second name.

#![tactic(auto)]

pub mod length; // length.rt: points, segments and their lengths
pub mod locate; // locate.rt: where a station lies, and the point there
pub mod direction; // direction.rt: the direction at a station
pub mod nearest; // nearest.rt: the nearest point
