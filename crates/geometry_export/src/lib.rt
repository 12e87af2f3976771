// Geometry for programs in other languages: the refusing calls of `geometry_calls`, numbers and slices
// in, the answer in arrays that the caller lends. The result is 0 where an answer was written; else it is
// the refusal's number, or 254 where there is no answer, and nothing was written. C has neither generic functions nor Option: so
// each call stands for the plane and for space, a point is its coordinates, and a code says what was written.

#![tactic(auto)]

pub mod written; // written.rt: answers written into lent arrays
pub mod points; // points.rt: points
pub mod vectors; // vectors.rt: vectors
pub mod lines; // lines.rt: a polyline
pub mod made; // made.rt: polylines that are made
