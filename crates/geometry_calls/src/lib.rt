// The geometry calls: a call is refused with 9 for a coordinate that is missing, not finite or beyond
// 2 ^ 26, then with 10 for more than 64 points, then with 4, detail 3, for a station, fraction or factor
// that is not finite; else it answers as the inner function. No call asks anything of its caller.
#![tactic(auto)]

pub mod tests; // tests.rt: what is refused
pub mod points; // points.rt: calls on points and vectors
pub mod lines; // lines.rt: calls on a polyline
pub mod made; // made.rt: calls that make a polyline
