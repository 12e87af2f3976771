// A stop line's place: the checks of what is given, and the line or a refusal.
#![tactic(auto)]

use centerline::Line;
use place::SectionNames;
use refusal::Refusal;

pub mod lists; // lists.rt: tests of a whole list
pub mod checks; // checks.rt: a list of lanes, and given points
pub mod stop_line; // stop_line.rt: where a stop line goes

// Where the check is fine: the line, whether the station was moved, and the names of both ends of a cross-section.
#[derive(Clone, Copy)]
pub struct PlacedLine {
    pub checked: Result<(), Refusal>,
    pub line: Line,
    pub clamped: bool,
    pub ends: Option<SectionNames>,
}
