// The three edits: what a caller asks for, and what it is answered.
#![tactic(auto)]

use changes::Tally;
use place::SectionNames;
use refusal::Refusal;

// The rule that makes vehicles stop at a new line.
#[derive(Clone, Copy)]
pub enum StopRule {
    StopSign,
    Marking,
    NoRule,
}

// Which line a light uses.
#[derive(Clone, Copy)]
pub enum StopLineChoice {
    // the group's, or one that a rule of the first lane names, or a new one at the end of the first lane
    Automatic,
    Existing(u64),
    New(place::Placement),
    NoLine,
}

// A lamp.
#[derive(Clone, Copy)]
pub struct SignalBulb {
    pub position: geometry::Point3,
    pub color: map::BulbColor,
    pub arrow: map::BulbArrow,
}

// How a lamp looks.
#[derive(Clone, Copy)]
pub struct Look {
    pub color: map::BulbColor,
    pub arrow: map::BulbArrow,
}

// A light's lamps: the standard ones, or those that are given. The positions of given lamps come beside the request, any number of
// them; the looks of the first four stand here. More than four are refused, so a fifth has none.
#[derive(Clone, Copy)]
pub struct Lamps {
    pub given: bool,
    pub looks: [Look; 4],
}

#[derive(Clone, Copy)]
pub enum Height {
    Standard,
    Metres(f64),
}

// A new light, but its lists: the lanes, the points of a given line, of a given housing and of given lamps come beside it.
#[derive(Clone, Copy)]
pub struct SignalRequest {
    pub choice: StopLineChoice,
    pub housing_given: bool,
    pub height: Height,
    pub kind: map::SignalKind,
    pub lamps: Lamps,
    // the light that it joins
    pub group: Option<u64>,
}

// An answer, and the tally that is right after it.
#[derive(Drop)]
pub struct Answered {
    pub called: Result<(u64, Option<SectionNames>), Refusal>,
    pub tally: Tally,
}
