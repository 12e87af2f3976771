// A light's plan: what it stops at, where its signal goes, and what is stored of it.
#![tactic(auto)]

use centerline::Line;
use place::{Placement, SectionNames};
use refusal::Refusal;

pub mod rules; // rules.rt: the lines that rules name
pub mod group; // group.rt: the light that is joined, and the choice of a line
pub mod housings; // housings.rt: where the signal goes
pub mod plan; // plan.rt: all that the call tests

// Where a light's line comes from.
#[derive(Clone, Copy)]
pub enum LinePlan {
    Use(u64),
    NoLine,
    Draw(Placement),
}

// The line of the light that is joined, where the check is fine.
#[derive(Drop)]
pub struct GroupLine {
    pub checked: Result<(), Refusal>,
    pub line: Option<u64>,
}

// What was chosen, where the check is fine.
#[derive(Drop)]
pub struct ChosenLine {
    pub checked: Result<(), Refusal>,
    pub plan: LinePlan,
}

// A signal's lower edge, where the check is fine, and whether it was made up.
#[derive(Drop)]
pub struct Housing {
    pub checked: Result<(), Refusal>,
    pub line: Line,
    pub synthesized: bool,
}

// Where the check is fine: the line's source, the line that is drawn, whether its station was moved
// and what its ends are called, and the housing.
#[derive(Drop)]
pub struct LightPlan {
    pub checked: Result<(), Refusal>,
    pub plan: LinePlan,
    pub line: Line,
    pub clamped: bool,
    pub ends: Option<SectionNames>,
    pub housing: Line,
    pub synthesized: bool,
}
