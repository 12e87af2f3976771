// The light that a new one joins, and the choice of a line.
ghost use Rattle.std.specs.Prelude.{◌≡◌, ◌<◌, length};
ghost use Rattle.placing.specs.Answers.{checked};
ghost use Rattle.edit.specs.Light.{check_new};
ghost use Rattle.store.specs.Layout.{SizedWords};
ghost use Rattle.place.specs.Readable.{ReadableWords};
ghost use Rattle.lighting.specs.Group.{GroupRefused, GroupRead, ExistingChecked, ChoiceChecked, AutoChosen, OwnChosen, PlanChosen};

use crate::rules::{existing_stop_line, stops_at};
use crate::{GroupLine, LinePlan};
use edit::StopLineChoice;
use map::lookup;
use place::Placement;
use refusal::{GroupFault, RecordKind, Refusal};
use store::Kind;

fn refused_group(r: Refusal) -> GroupLine
    ensures { GroupRefused r result }
{
    GroupLine {
        checked: Err(r),
        line: None,
    }
}

// The line of the light that is joined: one that is there, controls no crosswalks and is a light.
#[tactic(auto, using(crate::proofs::GroupLaws::group_none, crate::proofs::GroupLaws::group_unknown, crate::proofs::GroupLaws::group_row, crate::proofs::GroupLaws::group_word))]
pub fn group_line(words: &[u64], group: Option<u64>) -> GroupLine
    requires { ReadableWords words.now }
    ensures { GroupRead words.now group result }
{
    let Some(g) = group else {
        return GroupLine {
            checked: Ok(()),
            line: None,
        };
    };
    let Some(i) = lookup::find(words, Kind::Rule, g) else {
        return refused_group(Refusal::Unknown(RecordKind::Rule, g));
    };
    if lookup::word(words, Kind::Rule, i, 24) != 0 {
        return refused_group(Refusal::WrongGroup(GroupFault::ControlsCrosswalks));
    }
    let h = lookup::rule_head(words, i);
    if h.kind != 1 {
        return refused_group(Refusal::WrongGroup(GroupFault::NotALight));
    }
    GroupLine {
        checked: Ok(()),
        line: stops_at(h),
    }
}

// A line that is there, and the group's where the group has one.
#[tactic(auto, using(crate::proofs::GroupLaws::existing_unknown))]
fn check_existing(words: &[u64], group: Option<u64>, s: u64) -> Result<(), Refusal>
    requires { SizedWords words.now }
    ensures { ExistingChecked words.now group s result }
{
    let Some(_) = lookup::find(words, Kind::StopLine, s) else {
        return Err(Refusal::Unknown(RecordKind::StopLine, s));
    };
    let Some(g) = group else {
        return Ok(());
    };
    if g != s {
        return Err(Refusal::WrongGroup(GroupFault::UsesAnotherLine));
    }
    Ok(())
}

// A new line is turned down where the group has one.
#[tactic(auto, using(crate::proofs::GroupLaws::new_free, crate::proofs::GroupLaws::new_taken))]
fn check_new(group: Option<u64>) -> Result<(), Refusal>
    ensures { checked result ≡ check_new group }
{
    let Some(_) = group else {
        return Ok(());
    };
    Err(Refusal::WrongGroup(GroupFault::HasALine))
}

#[tactic(auto, using(crate::proofs::GroupLaws::choice_automatic, crate::proofs::GroupLaws::choice_none, crate::proofs::GroupLaws::choice_existing))]
pub fn check_choice(
    words: &[u64],
    group: Option<u64>,
    choice: StopLineChoice,
) -> Result<(), Refusal>
    requires { SizedWords words.now }
    ensures { ChoiceChecked words.now group choice result }
{
    match choice {
        StopLineChoice::Automatic => Ok(()),
        StopLineChoice::New(_) => check_new(group),
        StopLineChoice::NoLine => Ok(()),
        StopLineChoice::Existing(s) => check_existing(words, group, s),
    }
}

// The group's line, or one that a rule of the first lane names, or a new one at its end.
#[tactic(auto, using(crate::proofs::GroupLaws::auto_group, crate::proofs::GroupLaws::auto_found, crate::proofs::GroupLaws::auto_new))]
fn automatic(words: &[u64], lane: u64, group: Option<u64>) -> LinePlan
    requires { ReadableWords words.now }
    ensures { AutoChosen words.now lane group result }
{
    if let Some(g) = group {
        return LinePlan::Use(g);
    }
    let u = existing_stop_line(words, lane);
    if let Some(s) = u {
        return LinePlan::Use(s);
    }
    LinePlan::Draw(Placement::AtLaneEnd(0.0))
}

// The choice of no line: the group's, where it has one.
#[tactic(auto, using(crate::proofs::GroupLaws::own_none, crate::proofs::GroupLaws::own_some))]
fn own_plan(group: Option<u64>) -> LinePlan
    ensures { OwnChosen group result }
{
    let Some(g) = group else {
        return LinePlan::NoLine;
    };
    LinePlan::Use(g)
}

// Where the line comes from.
#[tactic(auto, using(crate::proofs::GroupLaws::plan_existing, crate::proofs::GroupLaws::plan_none, crate::proofs::GroupLaws::plan_new, crate::proofs::GroupLaws::plan_automatic))]
pub fn plan_for(
    words: &[u64],
    lanes: &[u64],
    group: Option<u64>,
    choice: StopLineChoice,
) -> LinePlan
    requires { ReadableWords words.now × (0 < length lanes.now) }
    ensures { PlanChosen words.now lanes.now group choice result }
{
    match choice {
        StopLineChoice::Existing(s) => LinePlan::Use(s),
        StopLineChoice::NoLine => own_plan(group),
        StopLineChoice::New(how) => LinePlan::Draw(how),
        StopLineChoice::Automatic => automatic(words, lanes[0], group),
    }
}
