// All that a light's call tests, and where its line and its signal go.
ghost use Rattle.std.specs.Prelude.{◌≡◌, true, not, ◌||◌, cond, [], ◌/◌, ◌≤◌, ◌<◌, length, get_or, None, Some};
ghost use Rattle.map.specs.Tables.{map_of};
ghost use Rattle.place.specs.Readable.{ReadableWords, Readable};
ghost use Rattle.place.specs.Values.{Roomy};
ghost use Rattle.placing.specs.Answers.{checked};
ghost use Rattle.edit.specs.Light.{bad_height, check_housing, light_plan};
ghost use Rattle.edit.specs.Request.{height_given, new_traffic_signal};
ghost use Rattle.lighting.specs.Plan.{ChoiceMade, asks_center, CenterAt, StoredRead, EndRead, AnchorRead, Anchored, LightRead, LightPlanned, planned_as};

use crate::group::{check_choice, group_line, plan_for};
use crate::housings::housing_for;
use crate::{ChosenLine, LightPlan, LinePlan};
use edit::{Height, SignalRequest};
use geometry::double::is_finite;
use map::lookup;
use place::MaybeLine;
use place::lines::{absent, copied, lane_centerline};
use place::section::cross_section;
use placing::PlacedLine;
use placing::checks::{check_lane_list, check_polyline};
use placing::stop_line::{across, place_with, refused_line};
use refusal::{Measure, PlaceFault, RecordKind, Refusal};
use store::Kind;

// A height that is given must be finite and above 0.
#[tactic(auto, using(crate::proofs::PlanLaws::height_standard, crate::proofs::PlanLaws::height_is))]
fn bad_height(h: Height) -> bool
    ensures { result ≡ bad_height (height_given h) }
{
    let Height::Metres(x) = h else {
        return false;
    };
    if !is_finite(x) {
        return true;
    }
    !(0.0 < x)
}

#[tactic(auto, using(crate::proofs::PlanLaws::housing_checked, crate::proofs::PlanLaws::housing_unchecked))]
fn check_housing(given: bool, cs: &[f64]) -> Result<(), Refusal>
    ensures { checked result ≡ check_housing (cond given (Some cs.now) None) }
{
    if given {
        return check_polyline(cs);
    }
    Ok(())
}

fn refused_choice(r: Refusal) -> ChosenLine
    ensures { result.checked ≡ Err r }
{
    ChosenLine {
        checked: Err(r),
        plan: LinePlan::NoLine,
    }
}

// The tests before the line's place, in their order, and where the line comes from.
#[tactic(auto, using(placing::proofs::CheckLaws::lanes_there, crate::proofs::PlanLaws::choose_height, crate::proofs::PlanLaws::choose_fine))]
fn choose(words: &[u64], lanes: &[u64], q: SignalRequest, housing: &[f64]) -> ChosenLine
    requires { ReadableWords words.now }
    ensures { ChoiceMade words.now lanes.now q housing.now result }
{
    let listed = check_lane_list(words, lanes);
    if let Err(r) = listed {
        return refused_choice(r);
    }
    let height = q.height;
    if bad_height(height) {
        return refused_choice(Refusal::BadMeasure(Measure::Height));
    }
    let shape = check_housing(q.housing_given, housing);
    if let Err(r) = shape {
        return refused_choice(r);
    }
    let group = q.group;
    let g = group_line(words, group);
    let joined = g.checked;
    if let Err(r) = joined {
        return refused_choice(r);
    }
    let line = g.line;
    let choice = q.choice;
    let chosen = check_choice(words, line, choice);
    if let Err(r) = chosen {
        return refused_choice(r);
    }
    ChosenLine {
        checked: Ok(()),
        plan: plan_for(words, lanes, line, choice),
    }
}

// The first lane's centreline. An existing line with a given housing does not ask for it.
#[tactic(auto, using(crate::proofs::PlanLaws::center_needless))]
fn center_for(
    words: &[u64],
    coords: &[f64],
    lanes: &[u64],
    plan: LinePlan,
    given: bool,
) -> MaybeLine
    requires { Readable words.now coords.now × (0 < length lanes.now) }
    ensures { CenterAt (map_of words.now coords.now) (get_or lanes.now 0 0) (asks_center plan || not given) result }
{
    if given {
        if let LinePlan::Use(_) = plan {
            return absent();
        }
    }
    lane_centerline(words, coords, lanes[0])
}

// The line s of the map.
#[tactic(auto, using(crate::proofs::PlanLaws::stored_word, crate::proofs::PlanLaws::stored_part))]
fn stored_line(words: &[u64], coords: &[f64], s: u64) -> PlacedLine
    requires { Readable words.now coords.now }
    ensures { StoredRead (map_of words.now coords.now) s result }
{
    let Some(i) = lookup::find(words, Kind::StopLine, s) else {
        return refused_line(Refusal::Unknown(RecordKind::StopLine, s));
    };
    let n = rows::index(lookup::word(words, Kind::StopLine, i, 1));
    PlacedLine {
        checked: Ok(()),
        line: copied(lookup::points(coords, Kind::StopLine, i, 0, n)),
        clamped: false,
        ends: None,
    }
}

// The cross-section at the end of the first lane. No line is drawn there, so its ends are not told.
#[tactic(auto, using(place::proofs::LineLaws::part_long, crate::proofs::PlanLaws::end_missing))]
fn end_line(words: &[u64], coords: &[f64], center: MaybeLine, lanes: &[u64]) -> PlacedLine
    requires { Readable words.now coords.now × CenterAt (map_of words.now coords.now) (get_or lanes.now 0 0) true center }
    ensures { EndRead (map_of words.now coords.now) lanes.now result }
{
    if !center.there {
        return refused_line(Refusal::NoPlace(PlaceFault::NoLaneGeometry));
    }
    let line = center.line;
    let cs = line.coords;
    let e = line.count * 3;
    let part = &cs[..e];
    match cross_section(words, coords, part, polyline::length::length(part), lanes) {
        Err(r) => refused_line(r),
        Ok((s, _)) => PlacedLine {
            checked: Ok(()),
            line: across(s),
            clamped: false,
            ends: None,
        },
    }
}

// What the signal is put above: the line that is used or drawn, or the end of the first lane.
#[tactic(auto, using(crate::proofs::PlanLaws::center_asked, crate::proofs::PlanLaws::center_line))]
fn anchor_for(
    words: &[u64],
    coords: &[f64],
    center: MaybeLine,
    lanes: &[u64],
    plan: LinePlan,
    points: &[f64],
) -> PlacedLine
    requires { Readable words.now coords.now × (0 < length lanes.now) × CenterAt (map_of words.now coords.now) (get_or lanes.now 0 0) (asks_center plan) center }
    ensures { AnchorRead (map_of words.now coords.now) lanes.now plan points.now result }
{
    match plan {
        LinePlan::Use(s) => stored_line(words, coords, s),
        LinePlan::NoLine => end_line(words, coords, center, lanes),
        LinePlan::Draw(how) => place_with(words, coords, center, lanes, how, points),
    }
}

fn refused_plan(r: Refusal) -> LightPlan
    ensures { (result.checked ≡ Err r) × Roomy result.line × Roomy result.housing }
{
    LightPlan {
        checked: Err(r),
        plan: LinePlan::NoLine,
        line: centerline::empty(),
        clamped: false,
        ends: None,
        housing: centerline::empty(),
        synthesized: false,
    }
}

// The signal above its anchor.
#[tactic(auto, using(crate::proofs::PlanLaws::anchored_refused, crate::proofs::PlanLaws::anchored_fine))]
fn with_housing(
    center: MaybeLine,
    plan: LinePlan,
    a: PlacedLine,
    given: bool,
    cs: &[f64],
) -> LightPlan
    requires { Roomy center.line × Roomy a.line × (given ≡ true → length cs.now / 3 ≤ 64) }
    ensures { Anchored center plan a (cond given (Some cs.now) None) result }
{
    let placed = a.checked;
    if let Err(r) = placed {
        return refused_plan(r);
    }
    let line = a.line;
    let ends = a.ends;
    let h = housing_for(center, line, given, cs);
    let checked = h.checked;
    let housing = h.line;
    LightPlan {
        checked,
        plan,
        line,
        clamped: a.clamped,
        ends,
        housing,
        synthesized: h.synthesized,
    }
}

// Where a line of this source and the signal go.
#[tactic(auto, using(crate::proofs::PlanLaws::center_anchor, crate::proofs::PlanLaws::light_is))]
fn place_light(
    words: &[u64],
    coords: &[f64],
    lanes: &[u64],
    plan: LinePlan,
    points: &[f64],
    given: bool,
    housing: &[f64],
) -> LightPlan
    requires { Readable words.now coords.now × (0 < length lanes.now) × (given ≡ true → length housing.now / 3 ≤ 64) }
    ensures { LightRead lanes.now (planned_as (map_of words.now coords.now) lanes.now plan points.now (cond given (Some housing.now) None)) result }
{
    let center = center_for(words, coords, lanes, plan, given);
    let a = anchor_for(words, coords, center, lanes, plan, points);
    with_housing(center, plan, a, given, housing)
}

// A light's plan, or the refusal. Given points and a given housing come beside the request; the lamps play no part in it.
#[tactic(auto, using(crate::proofs::PlanLaws::plan_refused, crate::proofs::PlanLaws::plan_is))]
pub fn light_plan(
    words: &[u64],
    coords: &[f64],
    lanes: &[u64],
    q: SignalRequest,
    points: &[f64],
    housing: &[f64],
) -> LightPlan
    requires { Readable words.now coords.now }
    ensures { LightPlanned lanes.now (light_plan (new_traffic_signal lanes.now q points.now housing.now []) (map_of words.now coords.now)) result }
{
    let c = choose(words, lanes, q, housing);
    let chosen = c.checked;
    if let Err(r) = chosen {
        return refused_plan(r);
    }
    let plan = c.plan;
    let given = q.housing_given;
    place_light(words, coords, lanes, plan, points, given, housing)
}
