// What is known of a light before anything is stored: its plan, its numbers, its lamps, and that there is room for it.
#![tactic(auto)]

pub mod tests; // tests.rt: whether it is on the map, and whether there is room

ghost use Rattle.std.specs.Prelude.{◌≡◌, true, ◌≤◌};
ghost use Rattle.row_tests.specs.Flat.{all_points, Few};
ghost use Rattle.map.specs.Tables.{is_map_tables};
ghost use Rattle.place.specs.Readable.{ReadableWords};
ghost use Rattle.place.specs.Values.{Roomy};
ghost use Rattle.lifting.specs.Lifting.{ShapesFew};
ghost use Rattle.edit.specs.Request.{new_traffic_signal};
ghost use Rattle.light_room.specs.Room.{Fitted, PlanRefused, SignalPlanned};

use centerline::Line;
use edit::SignalRequest;
use light_draft::{Light, light_of};
use lighting::LinePlan;
use lighting::plan::light_plan;
use map::Entries;
use place::SectionNames;
use refusal::Refusal;
use signal_row::{Bulbs, bulbs_of};

// Where the check is fine: all that is stored.
#[derive(Drop)]
pub struct SignalPlan {
    pub checked: Result<(), Refusal>,
    pub plan: LinePlan,
    pub light: Light,
    pub line: Line,
    pub clamped: bool,
    pub ends: Option<SectionNames>,
    pub housing: Line,
    pub synthesized: bool,
    pub bulbs: Bulbs,
    // the lanes of the light that is joined
    pub joined: Entries,
}

// 9 for what is to be stored, the lamps being on the map or not, then 10 for so many of them and all else.
#[tactic(auto, using(crate::proofs::TestLaws::freed_few, crate::proofs::TestLaws::more_few, crate::proofs::TestLaws::fitted_off, crate::proofs::TestLaws::fitted_full, crate::proofs::TestLaws::fitted_fine))]
fn fitted(
    words: &[u64],
    lanes: &[u64],
    l: Light,
    line: Line,
    housing: Line,
    lamps: bool,
    count: u64,
    joined: Entries,
) -> Result<(), Refusal>
    requires { ReadableWords words.now × ShapesFew words.now × Few words.now × (all_points words.now ≤ 1024) × Roomy line × Roomy housing }
    ensures { Fitted words.now lanes.now l line housing lamps count joined result }
{
    if !tests::on_map(l.drawn, line, housing, lamps) {
        return Err(Refusal::OffTheMap);
    }
    let freed = tests::freed_by(words, l.has_line, l.line, lanes);
    let lists = tests::lists_fit(words, l.joins, l.rule, lanes.len(), joined);
    let more = tests::points_of(l.drawn, line.count, housing.count);
    if !tests::room(words, l.drawn, l.joins, freed, more, count, lists) {
        return Err(Refusal::Full);
    }
    Ok(())
}

fn refused_plan(r: Refusal, p: SignalPlan) -> SignalPlan
    ensures { PlanRefused r result }
{
    SignalPlan {
        checked: Err(r),
        plan: p.plan,
        light: p.light,
        line: p.line,
        clamped: p.clamped,
        ends: p.ends,
        housing: p.housing,
        synthesized: p.synthesized,
        bulbs: p.bulbs,
        joined: p.joined,
    }
}

// All refusals before the fold's, in their order, or the plan.
#[tactic(auto, using(crate::proofs::PlanLaws::plan_ready, place::proofs::Sound::readable))]
pub fn signal_plan(
    words: &[u64],
    coords: &[f64],
    lanes: &[u64],
    q: SignalRequest,
    points: &[f64],
    given: &[f64],
    lamps: &[f64],
) -> SignalPlan
    requires { is_map_tables words.now coords.now ≡ true }
    ensures { SignalPlanned words.now coords.now q lamps.now (new_traffic_signal lanes.now q points.now given.now lamps.now) result }
{
    let p = light_plan(words, coords, lanes, q, points, given);
    let light = light_of(words, p.plan, q.group);
    let bulbs = bulbs_of(q, p.housing, lamps);
    let joined = tests::joined_for(words, light.joins, light.rule, lanes);
    let all = SignalPlan {
        checked: p.checked,
        plan: p.plan,
        light,
        line: p.line,
        clamped: p.clamped,
        ends: p.ends,
        housing: p.housing,
        synthesized: p.synthesized,
        bulbs,
        joined,
    };
    if let Err(_) = p.checked {
        return all;
    }
    let line = p.line;
    let housing = p.housing;
    let on = tests::lamps_on(q.lamps.given, lamps, bulbs);
    if let Err(r) = fitted(words, lanes, light, line, housing, on, bulbs.count, joined) {
        return refused_plan(r, all);
    }
    all
}
