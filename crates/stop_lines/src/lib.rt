// `add_stop_line`: a line across lanes, with the rule that makes vehicles stop at it.
#![tactic(auto)]

pub mod plan; // plan.rt: reading only: where the line goes, and whether there is room
pub mod draft; // draft.rt: the change set
pub mod storing; // storing.rt: the line and its rule on the map

ghost use Rattle.std.specs.Prelude.{◌≡◌, true, cond, [], ◌∷◌, ◌%◌, ◌≤◌, ◌<◌, length, get_or, Some};
ghost use Rattle.refusal.specs.Answer.{done};
ghost use Rattle.geometry.specs.Polyline.{polyline_of};
ghost use Rattle.map.specs.Ceilings.{within_ceilings};
ghost use Rattle.map.specs.Tables.{map_of};
ghost use Rattle.place.specs.Values.{maybe_ends};
ghost use Rattle.edit.specs.Lent.{CallLeft};
ghost use Rattle.edit.specs.StopLine.{add_stop_line};
ghost use Rattle.finishing.specs.Finish.{lent_checks, CallEnds};
ghost use Rattle.stop_lines.specs.Stop.{new_stop_line, placed_draft, clamped_by};

use changes::Tally;
use edit::{Answered, StopRule};
use place::{Placement, SectionNames};

// The plan carried out: nothing is stored before the fold is known to take the change set.
fn carry_out(
    words: &mut [u64],
    coords: &mut [f64],
    fold: &mut [u64],
    tally: Tally,
    set: &mut [u64],
    lanes: &[u64],
    rule: StopRule,
    points: &[f64],
    clamped: bool,
    ends: Option<SectionNames>,
) -> Answered
    requires { (lent_checks (record { words = words.old; coords = coords.old; fold = fold.old; tally = tally; set = set.old }) ≡ done tt) × (within_ceilings (placed_draft rule lanes.now (map_of words.old coords.old) (record { points = polyline_of points.now; warnings = clamped_by clamped (get_or lanes.now 0 0); ends = maybe_ends ends })).map ≡ true) × (0 < length lanes.now) × (length points.now ≤ 192) }
    ensures { CallEnds (record { words = words.old; coords = coords.old; fold = fold.old; tally = tally; set = set.old }) (placed_draft rule lanes.now (map_of words.old coords.old) (record { points = polyline_of points.now; warnings = clamped_by clamped (get_or lanes.now 0 0); ends = maybe_ends ends })) result.called (record { words = words.new; coords = coords.new; fold = fold.new; tally = result.tally; set = set.new }) }
{
    let number = map::update::fresh(words);
    let lane = lanes[0];
    let late = draft::is_late(rule, number);
    let settled = draft::check_fold(fold, rule, number, clamped, lane, late);
    if let Err(r) = settled {
        return finishing::refused(r, tally);
    }
    draft::draft_set(set, rule, number, clamped, lane);
    finishing::take_in(fold, set);
    storing::store(words, coords, points, rule, number, lanes);
    Answered {
        called: Ok((number, ends)),
        tally: building::tally_of(fold),
    }
}

// The line goes across the lanes, or where the points are given; the rule lists the lanes. Answers the line's number, and the names of its
// ends where it goes across the lanes.
pub fn add_stop_line(
    words: &mut [u64],
    coords: &mut [f64],
    fold: &mut [u64],
    tally: Tally,
    set: &mut [u64],
    lanes: &[u64],
    how: Placement,
    given: &[f64],
    rule: StopRule,
) -> Answered
    ensures { CallLeft (add_stop_line (new_stop_line lanes.now how given.now rule)) (record { words = words.old; coords = coords.old; fold = fold.old; tally = tally; set = set.old }) result.called (record { words = words.new; coords = coords.new; fold = fold.new; tally = result.tally; set = set.new }) }
{
    let lent = finishing::check_lent(words, coords, fold, tally, set);
    if let Err(r) = lent {
        return finishing::refused(r, tally);
    }
    let placed = plan::line_plan(words, coords, lanes, how, given, rule);
    let checked = placed.checked;
    if let Err(r) = checked {
        return finishing::refused(r, tally);
    }
    let ends = placed.ends;
    let line = placed.line;
    let points = line.coords;
    let e = line.count * 3;
    carry_out(
        words,
        coords,
        fold,
        tally,
        set,
        lanes,
        rule,
        &points[..e],
        placed.clamped,
        ends,
    )
}
