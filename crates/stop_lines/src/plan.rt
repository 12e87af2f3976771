// What is known before anything is stored: where the line goes, or the refusal.
ghost use Rattle.std.specs.Prelude.{◌≡◌, true, length};
ghost use Rattle.store.specs.Layout.{SizedWords, count_of};
ghost use Rattle.row_tests.specs.Flat.{all_points, Few};
ghost use Rattle.map.specs.Tables.{is_map_tables};
ghost use Rattle.centerline.specs.Line.{points_of};
ghost use Rattle.place.specs.Values.{Roomy};
ghost use Rattle.placing.specs.Answers.{checked};
ghost use Rattle.stop_lines.specs.Stop.{new_stop_line, list_room, rule_room, room_for, end_tests, LinePlanned};

use edit::StopRule;
use place::Placement;
use placing::PlacedLine;
use placing::checks::check_lane_list;
use placing::stop_line::{place_stop_line, refused_line};
use refusal::Refusal;
use store::Kind;

// A rule more, with its list of lanes.
fn list_room(words: &[u64], lanes: usize) -> bool
    requires { SizedWords words.now }
    ensures { result ≡ list_room lanes (count_of words.now 5) }
{
    if store::count(words, Kind::Rule) < 128 {
        return lanes <= 16;
    }
    false
}

fn rule_room(words: &[u64], rule: StopRule, lanes: usize) -> bool
    requires { SizedWords words.now }
    ensures { result ≡ rule_room rule lanes (count_of words.now 5) }
{
    match rule {
        StopRule::StopSign => list_room(words, lanes),
        StopRule::Marking => list_room(words, lanes),
        // nothing is stored that lists the lanes
        StopRule::NoRule => true,
    }
}

// Whether the map with the line and its rule keeps below the ceilings.
fn room(words: &[u64], rule: StopRule, lanes: usize, points: usize) -> bool
    requires { SizedWords words.now × Few words.now }
    ensures { result ≡ room_for rule lanes (count_of words.now 2) (count_of words.now 5) (all_points words.now) points }
{
    if store::count(words, Kind::StopLine) < 64 {
        if !rule_room(words, rule, lanes) {
            return false;
        }
        let used = rows::index(validity::points_used(words));
        if 1024 < used {
            return false;
        }
        return points <= 1024 - used;
    }
    false
}

// The line that was placed is tested for its place on the map (9) and for room (10).
fn fitted(words: &[u64], placed: PlacedLine, rule: StopRule, lanes: usize) -> Result<(), Refusal>
    requires { SizedWords words.now × Few words.now × Roomy placed.line }
    ensures { checked result ≡ end_tests rule lanes (count_of words.now 2) (count_of words.now 5) (all_points words.now) (points_of placed.line) }
{
    let line = placed.line;
    let points = line.coords;
    let e = line.count * 3;
    if !finishing::stored_ok(&points[..e]) {
        return Err(Refusal::OffTheMap);
    }
    if !room(words, rule, lanes, line.count) {
        return Err(Refusal::Full);
    }
    Ok(())
}

pub fn line_plan(
    words: &[u64],
    coords: &[f64],
    lanes: &[u64],
    how: Placement,
    given: &[f64],
    rule: StopRule,
) -> PlacedLine
    requires { is_map_tables words.now coords.now ≡ true }
    ensures { LinePlanned words.now coords.now (new_stop_line lanes.now how given.now rule) result }
{
    let listed = check_lane_list(words, lanes);
    if let Err(r) = listed {
        return refused_line(r);
    }
    let placed = place_stop_line(words, coords, lanes, how, given);
    let checked = placed.checked;
    if let Err(r) = checked {
        return refused_line(r);
    }
    let end = fitted(words, placed, rule, lanes.len());
    if let Err(r) = end {
        return refused_line(r);
    }
    placed
}
