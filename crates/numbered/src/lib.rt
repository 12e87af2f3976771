// The three calls by numbers: enums as numbers, and the answer as words have it.
#![tactic(auto)]

ghost use Rattle.std.specs.Prelude.{◌≡◌, length, Some};
ghost use Rattle.call_list.specs.Step.{StepLeft};
ghost use Rattle.call_list.specs.Rows.{line_by, light_by, links_by};

use call_list::Carried;
use changes::Tally;

// `add_stop_line`: placement 0 at the lane's end, 1 at a station, 2 given; rule 0 stop sign, 1 marking, 2 none.
pub fn stop_line_by(
    words: &mut [u64],
    coords: &mut [f64],
    fold: &mut [u64],
    tally: Tally,
    set: &mut [u64],
    lanes: &[u64],
    placement: u64,
    measure: f64,
    given: &[f64],
    rule: u64,
) -> Carried
    ensures { StepLeft (line_by lanes.now placement measure given.now rule) (record { words = words.old; coords = coords.old; fold = fold.old; tally = tally; set = set.old }) result.reply (record { words = words.new; coords = coords.new; fold = fold.new; tally = result.tally; set = set.new }) }
{
    if 2 < placement || 2 < rule {
        return call_list::not_called(words, coords, fold, tally, set);
    }
    let how = boundary::placement_of(placement, measure);
    let made = boundary::stop_rule_of(rule);
    let a = stop_lines::add_stop_line(words, coords, fold, tally, set, lanes, how, given, made);
    call_list::in_words(a)
}

// `add_traffic_signal`: the seventeen numbers of its request, the offset or station of a new line and the height, and the coordinates of
// a given line, of the housing and of the lamps.
pub fn signal_by(
    words: &mut [u64],
    coords: &mut [f64],
    fold: &mut [u64],
    tally: Tally,
    set: &mut [u64],
    lanes: &[u64],
    numbers: &[u64],
    measure: f64,
    height: f64,
    points: &[f64],
    housing: &[f64],
    lamps: &[f64],
) -> Carried
    requires { length numbers.now ≡ 17 }
    ensures { StepLeft (light_by lanes.now numbers.now measure height points.now housing.now lamps.now) (record { words = words.old; coords = coords.old; fold = fold.old; tally = tally; set = set.old }) result.reply (record { words = words.new; coords = coords.new; fold = fold.new; tally = result.tally; set = set.new }) }
{
    let n = signal_row::lamp_count(lamps);
    if !boundary::signal_cases(numbers, n) {
        return call_list::not_called(words, coords, fold, tally, set);
    }
    let q = boundary::request_of(numbers, measure, height);
    let a = signals::add_traffic_signal(
        words, coords, fold, tally, set, lanes, q, points, housing, lamps,
    );
    call_list::in_words(a)
}

// `set_regulatory_links`, which has no enum.
pub fn links_by(
    words: &mut [u64],
    coords: &mut [f64],
    fold: &mut [u64],
    tally: Tally,
    set: &mut [u64],
    rule: u64,
    lanes: &[u64],
    crosswalks: &[u64],
    stop_lines: &[u64],
) -> Carried
    ensures { StepLeft (Some (links_by rule lanes.now crosswalks.now stop_lines.now)) (record { words = words.old; coords = coords.old; fold = fold.old; tally = tally; set = set.old }) result.reply (record { words = words.new; coords = coords.new; fold = fold.new; tally = result.tally; set = set.new }) }
{
    let a = links::set_regulatory_links(
        words, coords, fold, tally, set, rule, lanes, crosswalks, stop_lines,
    );
    call_list::in_words(a)
}
