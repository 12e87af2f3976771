// One row of a list of calls carried out.
//
// What a row is answered is left to answers in proofs/: the check does not find the step where the function names its lemma.
#![tactic(auto)]

ghost use Rattle.std.specs.Prelude.{◌≡◌, length};
ghost use Rattle.call_list.specs.Step.{StepLeft};
ghost use Rattle.row_calls.specs.Light.{LightParts, line_part, housing_part, lamps_part};
ghost use Rattle.call_list.specs.Rows.{row_words, light_by, line_row, signal_row, links_row, call_at};

use call_list::Carried;
use changes::Tally;

#[tactic(auto, using(call_list::proofs::Decode::line_lanes, call_list::proofs::Decode::line_measure, call_list::proofs::Decode::line_given))]
fn line_row(
    words: &mut [u64],
    coords: &mut [f64],
    fold: &mut [u64],
    tally: Tally,
    set: &mut [u64],
    row: &[u64],
    lists: &[u64],
    reals: &[f64],
) -> Carried
    requires { length row.now ≡ row_words }
    ensures { StepLeft (line_row row.now lists.now reals.now) (record { words = words.old; coords = coords.old; fold = fold.old; tally = tally; set = set.old }) result.reply (record { words = words.new; coords = coords.new; fold = fold.new; tally = result.tally; set = set.new }) }
{
    if !call_list::line_within(row, lists, reals) {
        return call_list::not_called(words, coords, fold, tally, set);
    }
    let lanes = call_list::list_at(lists, row[1], row[2]);
    let measure = call_list::measure_at(reals, row[3] < 2, row[5]);
    let given = call_list::part_at(reals, row[3] == 2, row[6], row[7]);
    numbered::stop_line_by(
        words, coords, fold, tally, set, lanes, row[3], measure, given, row[4],
    )
}

// A light whose lanes, numbers and measures are read: its given line, its housing and its lamps, and the call.
#[tactic(auto, using(crate::proofs::Laws::line_within_lem))]
fn light_row(
    words: &mut [u64],
    coords: &mut [f64],
    fold: &mut [u64],
    tally: Tally,
    set: &mut [u64],
    lanes: &[u64],
    numbers: &[u64],
    measure: f64,
    height: f64,
    row: &[u64],
    reals: &[f64],
) -> Carried
    requires { LightParts row.now reals.now × (length numbers.now ≡ 17) }
    ensures { StepLeft (light_by lanes.now numbers.now measure height (line_part row.now reals.now) (housing_part row.now reals.now) (lamps_part row.now reals.now)) (record { words = words.old; coords = coords.old; fold = fold.old; tally = tally; set = set.old }) result.reply (record { words = words.new; coords = coords.new; fold = fold.new; tally = result.tally; set = set.new }) }
{
    let pointed = call_list::light_pointed(row[3], row[5]);
    let points = call_list::part_at(reals, pointed, row[22], row[23]);
    let housing = call_list::part_at(reals, row[6] != 0, row[24], row[25]);
    let lamps = call_list::part_at(reals, row[9] != 0, row[26], row[27]);
    numbered::signal_by(
        words, coords, fold, tally, set, lanes, numbers, measure, height, points, housing, lamps,
    )
}

#[tactic(auto, using(call_list::proofs::Decode::signal_lanes, call_list::proofs::Decode::signal_measure))]
fn signal_row(
    words: &mut [u64],
    coords: &mut [f64],
    fold: &mut [u64],
    tally: Tally,
    set: &mut [u64],
    row: &[u64],
    lists: &[u64],
    reals: &[f64],
) -> Carried
    requires { length row.now ≡ row_words }
    ensures { StepLeft (signal_row row.now lists.now reals.now) (record { words = words.old; coords = coords.old; fold = fold.old; tally = tally; set = set.old }) result.reply (record { words = words.new; coords = coords.new; fold = fold.new; tally = result.tally; set = set.new }) }
{
    if !call_list::signal_within(row, lists, reals) {
        return call_list::not_called(words, coords, fold, tally, set);
    }
    let lanes = call_list::list_at(lists, row[1], row[2]);
    let numbers = call_list::list_at(row, 3, 17);
    let measured = call_list::light_measured(row[3], row[5]);
    let measure = call_list::measure_at(reals, measured, row[20]);
    let height = call_list::measure_at(reals, row[7] != 0, row[21]);
    light_row(
        words, coords, fold, tally, set, lanes, numbers, measure, height, row, reals,
    )
}

#[tactic(auto, using(call_list::proofs::Decode::links_lanes, call_list::proofs::Decode::links_crosswalks, call_list::proofs::Decode::links_lines))]
fn links_row(
    words: &mut [u64],
    coords: &mut [f64],
    fold: &mut [u64],
    tally: Tally,
    set: &mut [u64],
    row: &[u64],
    lists: &[u64],
) -> Carried
    requires { length row.now ≡ row_words }
    ensures { StepLeft (links_row row.now lists.now) (record { words = words.old; coords = coords.old; fold = fold.old; tally = tally; set = set.old }) result.reply (record { words = words.new; coords = coords.new; fold = fold.new; tally = result.tally; set = set.new }) }
{
    if !call_list::links_within(row, lists) {
        return call_list::not_called(words, coords, fold, tally, set);
    }
    let lanes = call_list::list_at(lists, row[1], row[2]);
    let crosswalks = call_list::list_at(lists, row[4], row[5]);
    let lines = call_list::list_at(lists, row[6], row[7]);
    numbered::links_by(
        words, coords, fold, tally, set, row[3], lanes, crosswalks, lines,
    )
}

// The call that the row asks for; one that asks for none is tested as a call is.
pub fn carry_out(
    words: &mut [u64],
    coords: &mut [f64],
    fold: &mut [u64],
    tally: Tally,
    set: &mut [u64],
    row: &[u64],
    lists: &[u64],
    reals: &[f64],
) -> Carried
    requires { length row.now ≡ row_words }
    ensures { StepLeft (call_at row.now lists.now reals.now) (record { words = words.old; coords = coords.old; fold = fold.old; tally = tally; set = set.old }) result.reply (record { words = words.new; coords = coords.new; fold = fold.new; tally = result.tally; set = set.new }) }
{
    match row[0] {
        1 => line_row(words, coords, fold, tally, set, row, lists, reals),
        2 => signal_row(words, coords, fold, tally, set, row, lists, reals),
        3 => links_row(words, coords, fold, tally, set, row, lists),
        _ => call_list::not_called(words, coords, fold, tally, set),
    }
}
