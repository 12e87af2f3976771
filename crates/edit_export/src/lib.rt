// The edits for programs in other languages: numbers and slices. The tally is three words, an answer nine: 0 done, 1 to 14 the refusal,
// 255 no such call; the number answered; the two details of a refusal; whether the ends of a line are named, and lane and side of each.
// The first word is the result too.
#![tactic(auto)]

ghost use Rattle.std.specs.Prelude.{◌≡◌, Some};
ghost use Rattle.call_list.specs.Reply.{reply_words};
ghost use Rattle.call_list.specs.Rows.{line_by, light_by, links_by};
ghost use Rattle.tally_words.specs.Words.{tally_in, tally_words};
ghost use Rattle.edit_export.specs.Written.{StepWritten};

use call_list::{ANSWER, Carried};

// The answer's words, and the tally; the first word is the result.
fn answer_with(c: Carried, tally: &mut [u64; 3], answer: &mut [u64; ANSWER]) -> u64
    ensures { (tally.new ≡ tally_words c.tally) × (answer.new ≡ reply_words c.reply) × (result ≡ c.reply.what) }
{
    tally_words::put_tally(tally, c.tally);
    *answer = call_list::reply_words(c.reply);
    c.reply.what
}

// A stop line across the lanes: placement 0 at the lane's end, 1 at a station, 2 at the given coordinates; rule 0 stop sign, 1 marking, 2 none.
#[unsafe(no_mangle)]
pub extern "C" fn lane_map_add_stop_line(
    words: &mut [u64],
    coords: &mut [f64],
    fold: &mut [u64],
    tally: &mut [u64; 3],
    set: &mut [u64],
    lanes: &[u64],
    placement: u64,
    measure: f64,
    given: &[f64],
    rule: u64,
    answer: &mut [u64; ANSWER],
) -> u64
    ensures { StepWritten (line_by lanes.now placement measure given.now rule) (record { words = words.old; coords = coords.old; fold = fold.old; tally = tally_in tally.old; set = set.old }) result answer.new (record { words = words.new; coords = coords.new; fold = fold.new; tally = tally_in tally.new; set = set.new }) }
{
    let t = tally_words::tally_of(tally);
    let c = numbered::stop_line_by(
        words, coords, fold, t, set, lanes, placement, measure, given, rule,
    );
    answer_with(c, tally, answer)
}

// A traffic light: its seventeen numbers, the offset or station of a new line and the height, the coordinates of a given line, of the
// housing and of the lamps.
#[unsafe(no_mangle)]
pub extern "C" fn lane_map_add_traffic_signal(
    words: &mut [u64],
    coords: &mut [f64],
    fold: &mut [u64],
    tally: &mut [u64; 3],
    set: &mut [u64],
    lanes: &[u64],
    numbers: &[u64; 17],
    measure: f64,
    height: f64,
    points: &[f64],
    housing: &[f64],
    lamps: &[f64],
    answer: &mut [u64; ANSWER],
) -> u64
    ensures { StepWritten (light_by lanes.now numbers.now measure height points.now housing.now lamps.now) (record { words = words.old; coords = coords.old; fold = fold.old; tally = tally_in tally.old; set = set.old }) result answer.new (record { words = words.new; coords = coords.new; fold = fold.new; tally = tally_in tally.new; set = set.new }) }
{
    let t = tally_words::tally_of(tally);
    let c = numbered::signal_by(
        words, coords, fold, t, set, lanes, numbers, measure, height, points, housing, lamps,
    );
    answer_with(c, tally, answer)
}

// A rule's lanes, crosswalks and stop lines.
#[unsafe(no_mangle)]
pub extern "C" fn lane_map_set_regulatory_links(
    words: &mut [u64],
    coords: &mut [f64],
    fold: &mut [u64],
    tally: &mut [u64; 3],
    set: &mut [u64],
    rule: u64,
    lanes: &[u64],
    crosswalks: &[u64],
    stop_lines: &[u64],
    answer: &mut [u64; ANSWER],
) -> u64
    ensures { StepWritten (Some (links_by rule lanes.now crosswalks.now stop_lines.now)) (record { words = words.old; coords = coords.old; fold = fold.old; tally = tally_in tally.old; set = set.old }) result answer.new (record { words = words.new; coords = coords.new; fold = fold.new; tally = tally_in tally.new; set = set.new }) }
{
    let t = tally_words::tally_of(tally);
    let c = numbered::links_by(
        words, coords, fold, t, set, rule, lanes, crosswalks, stop_lines,
    );
    answer_with(c, tally, answer)
}
