// Two quays, each with a map of its own. The theorem that their neighbours play no part stands in specs/Quays.antt; the function here is what
// it says of the code.
#![tactic(auto)]

ghost use Rattle.stop_lines.specs.Stop.{new_stop_line};
ghost use Rattle.quays.specs.Quays.{BothLeft};

use changes::Tally;
use edit::{Answered, StopRule};
use place::Placement;

#[derive(Drop)]
pub struct BothAnswered {
    pub first: Answered,
    pub second: Answered,
}

// The same stop line on two maps. Where they agree on its lanes and have the same room, both calls return the same, whatever else lies on
// either map and whatever its fold has seen.
pub fn add_to_both(
    words: &mut [u64],
    coords: &mut [f64],
    fold: &mut [u64],
    tally: Tally,
    set: &mut [u64],
    words2: &mut [u64],
    coords2: &mut [f64],
    fold2: &mut [u64],
    tally2: Tally,
    set2: &mut [u64],
    lanes: &[u64],
    how: Placement,
    given: &[f64],
    rule: StopRule,
) -> BothAnswered
    ensures { BothLeft (new_stop_line lanes.now how given.now rule) (record { words = words.old; coords = coords.old; fold = fold.old; tally = tally; set = set.old }) (record { words = words2.old; coords = coords2.old; fold = fold2.old; tally = tally2; set = set2.old }) result.first.called result.second.called (record { words = words.new; coords = coords.new; fold = fold.new; tally = result.first.tally; set = set.new }) (record { words = words2.new; coords = coords2.new; fold = fold2.new; tally = result.second.tally; set = set2.new }) }
{
    let first = stop_lines::add_stop_line(words, coords, fold, tally, set, lanes, how, given, rule);
    let second = stop_lines::add_stop_line(
        words2, coords2, fold2, tally2, set2, lanes, how, given, rule,
    );
    BothAnswered { first, second }
}
