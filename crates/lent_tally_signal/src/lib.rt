// `add_traffic_signal` with the tally lent, as `lent_tally` has the other two edits. A crate of its own, since its proof has all of the light's below it.
#![tactic(auto)]

ghost use Rattle.edit.specs.Lent.{CallLeft};
ghost use Rattle.edit.specs.Light.{add_traffic_signal};
ghost use Rattle.edit.specs.Request.{new_traffic_signal};

use changes::Tally;
use edit::SignalRequest;
use place::SectionNames;
use refusal::Refusal;

pub fn add_traffic_signal(
    words: &mut [u64],
    coords: &mut [f64],
    fold: &mut [u64],
    tally: &mut Tally,
    set: &mut [u64],
    lanes: &[u64],
    q: SignalRequest,
    points: &[f64],
    housing: &[f64],
    lamps: &[f64],
) -> Result<(u64, Option<SectionNames>), Refusal>
    ensures { CallLeft (add_traffic_signal (new_traffic_signal lanes.now q points.now housing.now lamps.now)) (record { words = words.old; coords = coords.old; fold = fold.old; tally = tally.old; set = set.old }) result (record { words = words.new; coords = coords.new; fold = fold.new; tally = tally.new; set = set.new }) }
{
    let a = signals::add_traffic_signal(
        words, coords, fold, *tally, set, lanes, q, points, housing, lamps,
    );
    *tally = a.tally;
    a.called
}
