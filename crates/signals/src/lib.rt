// `add_traffic_signal`: a light over lanes, with its line, its signal, and its rule or a place in another light's.
#![tactic(auto)]

ghost use Rattle.std.specs.Prelude.{◌≡◌, true, ◌<◌, length};
ghost use Rattle.refusal.specs.Answer.{done};
ghost use Rattle.map.specs.Tables.{map_of};
ghost use Rattle.changes.specs.Layout.{lists_ok_in};
ghost use Rattle.place.specs.Readable.{ReadableWords};
ghost use Rattle.edit.specs.Lent.{CallLeft};
ghost use Rattle.edit.specs.Light.{add_traffic_signal};
ghost use Rattle.edit.specs.Request.{new_traffic_signal};
ghost use Rattle.finishing.specs.Finish.{lent_checks, CallEnds};
ghost use Rattle.light_room.specs.Room.{signal_draft, SignalReady};
ghost use Rattle.signals.specs.Signal.{LightSettles, StoredAs, AsksToStore};

use changes::Tally;
use edit::{Answered, SignalRequest};
use light_draft::{Light, draft_set};
use light_room::{SignalPlan, signal_plan};
use light_store::store_light;
use refusal::Refusal;
use signal_row::signal_row;

// What is planned, on the map: the signal's row is made of its number, its housing and its lamps.
fn store(words: &mut [u64], coords: &mut [f64], lanes: &[u64], q: SignalRequest, p: SignalPlan)
    requires { AsksToStore words.old coords.old lanes.now q p }
    ensures { StoredAs words.old coords.old lanes.now q p words.new coords.new }
{
    let l = p.light;
    let line = p.line;
    let housing = p.housing;
    let bulbs = p.bulbs;
    let joined = p.joined;
    let row = signal_row(l.signal, q, housing.count, bulbs);
    store_light(words, coords, lanes, l, line, housing, row, joined);
}

// What settling the light's set with the fold answers. Only where numbers are spent or the fold is nearly full is a set drafted to find out, in memory of its own.
fn check_fold(
    words: &[u64],
    fold: &[u64],
    lanes: &[u64],
    l: Light,
    clamped: bool,
    made: bool,
) -> Result<(), Refusal>
    requires { ReadableWords words.now × (0 < length lanes.now) × (lists_ok_in fold.now ≡ true) }
    ensures { LightSettles words.now fold.now lanes.now l clamped made result }
{
    if finishing::fold_room(fold, l.late) {
        return Ok(());
    }
    let mut draft = [0u64; 3556];
    draft_set(words, lanes, l, clamped, made, &mut draft);
    finishing::settles(fold, &mut draft, l.late)
}

// The plan carried out: nothing is stored before the fold is known to take the change set.
fn carry_out(
    words: &mut [u64],
    coords: &mut [f64],
    fold: &mut [u64],
    tally: Tally,
    set: &mut [u64],
    lanes: &[u64],
    q: SignalRequest,
    points: &[f64],
    given: &[f64],
    lamps: &[f64],
    p: SignalPlan,
) -> Answered
    requires { (lent_checks (record { words = words.old; coords = coords.old; fold = fold.old; tally = tally; set = set.old }) ≡ done tt) × SignalReady words.old coords.old q lamps.now (new_traffic_signal lanes.now q points.now given.now lamps.now) p }
    ensures { CallEnds (record { words = words.old; coords = coords.old; fold = fold.old; tally = tally; set = set.old }) (signal_draft (new_traffic_signal lanes.now q points.now given.now lamps.now) (map_of words.old coords.old) p) result.called (record { words = words.new; coords = coords.new; fold = fold.new; tally = result.tally; set = set.new }) }
{
    let l = p.light;
    let ends = p.ends;
    let settled = check_fold(words, fold, lanes, l, p.clamped, p.synthesized);
    if let Err(r) = settled {
        return finishing::refused(r, tally);
    }
    draft_set(words, lanes, l, p.clamped, p.synthesized, set);
    finishing::take_in(fold, set);
    store(words, coords, lanes, q, p);
    Answered {
        called: Ok((l.signal, ends)),
        tally: building::tally_of(fold),
    }
}

// The light stops at the line that is chosen, found or drawn, and lifts what its lanes had there. Answers the signal's number, and the names
// of a drawn line's ends. Given points, a given housing and given lamps come beside the request, as coordinates.
pub fn add_traffic_signal(
    words: &mut [u64],
    coords: &mut [f64],
    fold: &mut [u64],
    tally: Tally,
    set: &mut [u64],
    lanes: &[u64],
    q: SignalRequest,
    points: &[f64],
    housing: &[f64],
    lamps: &[f64],
) -> Answered
    ensures { CallLeft (add_traffic_signal (new_traffic_signal lanes.now q points.now housing.now lamps.now)) (record { words = words.old; coords = coords.old; fold = fold.old; tally = tally; set = set.old }) result.called (record { words = words.new; coords = coords.new; fold = fold.new; tally = result.tally; set = set.new }) }
{
    let lent = finishing::check_lent(words, coords, fold, tally, set);
    if let Err(r) = lent {
        return finishing::refused(r, tally);
    }
    let p = signal_plan(words, coords, lanes, q, points, housing, lamps);
    let checked = p.checked;
    if let Err(r) = checked {
        return finishing::refused(r, tally);
    }
    carry_out(
        words, coords, fold, tally, set, lanes, q, points, housing, lamps, p,
    )
}
