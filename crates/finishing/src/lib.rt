// What every call begins and ends with: the tests of what it is lent, and the change set settled with the running fold.
#![tactic(auto)]

ghost use Rattle.std.specs.Prelude.{◌≡◌, true, ◌%◌, length};
ghost use Rattle.rows.specs.Lists.{every};
ghost use Rattle.geometry.specs.Point.{point_on_map};
ghost use Rattle.geometry.specs.Polyline.{polyline_of};
ghost use Rattle.changes.specs.ChangeSet.{normalize, fold_step};
ghost use Rattle.changes.specs.Layout.{change_set_of, lists_ok_in};
ghost use Rattle.changes.specs.Running.{fold_fits};
ghost use Rattle.placing.specs.Answers.{checked};
ghost use Rattle.finishing.specs.Finish.{lent_checks, RoomyAll, FoldRoom, Tried, SettlesTable, TakenIn};

use changes::{Tally, layout};
use edit::Answered;
use refusal::Refusal;

// So many entries are few: twice as many have room in a list.
const FEW: u64 = 256;

// A call that is refused: the tally is as it was. The answer holds the tally beside the refusal, so calls that refuse end with this and not with `?`.
pub fn refused(r: Refusal, tally: Tally) -> Answered
    ensures { (result.called ≡ Err r) × (result.tally ≡ tally) }
{
    Answered {
        called: Err(r),
        tally,
    }
}

// What every call tests before all else: 12 for tables that are not a map's, then 13 for a fold that is not the map's or a set that is no table of one.
pub fn check_lent(
    words: &[u64],
    coords: &[f64],
    fold: &[u64],
    tally: Tally,
    set: &[u64],
) -> Result<(), Refusal>
    ensures { checked result ≡ lent_checks (record { words = words.now; coords = coords.now; fold = fold.now; tally = tally; set = set.now }) }
{
    if !validity::is_map(words, coords) {
        return Err(Refusal::BadMap);
    }
    if set.len() != layout::WORDS {
        return Err(Refusal::BadSet);
    }
    if !running::fold_ok(words, fold, tally) {
        return Err(Refusal::BadSet);
    }
    Ok(())
}

// Whether all points of a polyline that is to be stored lie on the map: it is 9 otherwise.
#[tactic(auto, using(crate::proofs::StoredLaws::points_on_map))]
pub fn stored_ok(points: &[f64]) -> bool
    requires { length points.now % 3 ≡ 0 }
    ensures { result ≡ every point_on_map (polyline_of points.now) }
{
    placing::lists::all_on_map(points)
}

// Whether numbers are left and the fold has at most 256 entries in each list: no set with so few entries is refused then.
#[tactic(auto, using(crate::proofs::SettleLaws::fold_long, crate::proofs::SettleLaws::settling))]
pub fn fold_room(fold: &[u64], late: bool) -> bool
    requires { lists_ok_in fold.now ≡ true }
    ensures { FoldRoom fold.now late result }
{
    // in one chain of && what is known of each part lies nested, and the proof doesn't close
    if late {
        return false;
    }
    if FEW < fold[0] {
        return false;
    }
    if FEW < fold[1] {
        return false;
    }
    fold[2] <= FEW
}

// The set is normalized and taken into the fold, or the fold is as it was. Few calls come here, so the room to work in is no burden to the others.
#[tactic(auto, using(crate::proofs::SettleLaws::settle_asks))]
fn take_any(fold: &mut [u64], set: &mut [u64]) -> Result<(), Refusal>
    requires { (lists_ok_in fold.old ≡ true) × RoomyAll set.old }
    ensures { Tried fold.old set.old result fold.new set.new }
{
    normal::normalize(set);
    sets::fold_fitted(fold, set)
}

// What settling the draft with the fold answers, tried on a copy: 10 where a list of the fold would be too long, then 11. The draft is left normalized.
pub fn settles(fold: &[u64], draft: &mut [u64], late: bool) -> Result<(), Refusal>
    requires { (lists_ok_in fold.now ≡ true) × RoomyAll draft.old }
    ensures { SettlesTable fold.now draft.old late result draft.new }
{
    let mut copy = [0u64; 3556];
    rows::put(&mut copy, 0, fold);
    take_any(&mut copy, draft)?;
    if late {
        return Err(Refusal::NumbersSpent);
    }
    Ok(())
}

// The set is normalized and taken into the fold, which has room for it: so no fold here is refused. Most sets are normal as they are, and few entries fold in little room.
pub fn take_in(fold: &mut [u64], set: &mut [u64])
    requires { (lists_ok_in fold.old ≡ true) × RoomyAll set.old × (fold_fits (fold_step (change_set_of fold.old) (normalize (change_set_of set.old))) ≡ true) }
    ensures { TakenIn fold.old set.old fold.new set.new }
{
    if sets::lists_ok(set) {
        if sets::crowd(fold, set) <= 64 {
            let _ = sets::fold_few(fold, set);
            return;
        }
    }
    let _ = take_any(fold, set);
}
