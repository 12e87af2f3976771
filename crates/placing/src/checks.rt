// A list of lanes, and given points.
ghost use Rattle.std.specs.Prelude.{◌≡◌};
ghost use Rattle.store.specs.Layout.{SizedWords};
ghost use Rattle.place.specs.Place.{check_polyline};
ghost use Rattle.placing.specs.Answers.{checked, LanesChecked};

use crate::lists;
use refusal::{Listed, RecordKind, Refusal, ShapeFault};

// 1 for no lanes, 2 for the first unknown one as given, 3 for one that is listed twice.
#[tactic(auto, using(crate::proofs::CheckLaws::lanes_none, crate::proofs::CheckLaws::lanes_unknown, crate::proofs::CheckLaws::lanes_twice, crate::proofs::CheckLaws::lanes_fine))]
pub fn check_lane_list(words: &[u64], lanes: &[u64]) -> Result<(), Refusal>
    requires { SizedWords words.now }
    ensures { LanesChecked words.now lanes.now result }
{
    if lanes.len() == 0 {
        return Err(Refusal::NoLanes);
    }
    if let Some(n) = lists::unknown_lane(words, lanes) {
        return Err(Refusal::Unknown(RecordKind::Lane, n));
    }
    if lists::twice(lanes) {
        return Err(Refusal::ListedTwice(Listed::Lanes));
    }
    Ok(())
}

// 5/1 for a coordinate that is missing or not finite, 9, 10, then 5/2 for no length.
#[tactic(auto, unfolding(place::specs::Place::check_polyline))]
pub fn check_polyline(cs: &[f64]) -> Result<(), Refusal>
    ensures { checked result ≡ check_polyline cs.now }
{
    if cs.len() % 3 != 0 || !lists::all_finite(cs) {
        return Err(Refusal::BadShape(ShapeFault::NotFinite));
    }
    if !lists::all_on_map(cs) {
        return Err(Refusal::OffTheMap);
    }
    if 64 < cs.len() / 3 {
        return Err(Refusal::Full);
    }
    if !polyline::length::is_valid(cs) {
        return Err(Refusal::BadShape(ShapeFault::TooShort));
    }
    Ok(())
}
