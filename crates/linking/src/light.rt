// The links that a light can have.
ghost use Rattle.std.specs.Prelude.{◌≡◌};
ghost use Rattle.store.specs.Layout.{SizedWords};
ghost use Rattle.placing.specs.Answers.{checked};
ghost use Rattle.linking.specs.LightLinks.{kind_checks, LightChecked};

use crate::kinds::kinds_of;
use refusal::{LinkFault, RecordKind, Refusal};

// 8/2 to 8/5, by the kinds of the signals and how many lanes, crosswalks and lines there are to be.
#[tactic(auto, unfolding(crate::specs::LightLinks::kind_checks))]
fn check_kinds(
    vehicle: bool,
    pedestrian: bool,
    lanes: usize,
    crosswalks: usize,
    lines: usize,
) -> Result<(), Refusal>
    ensures { checked result ≡ kind_checks vehicle pedestrian lanes crosswalks lines }
{
    if pedestrian {
        if vehicle {
            return Err(Refusal::WrongLink(LinkFault::MixedSignals));
        }
        if lanes != 0 || lines != 0 {
            return Err(Refusal::WrongLink(LinkFault::PedestriansWithLanes));
        }
        return Ok(());
    }
    if vehicle && crosswalks != 0 {
        return Err(Refusal::WrongLink(LinkFault::VehiclesWithCrosswalks));
    }
    if 1 < lines {
        return Err(Refusal::WrongLink(LinkFault::SeveralLines));
    }
    Ok(())
}

// 8/1 for no signals, 2 for the first that is missing, then 8/2 to 8/5.
pub fn check_light(
    words: &[u64],
    signals: &[u64],
    lanes: usize,
    crosswalks: usize,
    lines: usize,
) -> Result<(), Refusal>
    requires { SizedWords words.now }
    ensures { LightChecked words.now signals.now lanes crosswalks lines result }
{
    if signals.is_empty() {
        return Err(Refusal::WrongLink(LinkFault::NoSignals));
    }
    // with map_err and ? the proof has to follow a closure
    match kinds_of(words, signals) {
        Err(n) => Err(Refusal::Unknown(RecordKind::Signal, n)),
        Ok((vehicle, pedestrian)) => { check_kinds(vehicle, pedestrian, lanes, crosswalks, lines) }
    }
}
