// What a light lifts, noted in a change set.
ghost use Rattle.std.specs.Prelude.{◌<◌};
ghost use Rattle.place.specs.Readable.{ReadableWords};
ghost use Rattle.lifting.specs.Noting.{OneFits, LiftNoted, AllFit, LiftsNoted};

use crate::{Lift, lift_of};
use changes::lists::Entry;
use changes::{SetList, WarningCode};
use map::lookup;
use store::Kind;

// One rule's entry and warning.
#[tactic(auto, using(crate::proofs::NoteLaws::noted_eased, crate::proofs::NoteLaws::warn_asks))]
fn note_lift(draft: &mut [u64], lift: Lift, number: u64)
    requires { OneFits draft.old }
    ensures { LiftNoted draft.old lift number draft.new }
{
    let rule = Entry { kind: 8, number };
    match lift {
        Lift::Kept => {}
        Lift::Eased => {
            building::push(draft, SetList::Modified, rule);
            building::warn(draft, WarningCode::RuleReplaced, rule);
        }
        Lift::Gone => {
            building::push(draft, SetList::Deleted, rule);
            building::warn(draft, WarningCode::RuleReplaced, rule);
        }
    }
}

// The rules that a light on the line eases or lifts for the lanes, in the table's order, each with a warning.
pub fn note_lifts(words: &[u64], line: u64, lanes: &[u64], draft: &mut [u64])
    requires { ReadableWords words.now × AllFit draft.old }
    ensures { LiftsNoted words.now line lanes.now draft.old draft.new }
{
    let n = store::count(words, Kind::Rule);
    for i in 0..n {
        let l = lift_of(words, i, line, lanes);
        let k = l.lift;
        note_lift(draft, k, lookup::word(words, Kind::Rule, i, 0));
    }
}
