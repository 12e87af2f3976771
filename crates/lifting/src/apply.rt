// What a light lifts, taken from the tables.
ghost use Rattle.std.specs.Prelude.{◌<◌};
ghost use Rattle.store.specs.Layout.{count_of};
ghost use Rattle.place.specs.Readable.{Readable};
ghost use Rattle.lifting.specs.Applying.{LiftedAt, LiftsApplied};

use crate::{Lift, lift_of};
use map::update;
use store::Kind;

// Rule i with the lanes that are left, or taken out; the index of the rule that comes next.
#[tactic(auto, using(crate::proofs::GoneLaws::rules_few, crate::proofs::ApplyLaws::put_asks, crate::proofs::ApplyLaws::put_long, crate::proofs::ApplyLaws::drop_asks))]
fn lift_at(words: &mut [u64], coords: &mut [f64], i: usize, line: u64, lanes: &[u64]) -> usize
    requires { Readable words.old coords.old × (i < count_of words.old 5) }
    ensures { LiftedAt words.old coords.old i line lanes.now result words.new coords.new }
{
    let l = lift_of(words, i, line, lanes);
    let k = l.lift;
    match k {
        Lift::Kept => i + 1,
        Lift::Eased => {
            let left = l.left;
            let entries = left.entries;
            let n = left.count;
            update::put_list(words, i, 7, &entries[..n]);
            i + 1
        }
        Lift::Gone => {
            update::drop_rule(words, coords, i);
            i
        }
    }
}

// Every rule with the lanes that a light on the line leaves it, and those taken out that have none.
pub fn apply_lifts(words: &mut [u64], coords: &mut [f64], line: u64, lanes: &[u64])
    requires { Readable words.old coords.old }
    ensures { LiftsApplied words.old coords.old line lanes.now words.new coords.new }
{
    // no range: where a rule is taken out, the next one stands at the same index
    let mut i = 0;
    while i < store::count(words, Kind::Rule) {
        i = lift_at(words, coords, i, line, lanes);
    }
}
