// Tests of a whole list.
ghost use Rattle.std.specs.Prelude.{◌≡◌, ◌≤◌, length, drop};
ghost use Rattle.rows.specs.Lists.{every, member, twice};
ghost use Rattle.geometry.specs.Double.{is_finite, on_map};
ghost use Rattle.store.specs.Layout.{SizedWords};
ghost use Rattle.placing.specs.Answers.{UnknownRead};

use geometry::double;
use map::lookup;
use store::Kind;

#[tactic(auto, using(crate::proofs::WalkLaws::every_out, crate::proofs::WalkLaws::every_next))]
pub fn all_finite(cs: &[f64]) -> bool
    ensures { result ≡ every is_finite cs.now }
{
    for x in cs {
        if !double::is_finite(*x) {
            return false;
        }
    }
    true
}

#[tactic(auto, using(crate::proofs::WalkLaws::every_out, crate::proofs::WalkLaws::every_next))]
pub fn all_on_map(cs: &[f64]) -> bool
    ensures { result ≡ every on_map cs.now }
{
    for x in cs {
        if !double::on_map(*x) {
            return false;
        }
    }
    true
}

// Whether n stands in the list from an index on.
#[tactic(auto, using(crate::proofs::WalkLaws::sought_start, crate::proofs::WalkLaws::sought_here, crate::proofs::WalkLaws::sought_next, crate::proofs::WalkLaws::sought_end))]
pub fn member(ns: &[u64], from: usize, n: u64) -> bool
    requires { from ≤ length ns.now }
    ensures { result ≡ member n (drop from ns.now) }
{
    for i in from..ns.len() {
        if ns[i] == n {
            return true;
        }
    }
    false
}

// Whether some number stands in the list twice.
#[tactic(auto, using(crate::proofs::WalkLaws::single_not, crate::proofs::WalkLaws::single_next, crate::proofs::WalkLaws::single_end))]
pub fn twice(ns: &[u64]) -> bool
    ensures { result ≡ twice ns.now }
{
    for (i, n) in ns.iter().enumerate() {
        if member(ns, i + 1, *n) {
            return true;
        }
    }
    false
}

// The first lane, as given, that the map lacks.
#[tactic(auto, using(crate::proofs::WalkLaws::known_not, crate::proofs::WalkLaws::known_next, crate::proofs::WalkLaws::known_end))]
pub fn unknown_lane(words: &[u64], lanes: &[u64]) -> Option<u64>
    requires { SizedWords words.now }
    ensures { UnknownRead words.now lanes.now result }
{
    for n in lanes {
        if !lookup::holds(words, Kind::Lane, *n) {
            return Some(*n);
        }
    }
    None
}
