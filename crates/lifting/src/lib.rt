// What a light lifts from its line: stop signs and markings there lose the call's lanes, and go where none is left.
#![tactic(auto)]

pub mod apply; // apply.rt: taken from the tables
pub mod note; // note.rt: noted in a change set

ghost use Rattle.std.specs.Prelude.{◌≡◌, ◌≤◌, ◌<◌, length};
ghost use Rattle.store.specs.Layout.{count_of};
ghost use Rattle.place.specs.Readable.{ReadableWords};
ghost use Rattle.lifting.specs.Lifting.{head_stops, head_points, Left, LiftRead, ShapesFew, GoneAt, GoneRead};

use map::{Entries, RuleHead, lookup};
use placing::lists::member;
use store::Kind;

// What happens to a rule.
#[derive(Drop)]
pub enum Lift {
    Kept,
    Eased,
    Gone,
}

// What happens to a rule, and what is left of its lanes where it is eased.
#[derive(Drop)]
pub struct Lifting {
    pub lift: Lift,
    pub left: Entries,
}

// How many rules go, and the points of their shapes.
#[derive(Drop)]
pub struct Freed {
    pub rules: usize,
    pub points: u64,
}

// Whether the rule is a marking or a stop sign on the line.
#[tactic(auto, using(crate::proofs::OneLaws::stops_marking, crate::proofs::OneLaws::stops_sign, crate::proofs::OneLaws::stops_other_sign, crate::proofs::OneLaws::stops_no_line, crate::proofs::OneLaws::stops_none))]
fn is_stop_at(h: RuleHead, line: u64) -> bool
    ensures { result ≡ head_stops line h }
{
    if h.kind == 3 {
        return h.line == line;
    }
    if h.kind == 2 {
        if h.has_line {
            if h.value == 1 {
                return h.line == line;
            }
        }
    }
    false
}

// The entries of a rule's list that are none of the lanes.
fn lanes_left(list: &[u64], lanes: &[u64]) -> Entries
    requires { length list.now ≤ 16 }
    ensures { Left list.now lanes.now result }
{
    let mut entries = [0u64; 16];
    let mut count = 0;
    for i in 0..list.len() {
        let n = list[i];
        if !member(lanes, 0, n) {
            entries[count] = n;
            count += 1;
        }
    }
    Entries { count, entries }
}

// What happens to rule i under a light on the line for the lanes.
#[tactic(auto, using(crate::proofs::OneLaws::list_asks, crate::proofs::OneLaws::head_asks, crate::proofs::OneLaws::list_short, crate::proofs::OneLaws::lift_off, crate::proofs::OneLaws::lift_kept, crate::proofs::OneLaws::lift_gone, crate::proofs::OneLaws::lift_eased))]
pub fn lift_of(words: &[u64], i: usize, line: u64, lanes: &[u64]) -> Lifting
    requires { ReadableWords words.now × (i < count_of words.now 5) }
    ensures { LiftRead words.now i line lanes.now result }
{
    let list = lookup::rule_list(words, i, 7);
    let left = lanes_left(list, lanes);
    if !is_stop_at(lookup::rule_head(words, i), line) {
        return Lifting {
            lift: Lift::Kept,
            left,
        };
    }
    let n = left.count;
    if n == list.len() {
        return Lifting {
            lift: Lift::Kept,
            left,
        };
    }
    if n == 0 {
        return Lifting {
            lift: Lift::Gone,
            left,
        };
    }
    Lifting {
        lift: Lift::Eased,
        left,
    }
}

// The points of a rule's shape: only a sign has one.
#[tactic(auto, using(crate::proofs::OneLaws::points_shape, crate::proofs::OneLaws::points_none, crate::proofs::OneLaws::points_other))]
fn shape_points(h: RuleHead) -> u64
    ensures { result ≡ head_points h }
{
    if h.kind == 2 {
        if h.has_shape {
            return h.points;
        }
    }
    0
}

// Whether rule i goes, and the points of its shape.
fn gone_at(words: &[u64], i: usize, line: u64, lanes: &[u64]) -> Freed
    requires { ReadableWords words.now × ShapesFew words.now × (i < count_of words.now 5) }
    ensures { GoneAt words.now i line lanes.now result }
{
    let l = lift_of(words, i, line, lanes);
    let k = l.lift;
    match k {
        Lift::Gone => Freed {
            rules: 1,
            points: shape_points(lookup::rule_head(words, i)),
        },
        Lift::Eased => Freed {
            rules: 0,
            points: 0,
        },
        Lift::Kept => Freed {
            rules: 0,
            points: 0,
        },
    }
}

// How many rules go under a light on the line for the lanes, and the points of their shapes.
pub fn gone(words: &[u64], line: u64, lanes: &[u64]) -> Freed
    requires { ReadableWords words.now × ShapesFew words.now }
    ensures { GoneRead words.now line lanes.now result }
{
    let n = store::count(words, Kind::Rule);
    let mut rules = 0;
    let mut points = 0;
    for i in 0..n {
        let f = gone_at(words, i, line, lanes);
        rules += f.rules;
        points += f.points;
    }
    Freed { rules, points }
}
