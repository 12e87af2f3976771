// The lines that rules name.
ghost use Rattle.std.specs.Prelude.{◌≡◌, ◌<◌};
ghost use Rattle.store.specs.Layout.{count_of};
ghost use Rattle.place.specs.Readable.{ReadableWords};
ghost use Rattle.lighting.specs.RuleLines.{head_line, LineOn, LineFound};

use map::{RuleHead, lookup};
use placing::lists::member;
use store::Kind;

// The line of a light, a sign or a marking.
#[tactic(auto, using(crate::proofs::RuleLaws::head_marking, crate::proofs::RuleLaws::head_none))]
pub fn stops_at(h: RuleHead) -> Option<u64>
    ensures { result ≡ head_line h }
{
    if h.kind == 3 {
        return Some(h.line);
    }
    if h.kind == 1 {
        return if h.has_line { Some(h.line) } else { None };
    }
    if h.kind == 2 {
        return if h.has_line { Some(h.line) } else { None };
    }
    None
}

// The line that rule i gives a lane.
#[tactic(auto, using(crate::proofs::RuleLaws::rule_there, crate::proofs::RuleLaws::rule_lanes, crate::proofs::RuleLaws::line_listed, crate::proofs::RuleLaws::line_unlisted))]
fn line_on(words: &[u64], i: usize, lane: u64) -> Option<u64>
    requires { ReadableWords words.now × (i < count_of words.now 5) }
    ensures { LineOn words.now i lane result }
{
    if member(lookup::rule_list(words, i, 7), 0, lane) {
        return stops_at(lookup::rule_head(words, i));
    }
    None
}

// The line of the first rule that lists the lane and has one: a light, a sign of any type or a marking.
pub fn existing_stop_line(words: &[u64], lane: u64) -> Option<u64>
    requires { ReadableWords words.now }
    ensures { LineFound words.now lane result }
{
    let n = store::count(words, Kind::Rule);
    for i in 0..n {
        let u = line_on(words, i, lane);
        if let Some(l) = u {
            return Some(l);
        }
    }
    None
}
