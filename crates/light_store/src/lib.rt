// A light stored in a map's tables: what it lifts, the rule of the light that it joins, its line, its signal, and its own rule. Nothing here
// refuses: who calls it has asked for room and numbers before.
#![tactic(auto)]

ghost use Rattle.std.specs.Prelude.{◌≡◌, true};
ghost use Rattle.place.specs.Readable.{ReadableWords, Readable};
ghost use Rattle.light_store.specs.Storing.{LiftStored, line_maybe, RowReady, GroupStored, LineAsks, LineStored, SignalAsks, SignalStored, RuleAsks, RuleStored, StoreAsks, LightStored};

use centerline::Line;
use grouping::group_put;
use lifting::apply::apply_lifts;
use light_draft::Light;
use map::{Entries, NewRule, lookup, update};
use signal_row::SignalRow;
use store::Kind;

// What the light lifts from its line. It comes first, so that a rule that goes makes room for the light's.
#[tactic(auto, using(crate::proofs::StoreLaws::lift_none, crate::proofs::StoreLaws::lift_some))]
fn lift_stored(words: &mut [u64], coords: &mut [f64], l: Light, lanes: &[u64])
    requires { Readable words.old coords.old }
    ensures { LiftStored words.old coords.old l lanes.now words.new coords.new }
{
    if !l.has_line {
        return;
    }
    apply_lifts(words, coords, l.line, lanes);
}

#[tactic(auto, using(crate::proofs::StoreLaws::line_there, crate::proofs::StoreLaws::line_missing))]
fn line_of(l: Light) -> Option<u64>
    ensures { result ≡ line_maybe l }
{
    l.has_line.then_some(l.line)
}

// The rule of the light that is joined.
#[tactic(auto, using(crate::proofs::StoreLaws::not_joined, crate::proofs::StoreLaws::never_lost, crate::proofs::StoreLaws::joined_put))]
fn group_stored(words: &mut [u64], l: Light, joined: Entries)
    requires { ReadableWords words.old × (l.joins ≡ true → RowReady words.old l.rule joined) }
    ensures { GroupStored words.old l joined words.new }
{
    if !l.joins {
        return;
    }
    let line = line_of(l);
    let Some(i) = lookup::find(words, Kind::Rule, l.rule) else {
        return;
    };
    let entries = joined.entries;
    let n = joined.count;
    group_put(words, i, l.signal, line, &entries[..n]);
}

// The line, where it is drawn.
#[tactic(auto, using(place::proofs::LineLaws::part_long, crate::proofs::StoreLaws::line_none, crate::proofs::StoreLaws::line_some, crate::proofs::StoreLaws::coords_few))]
fn line_stored(words: &mut [u64], coords: &mut [f64], drawn: bool, line: Line)
    requires { LineAsks words.old coords.old drawn line }
    ensures { LineStored words.old coords.old drawn line words.new coords.new }
{
    if !drawn {
        return;
    }
    let cs = line.coords;
    let e = line.count * 3;
    update::push_line(words, coords, &cs[..e]);
}

#[tactic(auto, using(place::proofs::LineLaws::part_long, crate::proofs::StoreLaws::signal_asks, crate::proofs::StoreLaws::signal_done))]
fn signal_stored(words: &mut [u64], coords: &mut [f64], row: SignalRow, housing: Line)
    requires { SignalAsks words.old coords.old row housing }
    ensures { SignalStored words.old coords.old row housing words.new coords.new }
{
    let cs = housing.coords;
    let e = housing.count * 3;
    let numbers = row.words;
    let more = row.more;
    update::push_signal(words, coords, &numbers, &cs[..e], &more);
}

// A rule of the light's own, where it joins no other.
#[tactic(auto, using(crate::proofs::StoreLaws::rule_none, crate::proofs::StoreLaws::rule_some))]
fn rule_stored(words: &mut [u64], l: Light, lanes: &[u64])
    requires { RuleAsks words.old l lanes.now }
    ensures { RuleStored words.old l lanes.now words.new }
{
    if l.joins {
        return;
    }
    let signals = [l.signal];
    let line = l.has_line.then_some(l.line);
    update::push_new_rule(words, NewRule::Light { line }, lanes, &signals);
}

// All of it.
#[tactic(auto, using(crate::proofs::StoreLaws::light_stored))]
pub fn store_light(
    words: &mut [u64],
    coords: &mut [f64],
    lanes: &[u64],
    l: Light,
    line: Line,
    housing: Line,
    row: SignalRow,
    joined: Entries,
)
    requires { StoreAsks words.old coords.old lanes.now l line housing row joined }
    ensures { LightStored words.old coords.old lanes.now l line housing row words.new coords.new }
{
    lift_stored(words, coords, l, lanes);
    group_stored(words, l, joined);
    line_stored(words, coords, l.drawn, line);
    signal_stored(words, coords, row, housing);
    rule_stored(words, l, lanes);
}
