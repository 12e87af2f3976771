// A light's draft: the numbers that it hands out, and its change set.
#![tactic(auto)]

ghost use Rattle.std.specs.Prelude.{◌≡◌, true, ◌&&◌, ◌<◌, length, None, Some};
ghost use Rattle.store.specs.Layout.{SizedWords, next_of};
ghost use Rattle.changes.specs.Kinds.{list_number, code_number};
ghost use Rattle.changes.specs.Listed.{ref_of};
ghost use Rattle.changes.specs.Layout.{set_words};
ghost use Rattle.place.specs.Readable.{ReadableWords};
ghost use Rattle.lifting.specs.Noting.{AllFit};
ghost use Rattle.light_draft.specs.Drafting.{one_if, LineNumbered, NumbersMade, LightNumbered, PushAsks, PushedIf, WarnAsks, WarnedIf, NotedIf, SetDrafted};

use changes::lists::Entry;
use changes::{SetList, WarningCode};
use lifting::note::note_lifts;
use lighting::LinePlan;
use map::update;

// The line of a light, which may be none, and whether it is a new one.
#[derive(Drop)]
pub struct LineNumber {
    pub has_line: bool,
    pub line: u64,
    pub drawn: bool,
}

// The numbers of a light: its line, its signal, and its rule, which is a new one or that of the light that it joins. Where they are spent
// (late), new ones are all the first.
#[derive(Clone, Copy)]
pub struct Light {
    pub has_line: bool,
    pub line: u64,
    pub drawn: bool,
    pub signal: u64,
    pub rule: u64,
    pub joins: bool,
    pub late: bool,
}

fn at_line(line: u64, drawn: bool) -> LineNumber
    ensures { result ≡ record { has_line = true; line = line; drawn = drawn } }
{
    LineNumber {
        has_line: true,
        line,
        drawn,
    }
}

// The line that a plan leads to. A new one gets the first number.
fn line_number(plan: LinePlan, first: u64) -> LineNumber
    ensures { LineNumbered plan first result }
{
    match plan {
        LinePlan::Use(s) => at_line(s, false),
        LinePlan::NoLine => LineNumber {
            has_line: false,
            line: 0,
            drawn: false,
        },
        LinePlan::Draw(_) => at_line(first, true),
    }
}

pub fn one_if(b: bool) -> u64
    ensures { result ≡ one_if b }
{
    u64::from(b)
}

// A light with a rule of its own: two numbers, and one for a new line.
#[tactic(auto, using(crate::proofs::StepLaws::one_few, crate::proofs::StepLaws::new_late, crate::proofs::StepLaws::new_right))]
fn new_light(l: LineNumber, first: u64) -> Light
    ensures { NumbersMade l first None result }
{
    let more = one_if(l.drawn);
    if 18446744073709551613 - more < first {
        return Light {
            has_line: l.has_line,
            line: l.line,
            drawn: l.drawn,
            signal: first,
            rule: first,
            joins: false,
            late: true,
        };
    }
    Light {
        has_line: l.has_line,
        line: l.line,
        drawn: l.drawn,
        signal: first + more,
        rule: first + more + 1,
        joins: false,
        late: false,
    }
}

// A light that joins another: one number, and one for a new line.
#[tactic(auto, using(crate::proofs::StepLaws::one_few, crate::proofs::StepLaws::joined_late, crate::proofs::StepLaws::joined_right))]
fn joined_light(l: LineNumber, first: u64, group: u64) -> Light
    ensures { NumbersMade l first (Some group) result }
{
    let more = one_if(l.drawn);
    if 18446744073709551614 - more < first {
        return Light {
            has_line: l.has_line,
            line: l.line,
            drawn: l.drawn,
            signal: first,
            rule: group,
            joins: true,
            late: true,
        };
    }
    Light {
        has_line: l.has_line,
        line: l.line,
        drawn: l.drawn,
        signal: first + more,
        rule: group,
        joins: true,
        late: false,
    }
}

// The numbers of a light.
#[tactic(auto, using(crate::proofs::StepLaws::light_numbered))]
pub fn light_of(words: &[u64], plan: LinePlan, group: Option<u64>) -> Light
    requires { SizedWords words.now }
    ensures { LightNumbered (next_of words.now) plan group result }
{
    let first = update::fresh(words);
    let l = line_number(plan, first);
    match group {
        None => new_light(l, first),
        Some(g) => joined_light(l, first, g),
    }
}

// What a list of the change set names, by its kind and its number.
fn entry(kind: u64, number: u64) -> Entry
    ensures { result ≡ record { kind = kind; number = number } }
{
    Entry { kind, number }
}

#[tactic(auto, using(crate::proofs::StepLaws::push_none, crate::proofs::StepLaws::push_some, crate::proofs::StepLaws::push_room))]
fn push_if(draft: &mut [u64], b: bool, l: SetList, e: Entry)
    requires { PushAsks draft.old (list_number l) }
    ensures { PushedIf draft.old b (list_number l) (ref_of e) draft.new }
{
    if !b {
        return;
    }
    building::push(draft, l, e);
}

#[tactic(auto, using(crate::proofs::StepLaws::warn_none, crate::proofs::StepLaws::warn_some, crate::proofs::StepLaws::warn_room))]
fn warn_if(draft: &mut [u64], b: bool, c: WarningCode, about: Entry)
    requires { WarnAsks draft.old }
    ensures { WarnedIf draft.old b (code_number c) about.kind about.number draft.new }
{
    if !b {
        return;
    }
    building::warn(draft, c, about);
}

#[tactic(auto, using(crate::proofs::StepLaws::lifts_none, crate::proofs::StepLaws::lifts_some))]
fn lifts_if(words: &[u64], b: bool, line: u64, lanes: &[u64], draft: &mut [u64])
    requires { ReadableWords words.now × AllFit draft.old }
    ensures { NotedIf words.now b line lanes.now draft.old draft.new }
{
    if !b {
        return;
    }
    note_lifts(words, line, lanes, draft);
}

pub fn both(a: bool, b: bool) -> bool
    ensures { result ≡ (a && b) }
{
    a && b
}

// The change set of a light: what is new, the light that is joined, what is warned of, and what is lifted from its line.
pub fn draft_set(
    words: &[u64],
    lanes: &[u64],
    l: Light,
    clamped: bool,
    made: bool,
    draft: &mut [u64],
)
    requires { ReadableWords words.now × (0 < length lanes.now) × (length draft.old ≡ set_words) }
    ensures { SetDrafted words.now lanes.now l clamped made draft.new }
{
    let new = !l.joins;
    building::clear(draft);
    let line = entry(5, l.line);
    let signal = entry(6, l.signal);
    let rule = entry(8, l.rule);
    push_if(draft, l.drawn, SetList::Created, line);
    push_if(draft, true, SetList::Created, signal);
    push_if(draft, new, SetList::Created, rule);
    push_if(draft, l.joins, SetList::Modified, rule);
    let lane = entry(1, lanes[0]);
    warn_if(
        draft,
        both(l.drawn, clamped),
        WarningCode::PlacementClamped,
        lane,
    );
    let nothing = entry(0, 0);
    warn_if(draft, made, WarningCode::GeometrySynthesized, nothing);
    lifts_if(words, l.has_line, l.line, lanes, draft);
}
