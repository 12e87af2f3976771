// A light that joins another: the lanes that the rule would list, and the rule put.
#![tactic(auto)]

ghost use Rattle.std.specs.Prelude.{◌≡◌, cond, [], ◌∷◌, ◌++◌, ◌≤◌, ◌<◌, length, get_or, None, Some};
ghost use Rattle.rows.specs.Lists.{or_else};
ghost use Rattle.store.specs.Layout.{SizedWords, count_of, row_of};
ghost use Rattle.map.specs.Tables.{list_at};
ghost use Rattle.map.specs.Updates.{RulePut, with_list};
ghost use Rattle.place.specs.Readable.{ReadableWords};
ghost use Rattle.grouping.specs.Group.{JoinedRead, line_words, LineKept, GroupPut};

use map::{Entries, RuleHead, lookup, update};
use placing::lists::member;

// The words of a rule's line.
#[derive(Drop)]
pub struct LineWords {
    pub flag: u64,
    pub number: u64,
}

// The lanes of rule i, and those given that it lacks. A count above 16 says that they do not fit.
#[tactic(auto, using(crate::proofs::JoinLaws::join_skip, crate::proofs::JoinLaws::join_full, crate::proofs::JoinLaws::join_end))]
pub fn joined_lanes(words: &[u64], i: usize, lanes: &[u64]) -> Entries
    requires { ReadableWords words.now × (i < count_of words.now 5) }
    ensures { JoinedRead (list_at (row_of words.now 5 i) 7) lanes.now result }
{
    let start = lookup::rule_entries(words, i, 7);
    let listed = lookup::rule_list(words, i, 7);
    let mut count = start.count;
    let mut entries = start.entries;
    for n in lanes {
        if member(listed, 0, *n) {
            continue;
        }
        if 16 <= count {
            return Entries { count: 17, entries };
        }
        entries[count] = *n;
        count += 1;
    }
    Entries { count, entries }
}

// One signal more in rule i, a light.
fn put_signal(words: &mut [u64], i: usize, signal: u64)
    requires { SizedWords words.old × (i < count_of words.old 5) × (get_or (row_of words.old 5 i) 41 0 < 16) }
    ensures { RulePut words.old i (with_list (row_of words.old 5 i) 41 (list_at (row_of words.old 5 i) 41 ++ (signal ∷ []))) words.new }
{
    let before = lookup::rule_entries(words, i, 41);
    let n = before.count;
    let mut signals = before.entries;
    signals[n] = signal;
    let e = n + 1;
    update::put_list(words, i, 41, &signals[..e]);
}

fn own_line(h: RuleHead) -> Option<u64>
    ensures { result ≡ cond h.has_line (Some h.line) None }
{
    if h.has_line { Some(h.line) } else { None }
}

fn first_of(a: Option<u64>, b: Option<u64>) -> Option<u64>
    ensures { result ≡ or_else a b }
{
    a.or(b)
}

fn line_words(l: Option<u64>) -> LineWords
    ensures { line_words result ≡ l }
{
    match l {
        Some(number) => LineWords { flag: 1, number },
        None => LineWords { flag: 0, number: 0 },
    }
}

// The rule's own line where it has one, else the light's.
fn kept_line(h: RuleHead, line: Option<u64>) -> LineWords
    ensures { LineKept h line result }
{
    let own = own_line(h);
    line_words(first_of(own, line))
}

// Rule i, a light, with one more signal, these lanes, and a line where it had none.
#[tactic(auto, using(crate::proofs::JoinLaws::line_ready, crate::proofs::JoinLaws::lanes_ready, crate::proofs::JoinLaws::group_put))]
pub fn group_put(words: &mut [u64], i: usize, signal: u64, line: Option<u64>, lanes: &[u64])
    requires { ReadableWords words.old × (i < count_of words.old 5) × (get_or (row_of words.old 5 i) 1 0 ≡ 1) × (get_or (row_of words.old 5 i) 41 0 < 16) × (length lanes.now ≤ 16) }
    ensures { GroupPut words.old i signal line lanes.now words.new }
{
    let w = kept_line(lookup::rule_head(words, i), line);
    put_signal(words, i, signal);
    update::put_line(words, i, w.flag, w.number);
    update::put_list(words, i, 7, lanes);
}
