// `set_regulatory_links`: the lanes, crosswalks and stop lines that a rule names.
#![tactic(auto)]

ghost use Rattle.std.specs.Prelude.{◌≡◌, true, false, Some, length, get_or};
ghost use Rattle.refusal.specs.Answer.{done};
ghost use Rattle.store.specs.Layout.{SizedWords, row_of};
ghost use Rattle.map.specs.Access.{lookup};
ghost use Rattle.changes.specs.Layout.{set_words, lists_ok_in};
ghost use Rattle.edit.specs.Lent.{CallLeft};
ghost use Rattle.edit.specs.Links.{link_changes, set_regulatory_links};
ghost use Rattle.finishing.specs.Finish.{lent_checks, Settles};
ghost use Rattle.link_plan.specs.LinkPlan.{LinkWords, links_fit};
ghost use Rattle.links.specs.Linked.{rule_links, LinksChecked, RulePlanned, SetDrafted, LinksEnd, RuleEnds};

use changes::lists::Entry;
use changes::{SetList, Tally};
use edit::Answered;
use linking::lists::check_lists;
use linking::sort::sorted_of;
use map::lookup;
use refusal::{RecordKind, Refusal};
use store::Kind;

// 2 for a rule that the map lacks, then the checks of the lists.
#[tactic(auto, using(crate::proofs::CarryLaws::lists_next))]
fn check_links(
    words: &[u64],
    rule: u64,
    lanes: &[u64],
    crosswalks: &[u64],
    lines: &[u64],
) -> Result<(), Refusal>
    requires { SizedWords words.now }
    ensures { LinksChecked words.now (rule_links rule lanes.now crosswalks.now lines.now) result }
{
    if !lookup::holds(words, Kind::Rule, rule) {
        return Err(Refusal::Unknown(RecordKind::Rule, rule));
    }
    check_lists(words, lanes, crosswalks, lines)
}

// The checks of rule i, then 10 where its lists are too long.
fn rule_plan(
    words: &[u64],
    i: usize,
    lanes: usize,
    crosswalks: usize,
    lines: &[u64],
) -> Result<(), Refusal>
    requires { LinkWords words.now i }
    ensures { RulePlanned words.now i lanes crosswalks lines.now result }
{
    link_plan::check::check_rule(words, i, lanes, crosswalks, lines)?;
    if link_plan::check::has_room(words, i, lanes, crosswalks, lines.len()) {
        return Ok(());
    }
    Err(Refusal::Full)
}

// The rule is modified where its links change.
#[tactic(auto, unfolding(edit::specs::Links::link_changes))]
fn draft_set(draft: &mut [u64], same: bool, rule: u64)
    requires { length draft.old ≡ set_words }
    ensures { SetDrafted same rule draft.new }
{
    building::clear(draft);
    if !same {
        building::push(
            draft,
            SetList::Modified,
            Entry {
                kind: 8,
                number: rule,
            },
        );
    }
}

// What settling the rule's set with the fold answers. Only where the fold is nearly full is a set drafted to find out, in memory of its own.
#[tactic(auto, using(crate::proofs::CarryLaws::fold_takes))]
fn check_fold(fold: &[u64], same: bool, rule: u64) -> Result<(), Refusal>
    requires { lists_ok_in fold.now ≡ true }
    ensures { Settles fold.now (link_changes same rule) false result }
{
    if finishing::fold_room(fold, false) {
        return Ok(());
    }
    let mut draft = [0u64; 3556];
    draft_set(&mut draft, same, rule);
    finishing::settles(fold, &mut draft, false)
}

// The plan carried out: nothing is stored before the fold is known to take the change set.
fn carry_out(
    words: &mut [u64],
    coords: &mut [f64],
    fold: &mut [u64],
    tally: Tally,
    set: &mut [u64],
    rule: u64,
    i: usize,
    lanes: &[u64],
    crosswalks: &[u64],
    lines: &[u64],
) -> Answered
    requires { (lent_checks (record { words = words.old; coords = coords.old; fold = fold.old; tally = tally; set = set.old }) ≡ done tt) × (lookup words.old 5 rule ≡ Some i) × (links_fit (get_or (row_of words.old 5 i) 1 0) (length lanes.now) (length crosswalks.now) (length lines.now) ≡ true) }
    ensures { LinksEnd (record { words = words.old; coords = coords.old; fold = fold.old; tally = tally; set = set.old }) i (rule_links rule lanes.now crosswalks.now lines.now) result.called (record { words = words.new; coords = coords.new; fold = fold.new; tally = result.tally; set = set.new }) }
{
    let same = link_plan::same::same_links(words, i, lanes, crosswalks, lines);
    let settled = check_fold(fold, same, rule);
    if let Err(r) = settled {
        return finishing::refused(r, tally);
    }
    draft_set(set, same, rule);
    finishing::take_in(fold, set);
    link_plan::put::links_put(words, i, lanes, crosswalks, lines);
    Answered {
        called: Ok((rule, None)),
        tally: building::tally_of(fold),
    }
}

// The call for lists that are known and in rising order.
fn link_rule(
    words: &mut [u64],
    coords: &mut [f64],
    fold: &mut [u64],
    tally: Tally,
    set: &mut [u64],
    rule: u64,
    lanes: &[u64],
    crosswalks: &[u64],
    lines: &[u64],
) -> Answered
    requires { lent_checks (record { words = words.old; coords = coords.old; fold = fold.old; tally = tally; set = set.old }) ≡ done tt }
    ensures { RuleEnds (record { words = words.old; coords = coords.old; fold = fold.old; tally = tally; set = set.old }) (rule_links rule lanes.now crosswalks.now lines.now) result.called (record { words = words.new; coords = coords.new; fold = fold.new; tally = result.tally; set = set.new }) }
{
    let f = lookup::find(words, Kind::Rule, rule);
    let Some(i) = f else {
        return finishing::refused(Refusal::Unknown(RecordKind::Rule, rule), tally);
    };
    let plan = rule_plan(words, i, lanes.len(), crosswalks.len(), lines);
    if let Err(r) = plan {
        return finishing::refused(r, tally);
    }
    carry_out(
        words, coords, fold, tally, set, rule, i, lanes, crosswalks, lines,
    )
}

// The rule names these lanes, crosswalks and stop lines from now on, in rising order. Answers the rule's number.
pub fn set_regulatory_links(
    words: &mut [u64],
    coords: &mut [f64],
    fold: &mut [u64],
    tally: Tally,
    set: &mut [u64],
    rule: u64,
    lanes: &[u64],
    crosswalks: &[u64],
    stop_lines: &[u64],
) -> Answered
    ensures { CallLeft (set_regulatory_links (rule_links rule lanes.now crosswalks.now stop_lines.now)) (record { words = words.old; coords = coords.old; fold = fold.old; tally = tally; set = set.old }) result.called (record { words = words.new; coords = coords.new; fold = fold.new; tally = result.tally; set = set.new }) }
{
    let lent = finishing::check_lent(words, coords, fold, tally, set);
    if let Err(r) = lent {
        return finishing::refused(r, tally);
    }
    let known = check_links(words, rule, lanes, crosswalks, stop_lines);
    if let Err(r) = known {
        return finishing::refused(r, tally);
    }
    let a = sorted_of(lanes);
    let b = sorted_of(crosswalks);
    let c = sorted_of(stop_lines);
    // arrays of their own: with parts of the three structs each list is copied once more
    let x = a.entries;
    let y = b.entries;
    let z = c.entries;
    link_rule(
        words,
        coords,
        fold,
        tally,
        set,
        rule,
        &x[..a.count],
        &y[..b.count],
        &z[..c.count],
    )
}
