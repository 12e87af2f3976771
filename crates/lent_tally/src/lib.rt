// The edits for callers that keep the running fold's tally in memory: it is lent, and brought up to date. The edits take it by value and
// answer it anew; these functions only store what was answered.
#![tactic(auto)]

ghost use Rattle.edit.specs.Lent.{CallLeft};
ghost use Rattle.edit.specs.Links.{set_regulatory_links};
ghost use Rattle.edit.specs.StopLine.{add_stop_line};
ghost use Rattle.links.specs.Linked.{rule_links};
ghost use Rattle.stop_lines.specs.Stop.{new_stop_line};

use changes::Tally;
use edit::StopRule;
use place::{Placement, SectionNames};
use refusal::Refusal;

pub fn add_stop_line(
    words: &mut [u64],
    coords: &mut [f64],
    fold: &mut [u64],
    tally: &mut Tally,
    set: &mut [u64],
    lanes: &[u64],
    how: Placement,
    given: &[f64],
    rule: StopRule,
) -> Result<(u64, Option<SectionNames>), Refusal>
    ensures { CallLeft (add_stop_line (new_stop_line lanes.now how given.now rule)) (record { words = words.old; coords = coords.old; fold = fold.old; tally = tally.old; set = set.old }) result (record { words = words.new; coords = coords.new; fold = fold.new; tally = tally.new; set = set.new }) }
{
    let a = stop_lines::add_stop_line(words, coords, fold, *tally, set, lanes, how, given, rule);
    *tally = a.tally;
    a.called
}

pub fn set_regulatory_links(
    words: &mut [u64],
    coords: &mut [f64],
    fold: &mut [u64],
    tally: &mut Tally,
    set: &mut [u64],
    rule: u64,
    lanes: &[u64],
    crosswalks: &[u64],
    stop_lines: &[u64],
) -> Result<(u64, Option<SectionNames>), Refusal>
    ensures { CallLeft (set_regulatory_links (rule_links rule lanes.now crosswalks.now stop_lines.now)) (record { words = words.old; coords = coords.old; fold = fold.old; tally = tally.old; set = set.old }) result (record { words = words.new; coords = coords.new; fold = fold.new; tally = tally.new; set = set.new }) }
{
    let a = links::set_regulatory_links(
        words, coords, fold, *tally, set, rule, lanes, crosswalks, stop_lines,
    );
    *tally = a.tally;
    a.called
}
