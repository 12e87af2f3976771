// Whether the links are those that the rule has.
ghost use Rattle.std.specs.Prelude.{◌≡◌};
ghost use Rattle.rows.specs.Lists.{same_list};
ghost use Rattle.link_plan.specs.LinkPlan.{LinkWords, same_head_line, SameLines, SameRead};

use map::{RuleHead, lookup};

fn same_list(a: &[u64], b: &[u64]) -> bool
    ensures { result ≡ same_list a.now b.now }
{
    a == b
}

// Whether a light's line is the first of the lines, or none where there is none.
#[tactic(auto, using(crate::proofs::PlanLaws::no_line, crate::proofs::PlanLaws::its_line_same, crate::proofs::PlanLaws::line_new))]
fn same_line(h: RuleHead, lines: &[u64]) -> bool
    ensures { result ≡ same_head_line h lines.now }
{
    if lines.is_empty() {
        return !h.has_line;
    }
    h.has_line && h.line == lines[0]
}

// Only a light and a crossing can get other lines.
fn same_lines(words: &[u64], i: usize, lines: &[u64]) -> bool
    requires { LinkWords words.now i }
    ensures { SameLines words.now i lines.now result }
{
    let h = lookup::rule_head(words, i);
    if h.kind == 1 {
        return same_line(h, lines);
    }
    if h.kind == 5 {
        return same_list(lookup::rule_list(words, i, 75), lines);
    }
    true
}

pub fn same_links(words: &[u64], i: usize, lanes: &[u64], crosswalks: &[u64], lines: &[u64]) -> bool
    requires { LinkWords words.now i }
    ensures { SameRead words.now i lanes.now crosswalks.now lines.now result }
{
    same_list(lookup::rule_list(words, i, 7), lanes)
        && same_list(lookup::rule_list(words, i, 24), crosswalks)
        && same_lines(words, i, lines)
}
