// What the rule can be linked to, and whether there is room for it.
ghost use Rattle.std.specs.Prelude.{◌≡◌, [], ◌∷◌, length, get_or};
ghost use Rattle.rows.specs.Lists.{same_list};
ghost use Rattle.store.specs.Layout.{row_of};
ghost use Rattle.link_plan.specs.LinkPlan.{LinkWords, RuleChecked, links_fit};

use linking::light::check_light;
use map::lookup;
use refusal::{LinkFault, Refusal};

// Whether the list is the one line.
#[tactic(auto, using(crate::proofs::PlanLaws::one_line, crate::proofs::PlanLaws::more_lines))]
fn is_line(lines: &[u64], line: u64) -> bool
    ensures { result ≡ same_list lines.now (line ∷ []) }
{
    lines.len() == 1 && lines[0] == line
}

// A light by its signals, 8/6 for a crossing, 8/7 for a marking, 8/8 for any other.
pub fn check_rule(
    words: &[u64],
    i: usize,
    lanes: usize,
    crosswalks: usize,
    lines: &[u64],
) -> Result<(), Refusal>
    requires { LinkWords words.now i }
    ensures { RuleChecked words.now i lanes crosswalks lines.now result }
{
    // the kind is the row's number: numbers past those named are kinds too
    let h = lookup::rule_head(words, i);
    if h.kind == 1 {
        let signals = lookup::rule_list(words, i, 41);
        return check_light(words, signals, lanes, crosswalks, lines.len());
    }
    if h.kind == 5 {
        if crosswalks != 0 {
            return Err(Refusal::WrongLink(LinkFault::CrossingWithCrosswalks));
        }
        return Ok(());
    }
    if h.kind == 3 {
        if crosswalks != 0 {
            return Err(Refusal::WrongLink(LinkFault::MarkingWithOthers));
        }
        if is_line(lines, h.line) {
            return Ok(());
        }
        return Err(Refusal::WrongLink(LinkFault::MarkingWithOthers));
    }
    Err(Refusal::WrongLink(LinkFault::OtherRule))
}

// Whether the rule's lists keep below the ceiling. A light has its line, and a marking, beside them.
#[tactic(auto, using(crate::proofs::PlanLaws::below), unfolding(crate::specs::LinkPlan::links_fit))]
pub fn has_room(words: &[u64], i: usize, lanes: usize, crosswalks: usize, lines: usize) -> bool
    requires { LinkWords words.now i }
    ensures { result ≡ links_fit (get_or (row_of words.now 5 i) 1 0) lanes crosswalks lines }
{
    if 16 < lanes || 16 < crosswalks {
        return false;
    }
    let h = lookup::rule_head(words, i);
    h.kind != 5 || lines <= 16
}
