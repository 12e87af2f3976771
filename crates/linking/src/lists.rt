// The lists of links: none listed twice, and all known.
ghost use Rattle.std.specs.Prelude.{◌≡◌, ◌<◌};
ghost use Rattle.store.specs.Kinds.{kind_number};
ghost use Rattle.store.specs.Layout.{SizedWords};
ghost use Rattle.placing.specs.Answers.{checked};
ghost use Rattle.linking.specs.Linking.{lesser, less_if, unknown_least, twice_checks, ListsChecked};

use map::lookup;
use placing::lists::twice;
use refusal::{Listed, RecordKind, Refusal};
use store::Kind;

// The lesser of a number and the least so far.
fn lesser(n: u64, best: Option<u64>) -> Option<u64>
    ensures { result ≡ lesser n best }
{
    match best {
        None => Some(n),
        Some(m) => { if n < m { Some(n) } else { Some(m) } }
    }
}

// The least so far, with one number more: it counts where kind k has no such record.
#[tactic(auto, unfolding(crate::specs::Linking::less_if))]
fn less_if(words: &[u64], k: Kind, n: u64, best: Option<u64>) -> Option<u64>
    requires { SizedWords words.now }
    ensures { result ≡ less_if words.now (kind_number k) n best }
{
    if lookup::holds(words, k, n) {
        return best;
    }
    lesser(n, best)
}

// The least number of the list that kind k has no record of.
pub fn least_unknown(words: &[u64], k: Kind, list: &[u64]) -> Option<u64>
    requires { SizedWords words.now }
    ensures { result ≡ unknown_least words.now (kind_number k) list.now }
{
    let mut best = None;
    for i in (0..list.len()).rev() {
        best = less_if(words, k, list[i], best);
    }
    best
}

// 3 for a lane, a crosswalk or a line that is listed twice.
#[tactic(auto, unfolding(crate::specs::Linking::twice_checks))]
fn check_twice(lanes: &[u64], crosswalks: &[u64], lines: &[u64]) -> Result<(), Refusal>
    ensures { checked result ≡ twice_checks lanes.now crosswalks.now lines.now }
{
    if twice(lanes) {
        return Err(Refusal::ListedTwice(Listed::Lanes));
    }
    if twice(crosswalks) {
        return Err(Refusal::ListedTwice(Listed::Crosswalks));
    }
    if twice(lines) {
        return Err(Refusal::ListedTwice(Listed::Lines));
    }
    Ok(())
}

// 3, then 2 for the least lane, crosswalk or line that the map lacks.
pub fn check_lists(
    words: &[u64],
    lanes: &[u64],
    crosswalks: &[u64],
    lines: &[u64],
) -> Result<(), Refusal>
    requires { SizedWords words.now }
    ensures { ListsChecked words.now lanes.now crosswalks.now lines.now result }
{
    check_twice(lanes, crosswalks, lines)?;
    if let Some(n) = least_unknown(words, Kind::Lane, lanes) {
        return Err(Refusal::Unknown(RecordKind::Lane, n));
    }
    if let Some(n) = least_unknown(words, Kind::Crosswalk, crosswalks) {
        return Err(Refusal::Unknown(RecordKind::Crosswalk, n));
    }
    if let Some(n) = least_unknown(words, Kind::StopLine, lines) {
        return Err(Refusal::Unknown(RecordKind::StopLine, n));
    }
    Ok(())
}
