// A whole map file, before anything is stored.
#![tactic(auto)]

ghost use Rattle.std.specs.Prelude.{◌≡◌, ◌≤◌, length};
ghost use Rattle.mapfile.specs.MapBytes.{is_map_file, MarksChecked, LinesChecked, TablesChecked};

use fields::Place;
use store::Kind;

// The tables of signals, crosswalks and rules are passed over: the points of their records, and where the last ends. Bytes, place, next
// number and room are handed on one by one: each call has a place of its own, and a struct of the rest would be lent as often as they are.
#[tactic(auto, using(crate::proofs::MapLaws::checking_marks))]
fn check_marks(
    s: &[u8],
    p: Place,
    next: u64,
    row: &mut [u64],
    xs: &mut [f64],
) -> Option<(u64, usize)>
    requires { (92 ≤ length row.old) × (576 ≤ length xs.old) }
    ensures { MarksChecked s.now p next result }
{
    let (signals, q) = checking::check_table(s, p, Kind::Signal, next, row, xs)?;
    let (crosswalks, r) = checking::check_table(s, Some(q), Kind::Crosswalk, next, row, xs)?;
    let (rules, end) = checking::check_table(s, Some(r), Kind::Rule, next, row, xs)?;
    Some((signals + (crosswalks + rules), end))
}

// The tables of boundaries and stop lines, and those after them.
#[tactic(auto, using(crate::proofs::MapLaws::checking_lines))]
fn check_lines(
    s: &[u8],
    p: Place,
    next: u64,
    row: &mut [u64],
    xs: &mut [f64],
) -> Option<(u64, usize)>
    requires { (92 ≤ length row.old) × (576 ≤ length xs.old) }
    ensures { LinesChecked s.now p next result }
{
    let (boundaries, q) = checking::check_table(s, p, Kind::Boundary, next, row, xs)?;
    let (stop_lines, r) = checking::check_table(s, Some(q), Kind::StopLine, next, row, xs)?;
    let (marks, end) = check_marks(s, Some(r), next, row, xs)?;
    Some((boundaries + (stop_lines + marks), end))
}

// The six tables are passed over.
#[tactic(auto, using(crate::proofs::MapLaws::checking_tables))]
fn check_tables(
    s: &[u8],
    p: Place,
    next: u64,
    row: &mut [u64],
    xs: &mut [f64],
) -> Option<(u64, usize)>
    requires { (92 ≤ length row.old) × (576 ≤ length xs.old) }
    ensures { TablesChecked s.now p next result }
{
    let (lanes, q) = checking::check_table(s, p, Kind::Lane, next, row, xs)?;
    let (lines, end) = check_lines(s, Some(q), next, row, xs)?;
    Some((lanes + lines, end))
}

// Whether the bytes are a map file. Row and coordinates are room to read into.
#[tactic(auto, using(crate::proofs::MapLaws::checking_map))]
pub fn check_map(s: &[u8], row: &mut [u64], xs: &mut [f64]) -> bool
    requires { (92 ≤ length row.old) × (576 ≤ length xs.old) }
    ensures { result ≡ is_map_file s.now }
{
    let p = fields::read_word(s, Some(0), row, 0, 0, u64::MAX);
    let next = row[0];
    let Some((points, end)) = check_tables(s, p, next, row, xs) else {
        return false;
    };
    // bytes left over
    if end < s.len() {
        return false;
    }
    points <= 1024
}
