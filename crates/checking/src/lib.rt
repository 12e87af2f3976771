// Passing over a map file's tables, before anything is stored. The room for a row is lent, since there is no heap,
// and as slices that are long enough for a row of any kind, here and in the crate above.
#![tactic(auto)]

ghost use Rattle.std.specs.Prelude.{◌≡◌, ◌+◌, ◌≤◌, ◌<◌, length};
ghost use Rattle.store.specs.Kinds.{kind_number};
ghost use Rattle.checking.specs.Checking.{points_in, TableChecked};

use fields::Place;
use store::Kind;

// The points of a record of kind k, bulbs apart, by its row of words.
#[tactic(auto, unfolding(crate::specs::Checking::points_in, map::specs::Tables::flag_at))]
pub fn points(words: &[u64], k: Kind) -> u64
    requires { (92 ≤ length words.now) × (points_in (kind_number k) words.now ≤ 192) }
    ensures { result ≡ points_in (kind_number k) words.now }
{
    match k {
        Kind::Lane => { if words[6] == 0 { 0 } else { words[7] } }
        Kind::Boundary | Kind::StopLine => words[1],
        Kind::Signal => words[2],
        Kind::Crosswalk => {
            let sides = words[1] + words[2];
            if words[3] == 0 {
                sides
            } else {
                sides + words[4]
            }
        }
        Kind::Rule => {
            if words[1] != 2 || words[5] == 0 {
                0
            } else {
                words[6]
            }
        }
    }
}

// A table is passed over: at most as many records as there is room for, their numbers rising and below `next`. How many points its
// records have, and where it ends. Row and coordinates are room to read into.
#[tactic(auto, using(crate::proofs::CheckLaws::passing))]
pub fn check_table(
    s: &[u8],
    p: Place,
    k: Kind,
    next: u64,
    row: &mut [u64],
    xs: &mut [f64],
) -> Option<(u64, usize)>
    requires { (92 ≤ length row.old) × (576 ≤ length xs.old) }
    ensures { TableChecked s.now p (kind_number k) next result }
{
    let most = k.limit() as u64;
    let mut q = fields::read_word(s, p, row, 0, 0, most);
    let n = row[0];
    let mut low: u64 = 0;
    let mut sum: u64 = 0;
    for _ in 0..n {
        let after = loading::read_record(s, q, k, row, xs)?;
        let x = row[0];
        if x < low || next <= x {
            return None;
        }
        q = Some(after);
        low = x + 1;
        sum += points(row, k);
    }
    Some((sum, q?))
}
