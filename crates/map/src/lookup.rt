// Reading the tables: look-ups by number, and records by their index.
ghost use Rattle.std.specs.Prelude.{◌≡◌, ◌+◌, ◌*◌, ◌≤◌, ◌<◌, ltb, length, get_or};
ghost use Rattle.geometry.specs.Polyline.{polyline_of};
ghost use Rattle.store.specs.Kinds.{kind_number};
ghost use Rattle.store.specs.Layout.{SizedWords, limit_of, width_of, count_of, coord_width_of, row_of, coords_of, all_coords};
ghost use Rattle.map.specs.Tables.{line_at, list_at};
ghost use Rattle.map.specs.Access.{lookup, index_in, HasRead, LaneRead, HeadRead, ListRead};

use crate::{Entries, LaneRow, RuleHead};
use store::Kind;

// The index of the record of kind k with number x.
pub fn find(words: &[u64], k: Kind, x: u64) -> Option<usize>
    requires { SizedWords words.now }
    ensures { result ≡ lookup words.now (kind_number k) x }
{
    let i = store::find(words, k, x);
    (i < store::count(words, k)).then_some(i)
}

// Whether kind k has a record with number x.
pub fn holds(words: &[u64], k: Kind, x: u64) -> bool
    requires { SizedWords words.now }
    ensures { result ≡ ltb (index_in words.now (kind_number k) x) (count_of words.now (kind_number k)) }
{
    store::find(words, k, x) < store::count(words, k)
}

// Whether the map has a record; the kind is a change set's: lane 1, boundary 2, stop line 5,
// signal 6, crosswalk 7, rule 8. A set may name any other number, so it is none of an enum.
pub fn has(words: &[u64], kind: u64, number: u64) -> bool
    requires { SizedWords words.now }
    ensures { HasRead words.now kind number result }
{
    match kind {
        1 => holds(words, Kind::Lane, number),
        2 => holds(words, Kind::Boundary, number),
        5 => holds(words, Kind::StopLine, number),
        6 => holds(words, Kind::Signal, number),
        7 => holds(words, Kind::Crosswalk, number),
        8 => holds(words, Kind::Rule, number),
        _ => false,
    }
}

// Word o of row i of kind k.
pub fn word(words: &[u64], k: Kind, i: usize, o: usize) -> u64
    requires { SizedWords words.now × (i < limit_of (kind_number k)) × (o < width_of (kind_number k)) }
    ensures { result ≡ get_or (row_of words.now (kind_number k) i) o 0 }
{
    words[k.place(i) + o]
}

// The n points from coordinate o on, of row i of kind k.
pub fn points(coords: &[f64], k: Kind, i: usize, o: usize, n: usize) -> &[f64]
    requires { (length coords.now ≡ all_coords) × (i < limit_of (kind_number k)) × (o + n * 3 ≤ coord_width_of (kind_number k)) }
    ensures { polyline_of result.now ≡ line_at (coords_of coords.now (kind_number k) i) o n }
{
    let at = k.coord_place(i) + o;
    let e = at + n * 3;
    &coords[at..e]
}

// Lane i.
pub fn lane(words: &[u64], i: usize) -> LaneRow
    requires { SizedWords words.now × (i < 64) }
    ensures { LaneRead (row_of words.now 0 i) result }
{
    let at = store::layout::LANES + i * store::layout::LANE;
    LaneRow {
        number: words[at],
        kind: words[at + 1],
        left: words[at + 2],
        left_reversed: words[at + 3] != 0,
        right: words[at + 4],
        right_reversed: words[at + 5] != 0,
        centerline: (words[at + 6] != 0).then_some(words[at + 7]),
    }
}

// Rule i, but its lists.
pub fn rule_head(words: &[u64], i: usize) -> RuleHead
    requires { SizedWords words.now × (i < 128) }
    ensures { HeadRead (row_of words.now 5 i) result }
{
    let at = store::layout::RULES + i * store::layout::RULE;
    RuleHead {
        number: words[at],
        kind: words[at + 1],
        value: words[at + 2],
        has_line: words[at + 3] != 0,
        line: words[at + 4],
        has_shape: words[at + 5] != 0,
        points: words[at + 6],
    }
}

// The list at word o of rule i, as a part of the slice.
pub fn rule_list(words: &[u64], i: usize, o: usize) -> &[u64]
    requires { SizedWords words.now × (i < 128) × (o + 1 + get_or (row_of words.now 5 i) o 0 ≤ 92) }
    ensures { result.now ≡ list_at (row_of words.now 5 i) o }
{
    let at = store::layout::RULES + i * store::layout::RULE + o;
    let n = rows::index(words[at]);
    let s = at + 1;
    let e = s + n;
    &words[s..e]
}

// The list at word o of rule i, by value.
pub fn rule_entries(words: &[u64], i: usize, o: usize) -> Entries
    requires { SizedWords words.now × (i < 128) × (get_or (row_of words.now 5 i) o 0 ≤ 16) × (o + 17 ≤ 92) }
    ensures { ListRead (row_of words.now 5 i) o result }
{
    let at = store::layout::RULES + i * store::layout::RULE + o;
    let count = rows::index(words[at]);
    let mut entries = [0u64; 16];
    rows::get(words, at + 1, &mut entries);
    Entries { count, entries }
}
