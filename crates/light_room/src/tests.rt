// Whether what is stored of a light is on the map, and whether the map that it leaves keeps below the ceilings.
ghost use Rattle.std.specs.Prelude.{◌≡◌, true, false, cond, ◌+◌, ◌≤◌, leb, None, Some};
ghost use Rattle.rows.specs.Lists.{every};
ghost use Rattle.geometry.specs.Point.{point_on_map};
ghost use Rattle.centerline.specs.Line.{points_of};
ghost use Rattle.store.specs.Layout.{SizedWords, count_of};
ghost use Rattle.row_tests.specs.Flat.{all_points, Few};
ghost use Rattle.place.specs.Readable.{ReadableWords};
ghost use Rattle.place.specs.Values.{Roomy};
ghost use Rattle.lifting.specs.Lifting.{ShapesFew};
ghost use Rattle.light_draft.specs.Drafting.{one_if};
ghost use Rattle.light_room.specs.Room.{lamps_on, FreedRead, JoinedFor, ListsFit, on_map, counts_fit, room_for};

use centerline::Line;
use grouping::joined_lanes;
use lifting::{Freed, gone};
use light_draft::both;
use map::{Entries, lookup};
use signal_row::{Bulbs, bulbs_on_map};
use store::Kind;

// A line, where it is stored.
#[tactic(auto, using(place::proofs::LineLaws::part_long, crate::proofs::TestLaws::part_inside, crate::proofs::TestLaws::part_thirds, crate::proofs::TestLaws::line_left, crate::proofs::TestLaws::line_tested))]
fn line_on(asked: bool, line: Line) -> bool
    requires { Roomy line }
    ensures { result ≡ cond asked (every point_on_map (points_of line)) true }
{
    if !asked {
        return true;
    }
    let cs = line.coords;
    let e = line.count * 3;
    finishing::stored_ok(&cs[..e])
}

// Every lamp: those that are given, also past the fourth, each with all its coordinates; or the standard ones.
#[tactic(auto, using(crate::proofs::TestLaws::lamps_standard, crate::proofs::TestLaws::lamps_short, crate::proofs::TestLaws::lamps_whole))]
pub fn lamps_on(given: bool, lamps: &[f64], standard: Bulbs) -> bool
    requires { given ≡ false → standard.count ≤ 4 }
    ensures { result ≡ lamps_on given lamps.now standard }
{
    if !given {
        return bulbs_on_map(standard);
    }
    if lamps.len() % 3 != 0 {
        return false;
    }
    finishing::stored_ok(lamps)
}

// The line where it is drawn, the housing, and the lamps.
#[tactic(auto, using(crate::proofs::TestLaws::all_on_map))]
pub fn on_map(drawn: bool, line: Line, housing: Line, lamps: bool) -> bool
    requires { Roomy line × Roomy housing }
    ensures { result ≡ on_map drawn (points_of line) (points_of housing) lamps }
{
    let a = line_on(drawn, line);
    let b = line_on(true, housing);
    both(a, both(b, lamps))
}

// What goes under a light: nothing where it has no line.
#[tactic(auto, using(crate::proofs::TestLaws::freed_none, crate::proofs::TestLaws::freed_some))]
pub fn freed_by(words: &[u64], lined: bool, line: u64, lanes: &[u64]) -> Freed
    requires { ReadableWords words.now × ShapesFew words.now }
    ensures { FreedRead words.now (cond lined (Some line) None) lanes.now result }
{
    if !lined {
        return Freed {
            rules: 0,
            points: 0,
        };
    }
    gone(words, line, lanes)
}

// The lanes that the light that is joined would list.
#[tactic(auto, using(crate::proofs::TestLaws::joined_none, crate::proofs::TestLaws::joined_lost, crate::proofs::TestLaws::joined_some, crate::proofs::TestLaws::found_here))]
pub fn joined_for(words: &[u64], joins: bool, rule: u64, lanes: &[u64]) -> Entries
    requires { ReadableWords words.now }
    ensures { JoinedFor words.now joins rule lanes.now result }
{
    let none = Entries {
        count: 0,
        entries: [0u64; 16],
    };
    if !joins {
        return none;
    }
    let Some(i) = lookup::find(words, Kind::Rule, rule) else {
        return none;
    };
    joined_lanes(words, i, lanes)
}

// Whether the lists of the light's rule fit: the lanes, and one signal more where it joins another.
#[tactic(auto, using(crate::proofs::TestLaws::signals_asks, crate::proofs::TestLaws::lists_new, crate::proofs::TestLaws::lists_lost, crate::proofs::TestLaws::lists_group))]
pub fn lists_fit(words: &[u64], joins: bool, rule: u64, lanes: usize, joined: Entries) -> bool
    requires { ReadableWords words.now }
    ensures { ListsFit words.now joins rule lanes joined result }
{
    if !joins {
        return lanes <= 16;
    }
    let Some(i) = lookup::find(words, Kind::Rule, rule) else {
        return false;
    };
    both(
        lookup::word(words, Kind::Rule, i, 41) < 16,
        joined.count <= 16,
    )
}

fn one(b: bool) -> usize
    ensures { result ≡ one_if b }
{
    usize::from(b)
}

// Lines, signals and rules. The rules that go make room.
#[tactic(auto, using(crate::proofs::TestLaws::counts_are, crate::proofs::TestLaws::one_few, crate::proofs::TestLaws::count_few))]
fn counts_fit(words: &[u64], drawn: bool, joins: bool, freed: usize) -> bool
    requires { SizedWords words.now × (freed ≤ 128) }
    ensures { result ≡ counts_fit (count_of words.now 2) (count_of words.now 3) (count_of words.now 5) drawn joins freed }
{
    let lines = store::count(words, Kind::StopLine) + one(drawn);
    let signals = store::count(words, Kind::Signal) + 1;
    let rules = store::count(words, Kind::Rule) + one(!joins);
    both(lines <= 64, both(signals <= 64, rules <= 128 + freed))
}

// The points of a line that is drawn, and of the housing.
#[tactic(auto, using(crate::proofs::TestLaws::points_drawn, crate::proofs::TestLaws::points_plain))]
pub fn points_of(drawn: bool, line: usize, housing: usize) -> usize
    requires { (line ≤ 64) × (housing ≤ 64) }
    ensures { result ≡ cond drawn line 0 + housing }
{
    if drawn {
        return line + housing;
    }
    housing
}

#[tactic(auto, using(crate::proofs::TestLaws::points_are_few))]
fn points_fit(words: &[u64], freed: u64, more: usize) -> bool
    requires { SizedWords words.now × Few words.now × (all_points words.now ≤ 1024) × (freed ≤ 1024) × (more ≤ 128) }
    ensures { result ≡ leb (all_points words.now + more) (1024 + freed) }
{
    let used = rows::index(validity::points_used(words));
    used + more <= 1024 + rows::index(freed)
}

// Whether the map with the light keeps below the ceilings: lines, signals, rules, lamps, lists and points.
#[tactic(auto, using(crate::proofs::TestLaws::room_is))]
pub fn room(
    words: &[u64],
    drawn: bool,
    joins: bool,
    freed: Freed,
    more: usize,
    bulbs: u64,
    lists: bool,
) -> bool
    requires { SizedWords words.now × Few words.now × (all_points words.now ≤ 1024) × (freed.rules ≤ 128) × (freed.points ≤ 1024) × (more ≤ 128) }
    ensures { result ≡ room_for (count_of words.now 2) (count_of words.now 3) (count_of words.now 5) (all_points words.now) drawn joins freed.rules freed.points more bulbs lists }
{
    let counts = counts_fit(words, drawn, joins, freed.rules);
    let points = points_fit(words, freed.points, more);
    both(counts, both(bulbs <= 4, both(lists, points)))
}
