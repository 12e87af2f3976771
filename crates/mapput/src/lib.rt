// The map's records, tables and file, written from the tables. Words and coordinates are two slices, as C lends them, and the buffer goes with
// the place in it, since that place is what is promised. Each record's fields are calls in a row: the laws differ with the record's form, and
// a function for all would have to be handed them.
#![tactic(auto)]

ghost use Rattle.std.specs.Prelude.{◌≡◌, ◌+◌, ◌≤◌, ◌<◌, length};
ghost use Rattle.codec.specs.Format.{◌⊗◌};
ghost use Rattle.codec.specs.Number.{number};
ghost use Rattle.codec.specs.Items.{from, list, option};
ghost use Rattle.map.specs.MapFile.{polyline, boundary_ref, numbers, lane, line_string, signal, crosswalk, body, rule, map_file};
ghost use Rattle.map.specs.Tables.{lane_in, line_string_in, signal_in, crosswalk_in, body_of, rule_in, map_of};
ghost use Rattle.store.specs.Kinds.{kind_number};
ghost use Rattle.store.specs.Layout.{limit_of, width_of, all_words, all_coords, row_of, coords_of, records_of, Sized};
ghost use Rattle.records.specs.Records.{side_at, light_in, sign_in, right_of_way_in, crossing_in, record_form, record_in};
ghost use Rattle.putting.specs.Putting.{PutAt};
ghost use Rattle.mapput.specs.MapPut.{kind_in, fields_form, marks_form};

use fields::Place;
use store::Kind;

// A lane's side: a boundary's number in word `o`, whether it is reversed after it.
fn put_side(out: &mut [u8], p: Place, words: &[u64], o: usize) -> Place
    requires { o + 2 ≤ length words.now }
    ensures { PutAt (boundary_ref.write (side_at words.now o)) out.old p result out.new }
{
    let q = putting::put_number(out, p, words[o]);
    putfields::put_flag(out, q, words[o + 1])
}

fn put_lane(out: &mut [u8], p: Place, words: &[u64], coords: &[f64]) -> Place
    requires { 8 ≤ length words.now }
    ensures { PutAt (lane.write (lane_in words.now coords.now)) out.old p result out.new }
{
    let kind = putting::put_number(out, p, words[0]);
    let left = putting::put_number(out, kind, words[1]);
    let right = put_side(out, left, words, 2);
    let centerline = put_side(out, right, words, 4);
    putfields::put_option_line(out, centerline, words[6], words[7], coords, 0)
}

// A boundary, or a stop line.
fn put_line_string(out: &mut [u8], p: Place, words: &[u64], coords: &[f64]) -> Place
    requires { 2 ≤ length words.now }
    ensures { PutAt (line_string.write (line_string_in words.now coords.now)) out.old p result out.new }
{
    let geometry = putting::put_number(out, p, words[0]);
    putfields::put_line(out, geometry, words[1], coords, 0)
}

fn put_signal(out: &mut [u8], p: Place, words: &[u64], coords: &[f64]) -> Place
    requires { 13 ≤ length words.now }
    ensures { PutAt (signal.write (signal_in words.now coords.now)) out.old p result out.new }
{
    let kind = putting::put_number(out, p, words[0]);
    let geometry = putting::put_number(out, kind, words[1]);
    let height = putfields::put_line(out, geometry, words[2], coords, 0);
    let bulbs = putfields::put_option_height(out, height, words[3], coords, 192);
    putfields::put_bulbs(out, bulbs, words[4], words, coords)
}

fn put_crosswalk(out: &mut [u8], p: Place, words: &[u64], coords: &[f64]) -> Place
    requires { 5 ≤ length words.now }
    ensures { PutAt (crosswalk.write (crosswalk_in words.now coords.now)) out.old p result out.new }
{
    let left = putting::put_number(out, p, words[0]);
    let right = putfields::put_line(out, left, words[1], coords, 0);
    let outline = putfields::put_line(out, right, words[2], coords, 192);
    putfields::put_option_line(out, outline, words[3], words[4], coords, 384)
}

// A light's signals and line.
fn put_light(out: &mut [u8], p: Place, words: &[u64]) -> Place
    requires { 92 ≤ length words.now }
    ensures { PutAt ((numbers ⊗ option number).write (light_in words.now)) out.old p result out.new }
{
    let line = putfields::put_numbers(out, p, words[41], words, 42);
    putfields::put_option_number(out, line, words[3], words[4])
}

// A sign's type, where it stands, and its line.
fn put_sign(out: &mut [u8], p: Place, words: &[u64], coords: &[f64]) -> Place
    requires { 92 ≤ length words.now }
    ensures { PutAt ((from 1 ⊗ option polyline ⊗ option number).write (sign_in words.now coords.now)) out.old p result out.new }
{
    let shape = putting::put_number(out, p, words[2]);
    let line = putfields::put_option_line(out, shape, words[5], words[6], coords, 0);
    putfields::put_option_number(out, line, words[3], words[4])
}

// Lanes with priority, lanes that yield, lines.
fn put_right_of_way(out: &mut [u8], p: Place, words: &[u64]) -> Place
    requires { 92 ≤ length words.now }
    ensures { PutAt ((numbers ⊗ numbers ⊗ numbers).write (right_of_way_in words.now)) out.old p result out.new }
{
    let yielding = putfields::put_numbers(out, p, words[41], words, 42);
    let lines = putfields::put_numbers(out, yielding, words[58], words, 59);
    putfields::put_numbers(out, lines, words[75], words, 76)
}

// A crosswalk and its lines.
fn put_crossing(out: &mut [u8], p: Place, words: &[u64]) -> Place
    requires { 92 ≤ length words.now }
    ensures { PutAt ((number ⊗ numbers).write (crossing_in words.now)) out.old p result out.new }
{
    let lines = putting::put_number(out, p, words[2]);
    putfields::put_numbers(out, lines, words[75], words, 76)
}

// The fields of a rule, by its kind: a word of its row, as any number may stand there. A kind that is none is another rule's, with the value 0.
fn put_fields(out: &mut [u8], p: Place, kind: u64, words: &[u64], coords: &[f64]) -> Place
    requires { 92 ≤ length words.now }
    ensures { PutAt (fields_form (body_of kind words.now coords.now)) out.old p result out.new }
{
    match kind {
        1 => put_light(out, p, words),
        2 => put_sign(out, p, words, coords),
        3 => putting::put_number(out, p, words[4]),
        4 => put_right_of_way(out, p, words),
        5 => put_crossing(out, p, words),
        6 => putting::put_number(out, p, words[2]),
        _ => putting::put_number(out, p, 0),
    }
}

// A rule's kind as its file has it.
#[tactic(auto, using(crate::proofs::RecordLaws::telling_kind))]
fn kind_of(kind: u64) -> u64
    ensures { result ≡ kind_in kind }
{
    if matches!(kind, 1..=5) { kind } else { 6 }
}

fn put_rule(out: &mut [u8], p: Place, words: &[u64], coords: &[f64]) -> Place
    requires { 92 ≤ length words.now }
    ensures { PutAt (rule.write (rule_in words.now coords.now)) out.old p result out.new }
{
    let kind = putting::put_number(out, p, words[0]);
    let fields = putting::put_number(out, kind, kind_of(words[1]));
    let lanes = put_fields(out, fields, words[1], words, coords);
    let controlled = putfields::put_numbers(out, lanes, words[7], words, 8);
    putfields::put_numbers(out, controlled, words[24], words, 25)
}

// A record of kind k from its row.
#[tactic(auto, unfolding(store::specs::Layout::width_of))]
fn put_record(out: &mut [u8], p: Place, k: Kind, words: &[u64], coords: &[f64]) -> Place
    requires { (width_of (kind_number k) ≤ length words.now) }
    ensures { PutAt ((record_form (kind_number k)).write (record_in (kind_number k) words.now coords.now)) out.old p result out.new }
{
    match k {
        Kind::Lane => put_lane(out, p, words, coords),
        Kind::Boundary | Kind::StopLine => put_line_string(out, p, words, coords),
        Kind::Signal => put_signal(out, p, words, coords),
        Kind::Crosswalk => put_crosswalk(out, p, words, coords),
        Kind::Rule => put_rule(out, p, words, coords),
    }
}

// Row i of its table.
fn put_row(out: &mut [u8], p: Place, k: Kind, i: usize, words: &[u64], coords: &[f64]) -> Place
    requires { (i < limit_of (kind_number k)) × (length words.now ≡ all_words) × (length coords.now ≡ all_coords) }
    ensures { PutAt ((record_form (kind_number k)).write (record_in (kind_number k) (row_of words.now (kind_number k) i) (coords_of coords.now (kind_number k) i))) out.old p result out.new }
{
    let a = k.place(i);
    let e = a + k.width();
    let c = k.coord_place(i);
    let f = c + k.coord_width();
    put_record(out, p, k, &words[a..e], &coords[c..f])
}

// A table: its count and its records.
fn put_table(out: &mut [u8], p: Place, k: Kind, words: &[u64], coords: &[f64]) -> Place
    requires { Sized words.now coords.now }
    ensures { PutAt ((list (limit_of (kind_number k)) (record_form (kind_number k))).write (records_of (record_in (kind_number k)) words.now coords.now (kind_number k))) out.old p result out.new }
{
    let n = store::count(words, k);
    let mut q = putting::put_number(out, p, n as u64);
    for i in 0..n {
        q = put_row(out, q, k, i, words, coords);
    }
    q
}

// Signals, crosswalks and rules.
fn put_marks(out: &mut [u8], p: Place, words: &[u64], coords: &[f64]) -> Place
    requires { Sized words.now coords.now }
    ensures { PutAt (marks_form words.now coords.now) out.old p result out.new }
{
    let crosswalks = put_table(out, p, Kind::Signal, words, coords);
    let rules = put_table(out, crosswalks, Kind::Crosswalk, words, coords);
    put_table(out, rules, Kind::Rule, words, coords)
}

// The map file of the tables: the next number and the six tables.
pub fn put_map(out: &mut [u8], p: Place, words: &[u64], coords: &[f64]) -> Place
    requires { Sized words.now coords.now }
    ensures { PutAt (map_file.write (map_of words.now coords.now)) out.old p result out.new }
{
    let lanes = putting::put_number(out, p, words[0]);
    let boundaries = put_table(out, lanes, Kind::Lane, words, coords);
    let lines = put_table(out, boundaries, Kind::Boundary, words, coords);
    let marks = put_table(out, lines, Kind::StopLine, words, coords);
    put_marks(out, marks, words, coords)
}
