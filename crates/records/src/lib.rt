// The map's records, read from a file's bytes into a row of words and a row of coordinates. Bytes, place and row are handed on one by
// one: of a row some fields take the words alone, some the coordinates alone, and a struct of both would be taken apart at each call. How long
// a row is at least is asked of slices, since a row is a part of a lent table, or room that is longer: an array would take less.
#![tactic(auto)]

ghost use Rattle.std.specs.Prelude.{◌≡◌, ◌+◌, ◌≤◌, ◌<◌, length};
ghost use Rattle.codec.specs.Format.{◌⊗◌};
ghost use Rattle.codec.specs.Number.{number};
ghost use Rattle.codec.specs.Items.{option};
ghost use Rattle.map.specs.MapFile.{numbers, lane, line_string, signal, crosswalk, rule};
ghost use Rattle.map.specs.Tables.{lane_in, line_string_in, signal_in, crosswalk_in, rule_in};
ghost use Rattle.records.specs.Records.{RowRead, BodyRead, SideRead, PartRead, SignRead, light_in, right_of_way_in, crossing_in};

use fields::Place;

// A lane's side: a boundary's number into word `o`, whether it is reversed after it.
#[tactic(auto, using(crate::proofs::RecordLaws::reading_side))]
fn read_side(s: &[u8], p: Place, words: &mut [u64], o: usize) -> Place
    requires { o + 2 ≤ length words.old }
    ensures { SideRead s.now p words.old o result words.new }
{
    let q = fields::read_word(s, p, words, o, 0, u64::MAX);
    fields::read_word(s, q, words, o + 1, 0, 1)
}

#[tactic(auto, using(crate::proofs::RecordLaws::reading_lane))]
pub fn read_lane(s: &[u8], p: Place, words: &mut [u64], coords: &mut [f64]) -> Place
    requires { (8 ≤ length words.old) × (192 ≤ length coords.old) }
    ensures { RowRead lane lane_in s.now p words.old coords.old result words.new coords.new }
{
    let kind = fields::read_word(s, p, words, 0, 0, u64::MAX);
    let left = fields::read_word(s, kind, words, 1, 0, 7);
    let right = read_side(s, left, words, 2);
    let centerline = read_side(s, right, words, 4);
    fields::read_option_line(s, centerline, words, 6, coords, 0)
}

// A boundary, or a stop line.
#[tactic(auto, using(crate::proofs::RecordLaws::reading_line_string))]
pub fn read_line_string(s: &[u8], p: Place, words: &mut [u64], coords: &mut [f64]) -> Place
    requires { (2 ≤ length words.old) × (192 ≤ length coords.old) }
    ensures { RowRead line_string line_string_in s.now p words.old coords.old result words.new coords.new }
{
    let geometry = fields::read_word(s, p, words, 0, 0, u64::MAX);
    fields::read_line(s, geometry, words, 1, coords, 0)
}

#[tactic(auto, using(crate::proofs::RecordLaws::reading_signal))]
pub fn read_signal(s: &[u8], p: Place, words: &mut [u64], coords: &mut [f64]) -> Place
    requires { (13 ≤ length words.old) × (205 ≤ length coords.old) }
    ensures { RowRead signal signal_in s.now p words.old coords.old result words.new coords.new }
{
    let kind = fields::read_word(s, p, words, 0, 0, u64::MAX);
    let geometry = fields::read_word(s, kind, words, 1, 0, 1);
    let height = fields::read_line(s, geometry, words, 2, coords, 0);
    let bulbs = fields::read_option_height(s, height, words, 3, coords, 192);
    fields::read_bulbs(s, bulbs, words, coords)
}

#[tactic(auto, using(crate::proofs::RecordLaws::reading_crosswalk))]
pub fn read_crosswalk(s: &[u8], p: Place, words: &mut [u64], coords: &mut [f64]) -> Place
    requires { (5 ≤ length words.old) × (576 ≤ length coords.old) }
    ensures { RowRead crosswalk crosswalk_in s.now p words.old coords.old result words.new coords.new }
{
    let left = fields::read_word(s, p, words, 0, 0, u64::MAX);
    let right = fields::read_line(s, left, words, 1, coords, 0);
    let outline = fields::read_line(s, right, words, 2, coords, 192);
    fields::read_option_line(s, outline, words, 3, coords, 384)
}

// A light's signals and line.
#[tactic(auto, using(crate::proofs::RuleLaws::reading_parts))]
fn read_light(s: &[u8], p: Place, words: &mut [u64]) -> Place
    requires { 92 ≤ length words.old }
    ensures { PartRead (numbers ⊗ option number) light_in s.now p words.old result words.new }
{
    let line = fields::read_numbers(s, p, words, 41);
    fields::read_option_number(s, line, words, 3)
}

// A sign's type, where it stands, and its line.
#[tactic(auto, using(crate::proofs::RuleLaws::reading_parts))]
fn read_sign(s: &[u8], p: Place, words: &mut [u64], coords: &mut [f64]) -> Place
    requires { (92 ≤ length words.old) × (192 ≤ length coords.old) }
    ensures { SignRead s.now p words.old coords.old result words.new coords.new }
{
    let shape = fields::read_word(s, p, words, 2, 1, u64::MAX);
    let line = fields::read_option_line(s, shape, words, 5, coords, 0);
    fields::read_option_number(s, line, words, 3)
}

// Lanes with priority, lanes that yield, lines.
#[tactic(auto, using(crate::proofs::RuleLaws::reading_parts))]
fn read_right_of_way(s: &[u8], p: Place, words: &mut [u64]) -> Place
    requires { 92 ≤ length words.old }
    ensures { PartRead (numbers ⊗ numbers ⊗ numbers) right_of_way_in s.now p words.old result words.new }
{
    let yielding = fields::read_numbers(s, p, words, 41);
    let lines = fields::read_numbers(s, yielding, words, 58);
    fields::read_numbers(s, lines, words, 75)
}

// A crosswalk and its lines.
#[tactic(auto, using(crate::proofs::RuleLaws::reading_parts))]
fn read_crossing(s: &[u8], p: Place, words: &mut [u64]) -> Place
    requires { 92 ≤ length words.old }
    ensures { PartRead (number ⊗ numbers) crossing_in s.now p words.old result words.new }
{
    let lines = fields::read_word(s, p, words, 2, 0, u64::MAX);
    fields::read_numbers(s, lines, words, 75)
}

// A rule's kind, and the fields of that kind.
#[tactic(auto, using(crate::proofs::RuleLaws::reading_body))]
fn read_body(s: &[u8], p: Place, words: &mut [u64], coords: &mut [f64]) -> Place
    requires { (92 ≤ length words.old) × (192 ≤ length coords.old) }
    ensures { BodyRead s.now p words.old coords.old result words.new coords.new }
{
    let q = fields::read_word(s, p, words, 1, 0, u64::MAX);
    // the file's numbers for the kinds, met here alone on the way in: an enum between would be made once and matched once
    match words[1] {
        1 => read_light(s, q, words),
        2 => read_sign(s, q, words, coords),
        3 => fields::read_word(s, q, words, 4, 0, u64::MAX),
        4 => read_right_of_way(s, q, words),
        5 => read_crossing(s, q, words),
        6 => fields::read_word(s, q, words, 2, 1, u64::MAX),
        _ => None,
    }
}

#[tactic(auto, using(crate::proofs::RuleLaws::reading_rule))]
pub fn read_rule(s: &[u8], p: Place, words: &mut [u64], coords: &mut [f64]) -> Place
    requires { (92 ≤ length words.old) × (192 ≤ length coords.old) }
    ensures { RowRead rule rule_in s.now p words.old coords.old result words.new coords.new }
{
    let body = fields::read_word(s, p, words, 0, 0, u64::MAX);
    let lanes = read_body(s, body, words, coords);
    let controlled = fields::read_numbers(s, lanes, words, 7);
    fields::read_numbers(s, controlled, words, 24)
}
