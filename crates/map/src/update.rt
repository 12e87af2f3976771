// Row edits. They cannot refuse: who calls them has asked for room and number before.
ghost use Rattle.std.specs.Prelude.{◌≡◌, ◌+◌, ◌-◌, ◌/◌, ◌^◌, ◌≤◌, ◌<◌, max, length, get_or};
ghost use Rattle.store.specs.Layout.{SizedWords, Sized, count_of, next_of, row_of};
ghost use Rattle.map.specs.Updates.{LinePushed, SignalPushed, RulePushed, rule_words, body_of_new, new_body, RulePut, with_list, with_rule_line, RuleDropped};

use crate::NewRule;
use store::Kind;

// The number that the next record gets.
pub fn fresh(words: &[u64]) -> u64
    requires { SizedWords words.now }
    ensures { result ≡ max 1 (next_of words.now) }
{
    let n = store::next(words);
    if n == 0 { 1 } else { n }
}

// A new stop line with its points: x, y, z in turn.
pub fn push_line(words: &mut [u64], coords: &mut [f64], points: &[f64])
    requires { Sized words.old coords.old × (count_of words.old 2 < 64) × (next_of words.old < 2 ^ 64 - 1) × (length points.now ≤ 192) }
    ensures { LinePushed words.old coords.old points.now words.new coords.new }
{
    let number = fresh(words);
    let n = store::count(words, Kind::StopLine);
    let row = [number, (points.len() / 3) as u64];
    store::put_coords(coords, Kind::StopLine, n, 0, points);
    store::push_row(words, Kind::StopLine, &row);
    store::set_next(words, number + 1);
}

// A new signal: its row of words, whose number is the fresh one and whose count of points is that of
// its housing, then the housing's points, then the height and the bulbs' positions.
pub fn push_signal(words: &mut [u64], coords: &mut [f64], row: &[u64], points: &[f64], more: &[f64])
    requires { Sized words.old coords.old × (count_of words.old 3 < 64) × (next_of words.old < 2 ^ 64 - 1) × (length row.now ≡ 13) × (get_or row.now 0 0 ≡ max 1 (next_of words.old)) × (get_or row.now 2 0 ≡ length points.now / 3) × (get_or row.now 4 0 ≤ 4) × (length points.now ≤ 192) × (length more.now ≡ 13) }
    ensures { SignalPushed words.old coords.old row.now points.now more.now words.new coords.new }
{
    let n = store::count(words, Kind::Signal);
    let number = row[0];
    store::put_coords(coords, Kind::Signal, n, 0, points);
    store::put_coords(coords, Kind::Signal, n, 192, more);
    store::push_row(words, Kind::Signal, row);
    store::set_next(words, number + 1);
}

// The words of a rule's row that tell its kind: the kind's number, a sign's type, whether there is a
// line, and the line.
fn rule_words(rule: NewRule) -> [u64; 4]
    ensures { result ≡ rule_words rule }
{
    match rule {
        NewRule::Light { line: None } => [1, 0, 0, 0],
        NewRule::Light { line: Some(line) } => [1, 0, 1, line],
        NewRule::Sign { value, line: None } => [2, value, 0, 0],
        NewRule::Sign {
            value,
            line: Some(line),
        } => [2, value, 1, line],
        NewRule::Marking { line } => [3, 0, 1, line],
    }
}

// A new rule of these lanes and signals, told by the words of its row: its kind's number (1 a light, 2 a sign, 3 a marking), a sign's
// type, whether there is a line, and the line.
pub fn push_rule(
    words: &mut [u64],
    kind: u64,
    value: u64,
    flag: u64,
    line: u64,
    lanes: &[u64],
    signals: &[u64],
)
    requires { SizedWords words.old × (count_of words.old 5 < 128) × (next_of words.old < 2 ^ 64 - 1) × (kind ≤ 3) × (0 < kind) × (length lanes.now ≤ 16) × (length signals.now ≤ 16) }
    ensures { RulePushed words.old (new_body kind value flag line signals.now) lanes.now words.new }
{
    let number = fresh(words);
    let mut row = [0u64; 92];
    row[0] = number;
    row[1] = kind;
    row[2] = value;
    row[3] = flag;
    row[4] = line;
    row[7] = lanes.len() as u64;
    row[41] = signals.len() as u64;
    rows::put(&mut row, 8, lanes);
    rows::put(&mut row, 42, signals);
    store::push_row(words, Kind::Rule, &row);
    store::set_next(words, number + 1);
}

// The same of a rule by its enum.
pub fn push_new_rule(words: &mut [u64], rule: NewRule, lanes: &[u64], signals: &[u64])
    requires { SizedWords words.old × (count_of words.old 5 < 128) × (next_of words.old < 2 ^ 64 - 1) × (length lanes.now ≤ 16) × (length signals.now ≤ 16) }
    ensures { RulePushed words.old (body_of_new rule signals.now) lanes.now words.new }
{
    let told = rule_words(rule);
    push_rule(words, told[0], told[1], told[2], told[3], lanes, signals);
}

// The list at word o of rule i written over.
pub fn put_list(words: &mut [u64], i: usize, o: usize, list: &[u64])
    requires { SizedWords words.old × (i < count_of words.old 5) × (o + 1 + length list.now ≤ 92) }
    ensures { RulePut words.old i (with_list (row_of words.old 5 i) o list.now) words.new }
{
    let count = [list.len() as u64];
    store::put_part(words, Kind::Rule, i, o, &count);
    store::put_part(words, Kind::Rule, i, o + 1, list);
}

// Rule i's line written over: none where flag is 0.
pub fn put_line(words: &mut [u64], i: usize, flag: u64, line: u64)
    requires { SizedWords words.old × (i < count_of words.old 5) }
    ensures { RulePut words.old i (with_rule_line (row_of words.old 5 i) flag line) words.new }
{
    let part = [flag, line];
    store::put_part(words, Kind::Rule, i, 3, &part);
}

// Rule j taken out, with its coordinates.
pub fn drop_rule(words: &mut [u64], coords: &mut [f64], j: usize)
    requires { Sized words.old coords.old × (j < count_of words.old 5) }
    ensures { RuleDropped words.old coords.old j words.new coords.new }
{
    let n = store::count(words, Kind::Rule);
    store::drop_coords(coords, Kind::Rule, n, j);
    store::drop_row(words, Kind::Rule, j);
}
