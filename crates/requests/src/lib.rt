// Requests of stored samples and examples as rows of a list of calls: a row of 28 words, and two pools for its lists. A case stands by
// its number, as in the oracle's samples, or by its word, as in the examples of requests. The lists of a row stand in the pool of numbers
// from 0, 32 and 64 on; in the pool of reals an offset or station stands at 0, a height at 1, given points from 2, a housing from 212, the
// lamps from 422. There is room for 32 numbers a list, 70 points a line and twelve lamps: a request with more makes no call. What a row
// asks for is shown by the replays; proved is that every text is read safely.
#![tactic(auto)]

ghost use Rattle.std.specs.Prelude.{◌+◌, ◌<◌, ◌≤◌};

use sample_text::{Word, double_at, number_at, word_at};

pub const ROW: usize = 28;

pub const LISTS: usize = 96;

pub const REALS: usize = 458;

// What the row has for a word that names no case: no field has so many.
const NO_CASE: u64 = 255;

// The fields that are cases: the words of each, in the order of their numbers.
const PLACEMENTS: [&[u8]; 3] = [b"end", b"station", b"points"];

const RULES: [&[u8]; 3] = [b"sign", b"marking", b"none"];

const CHOICES: [&[u8]; 4] = [b"auto", b"existing", b"new", b"none"];

const GIVEN: [&[u8]; 2] = [b"-", b"+"];

// Names of eight letters or more are told apart by their last eight.
fn last_letters(name: &[u8]) -> &[u8] {
    let from = name.len().saturating_sub(8);
    name.get(from..).unwrap_or(name)
}

// What a word may say.
trait Said: Drop {
    fn said(text: &[u8], at: usize) -> Word<Self>;
}

impl Said for u64 {
    fn said(text: &[u8], at: usize) -> Word<u64> {
        number_at(text, at)
    }
}

impl Said for f64 {
    fn said(text: &[u8], at: usize) -> Word<f64> {
        double_at(text, at)
    }
}

// The words of a text, from a place on.
#[derive(Drop)]
struct Words<'a> {
    text: &'a [u8],
    at: usize,
}

impl<'a> Words<'a> {
    fn word(&mut self) -> &'a [u8] {
        let word = word_at(self.text, self.at);
        self.at = word.next;
        word.value
    }

    fn value<T: Said>(&mut self) -> T {
        let Word { value, next } = T::said(self.text, self.at);
        self.at = next;
        value
    }

    // A case by its number or by its word.
    fn case(&mut self, names: &[&[u8]]) -> Option<u64> {
        let first = self.text.get(self.at);
        if first.is_some_and(|b| b.is_ascii_digit()) {
            return Some(self.value());
        }
        let word = last_letters(self.word());
        let case = names.iter().position(|name| *name == word)?;
        Some(case as u64)
    }

    // Values into a pool, from an index on.
    fn values_into<T: Said>(&mut self, pool: &mut [T], from: usize, n: usize)
        requires { from + n ≤ 458 }
    {
        for i in from..from + n {
            put(pool, i, self.value());
        }
    }
}

fn put<T: Drop>(t: &mut [T], i: usize, value: T) {
    if let Some(slot) = t.get_mut(i) {
        *slot = value;
    }
}

// A request that is read, with its row and its pools.
#[derive(Drop)]
struct Draft<'a> {
    words: Words<'a>,
    row: &'a mut [u64],
    lists: &'a mut [u64],
    reals: &'a mut [f64],
}

impl Draft<'_> {
    // A number into word k of the row.
    fn number(&mut self, k: usize) {
        put(self.row, k, self.words.value());
    }

    // A real into the pool.
    fn real(&mut self, i: usize) {
        put(self.reals, i, self.words.value());
    }

    // A case into word k of the row.
    fn case(&mut self, k: usize, names: &[&[u8]]) -> u64 {
        let case = self.words.case(names).unwrap_or(NO_CASE);
        put(self.row, k, case);
        case
    }

    // Whether what may be missing is given.
    fn given(&mut self, k: usize) -> bool {
        self.case(k, &GIVEN) != 0
    }

    // A request with more than there is room for makes no call.
    fn no_call(&mut self) {
        put(self.row, 0, 0);
    }

    // Place and count of a list, into words k and k + 1 of the row.
    fn part(&mut self, k: usize, place: usize, count: usize)
        requires { k < 28 }
    {
        put(self.row, k, place as u64);
        put(self.row, k + 1, count as u64);
    }

    fn list(&mut self, k: usize, from: usize)
        requires { (k < 28) × (from ≤ 64) }
    {
        let n: u64 = self.words.value();
        if n > 32 {
            return self.no_call();
        }
        let n = n as usize;
        self.part(k, from, n);
        self.words.values_into(self.lists, from, n);
    }

    // A list of points, its count in coordinates.
    fn points(&mut self, k: usize, from: usize)
        requires { (k < 28) × (from ≤ 212) }
    {
        let n: u64 = self.words.value();
        if n > 70 {
            return self.no_call();
        }
        let n = n as usize * 3;
        self.part(k, from, n);
        self.words.values_into(self.reals, from, n);
    }

    // A placement: its kind into word `kind` of the row, its measure into the pool, the place of given points into word `points`.
    fn placement(&mut self, kind: usize, points: usize)
        requires { points < 28 }
    {
        match self.case(kind, &PLACEMENTS) {
            2 => self.points(points, 2),
            _ => self.real(0),
        }
    }

    fn line(&mut self) {
        put(self.row, 0, 1);
        self.list(1, 0);
        self.placement(3, 6);
        self.case(4, &RULES);
    }

    // A light's line: the existing one's number, or a new one's placement.
    fn choice(&mut self) {
        match self.case(3, &CHOICES) {
            1 => self.number(4),
            2 => self.placement(5, 22),
            _ => {}
        }
    }

    fn housing(&mut self) {
        if self.given(6) {
            self.points(24, 212);
        }
    }

    fn height(&mut self) {
        if self.given(7) {
            self.real(1);
            put(self.row, 21, 1);
        }
    }

    // Lamp i: its point into the pool; colour and arrow of the first four into the row, which has none of the others.
    fn lamp(&mut self, i: usize)
        requires { i < 12 }
    {
        self.words.values_into(self.reals, 422 + i * 3, 3);
        let colour = self.words.value();
        let arrow = self.words.value();
        if i < 4 {
            put(self.row, 10 + i * 2, colour);
            put(self.row, 11 + i * 2, arrow);
        }
    }

    // The lamps, their count in coordinates.
    fn lamps(&mut self) {
        if !self.given(9) {
            return;
        }
        let n: u64 = self.words.value();
        if n > 12 {
            return self.no_call();
        }
        let n = n as usize;
        self.part(26, 422, n * 3);
        for i in 0..n {
            self.lamp(i);
        }
    }

    fn group(&mut self) {
        if self.given(18) {
            self.number(19);
        }
    }

    // A light: its line, then the signal's housing, height, kind and lamps, then its group.
    fn light(&mut self) {
        put(self.row, 0, 2);
        self.list(1, 0);
        self.choice();
        self.housing();
        self.height();
        self.number(8);
        self.lamps();
        self.group();
    }

    fn links(&mut self) {
        put(self.row, 0, 3);
        self.number(3);
        self.list(1, 0);
        self.list(4, 32);
        self.list(6, 64);
    }
}

// The request that stands from `at` on, into a row and pools of zeros.
pub fn request_into(text: &[u8], at: usize, row: &mut [u64], lists: &mut [u64], reals: &mut [f64]) {
    let mut words = Words { text, at };
    let name = words.word();
    let mut draft = Draft {
        words,
        row,
        lists,
        reals,
    };
    match name {
        b"line" => draft.line(),
        b"light" => draft.light(),
        b"links" => draft.links(),
        _ => {}
    }
}
