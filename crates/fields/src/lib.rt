// The fields of a map's records, read from a file's bytes into a row of words and a row of
// coordinates. A reader's place is lost at the first fault, and what follows reads nothing: so a
// record is a list of calls, and the fault shows at its end.
// Each field takes the bytes, its place, the rows that it writes and where in them, one by one: some write words, some coordinates, some both,
// each at an offset of its own, so a struct of them would be taken apart at every call. A list is a count and a loop of its items, an option a
// flag and its value; the laws that these keep differ with the item, so that one function for all would have to be handed that law too.
#![tactic(auto)]

ghost use Rattle.std.specs.Prelude.{◌≡◌, ◌+◌, ◌≤◌, ◌<◌, length};
ghost use Rattle.map.specs.MapFile.{coordinate, height, point};
ghost use Rattle.map.specs.Tables.{point_from};
ghost use Rattle.fields.specs.Fields.{Word, Numbers, Cells, cell_at, Line, OptionLine, OptionNumber, OptionHeight, BulbAt, Bulbs};

// A place in the bytes, or none after a fault.
pub type Place = Option<usize>;

// A number from `least` to `most` into word `o`; 0 after a fault.
#[tactic(auto, using(crate::proofs::Words::reading_word))]
pub fn read_word(s: &[u8], p: Place, words: &mut [u64], o: usize, least: u64, most: u64) -> Place
    requires { o < length words.old }
    ensures { Word least most s.now p words.old o result words.new }
{
    words[o] = 0;
    let (n, next) = codec::read_number(s, p?)?;
    if n < least || most < n {
        return None;
    }
    words[o] = n;
    Some(next)
}

// A list of at most 16 numbers: its count into word `o`, its entries after it.
#[tactic(auto, using(crate::proofs::Words::reading_numbers))]
pub fn read_numbers(s: &[u8], p: Place, words: &mut [u64], o: usize) -> Place
    requires { o + 17 ≤ length words.old }
    ensures { Numbers s.now p words.old o result words.new }
{
    let mut q = read_word(s, p, words, o, 0, 16);
    let n = words[o] as usize;
    for i in 0..n {
        q = read_word(s, q, words, o + 1 + i, 0, u64::MAX);
    }
    q
}

// A coordinate into `c`: finite, and at most 2^26 in size.
#[tactic(auto, using(crate::proofs::Points::reading_cell))]
pub fn read_coordinate(s: &[u8], p: Place, coords: &mut [f64], c: usize) -> Place
    requires { c < length coords.old }
    ensures { Cells coordinate 1 cell_at s.now p coords.old c result coords.new }
{
    let (x, next) = codec::read_double(s, p?)?;
    if -67108864.0 <= x && x <= 67108864.0 {
        coords[c] = x;
        return Some(next);
    }
    None
}

#[tactic(auto, using(crate::proofs::Points::reading_point))]
pub fn read_point(s: &[u8], p: Place, coords: &mut [f64], c: usize) -> Place
    requires { c + 3 ≤ length coords.old }
    ensures { Cells point 3 point_from s.now p coords.old c result coords.new }
{
    let x = read_coordinate(s, p, coords, c);
    let y = read_coordinate(s, x, coords, c + 1);
    read_coordinate(s, y, coords, c + 2)
}

// A polyline: its count into word `o`, its points into the coordinates from `c` on.
#[tactic(auto, using(crate::proofs::Points::reading_line))]
pub fn read_line(
    s: &[u8],
    p: Place,
    words: &mut [u64],
    o: usize,
    coords: &mut [f64],
    c: usize,
) -> Place
    requires { (o < length words.old) × (c + 192 ≤ length coords.old) }
    ensures { Line s.now p words.old o coords.old c result words.new coords.new }
{
    let mut q = read_word(s, p, words, o, 0, 64);
    let n = words[o] as usize;
    for i in 0..n {
        q = read_point(s, q, coords, c + i * 3);
    }
    q
}

// A height into `c`: any finite number.
#[tactic(auto, using(crate::proofs::Points::reading_height))]
pub fn read_height(s: &[u8], p: Place, coords: &mut [f64], c: usize) -> Place
    requires { c < length coords.old }
    ensures { Cells height 1 cell_at s.now p coords.old c result coords.new }
{
    let (x, next) = codec::read_double(s, p?)?;
    if x.is_finite() {
        coords[c] = x;
        return Some(next);
    }
    None
}

// A polyline or none: whether there is one into word `o`, its count after it.
#[tactic(auto, using(crate::proofs::Options::reading_option))]
pub fn read_option_line(
    s: &[u8],
    p: Place,
    words: &mut [u64],
    o: usize,
    coords: &mut [f64],
    c: usize,
) -> Place
    requires { (o + 2 ≤ length words.old) × (c + 192 ≤ length coords.old) }
    ensures { OptionLine s.now p words.old o coords.old c result words.new coords.new }
{
    let q = read_word(s, p, words, o, 0, 1);
    if words[o] == 0 {
        return q;
    }
    read_line(s, q, words, o + 1, coords, c)
}

// A number or none: whether there is one into word `o`, the number after it.
#[tactic(auto, using(crate::proofs::Options::reading_option))]
pub fn read_option_number(s: &[u8], p: Place, words: &mut [u64], o: usize) -> Place
    requires { o + 2 ≤ length words.old }
    ensures { OptionNumber s.now p words.old o result words.new }
{
    let q = read_word(s, p, words, o, 0, 1);
    if words[o] == 0 {
        return q;
    }
    read_word(s, q, words, o + 1, 0, u64::MAX)
}

// A height or none: whether there is one into word `o`, the height into `c`.
#[tactic(auto, using(crate::proofs::Options::reading_option))]
pub fn read_option_height(
    s: &[u8],
    p: Place,
    words: &mut [u64],
    o: usize,
    coords: &mut [f64],
    c: usize,
) -> Place
    requires { (o < length words.old) × (c < length coords.old) }
    ensures { OptionHeight s.now p words.old o coords.old c result words.new coords.new }
{
    let q = read_word(s, p, words, o, 0, 1);
    if words[o] == 0 {
        return q;
    }
    read_height(s, q, coords, c)
}

// A bulb: its position into the coordinates, its colour and arrow into words `o` and `o + 1`.
#[tactic(auto, using(crate::proofs::BulbLaws::reading_bulb))]
pub fn read_bulb(
    s: &[u8],
    p: Place,
    words: &mut [u64],
    o: usize,
    coords: &mut [f64],
    c: usize,
) -> Place
    requires { (o + 2 ≤ length words.old) × (c + 3 ≤ length coords.old) }
    ensures { BulbAt s.now p words.old o coords.old c result words.new coords.new }
{
    let position = read_point(s, p, coords, c);
    let color = read_word(s, position, words, o, 0, 3);
    read_word(s, color, words, o + 1, 0, 8)
}

// A signal's bulbs into its row.
#[tactic(auto, using(crate::proofs::BulbLaws::reading_bulbs))]
pub fn read_bulbs(s: &[u8], p: Place, words: &mut [u64], coords: &mut [f64]) -> Place
    requires { (13 ≤ length words.old) × (205 ≤ length coords.old) }
    ensures { Bulbs s.now p words.old coords.old result words.new coords.new }
{
    let mut q = read_word(s, p, words, 4, 0, 4);
    let n = words[4] as usize;
    for i in 0..n {
        q = read_bulb(s, q, words, 5 + i * 2, coords, 193 + i * 3);
    }
    q
}
