// Six tables of rows over two slices, as C lends them. Each edit is the same code for every kind.
#![tactic(auto)]

pub mod layout;

ghost use Rattle.std.specs.Prelude.{◌≡◌, ◌+◌, ◌≤◌, ◌<◌, length};
ghost use Rattle.rows.specs.Rows.{numbers_at, index_of};
ghost use Rattle.store.specs.Kinds.{kind_number};
ghost use Rattle.store.specs.Layout.{limit_of, width_of, base_of, coord_width_of, all_coords, next_of, count_of, SizedWords, set_next, push_row, put_part, put_coords, drop_row, drop_coords};

// The kinds of records, in the order of their tables.
#[derive(Clone, Copy, PartialEq)]
pub enum Kind {
    Lane,
    Boundary,
    StopLine,
    Signal,
    Crosswalk,
    Rule,
}

impl Kind {
    pub const ALL: [Kind; 6] = [
        Kind::Lane,
        Kind::Boundary,
        Kind::StopLine,
        Kind::Signal,
        Kind::Crosswalk,
        Kind::Rule,
    ];
}

// The next number.
pub fn next(words: &[u64]) -> u64
    requires { SizedWords words.now }
    ensures { result ≡ next_of words.now }
{
    words[0]
}

pub fn set_next(words: &mut [u64], v: u64)
    requires { SizedWords words.old }
    ensures { words.new ≡ set_next words.old v }
{
    words[0] = v;
}

// How many rows kind k has.
pub fn count(words: &[u64], k: Kind) -> usize
    requires { SizedWords words.now }
    ensures { result ≡ count_of words.now (kind_number k) }
{
    rows::index(words[k.count_at()])
}

// The index of the row of kind k with number x, or the count.
pub fn find(words: &[u64], k: Kind, x: u64) -> usize
    requires { SizedWords words.now }
    ensures { result ≡ index_of x (numbers_at words.now (width_of (kind_number k)) (count_of words.now (kind_number k)) (base_of (kind_number k))) }
{
    let n = count(words, k);
    rows::find(words, k.base(), k.width(), n, x)
}

// A row more.
pub fn push_row(words: &mut [u64], k: Kind, row: &[u64])
    requires { SizedWords words.old × (count_of words.old (kind_number k) < limit_of (kind_number k)) × (length row.now ≡ width_of (kind_number k)) }
    ensures { words.new ≡ push_row words.old (kind_number k) row.now }
{
    let n = count(words, k);
    rows::put(words, k.place(n), row);
    words[k.count_at()] = (n + 1) as u64;
}

// A part of row i written over, from its word o on.
pub fn put_part(words: &mut [u64], k: Kind, i: usize, o: usize, part: &[u64])
    requires { SizedWords words.old × (i < count_of words.old (kind_number k)) × (o + length part.now ≤ width_of (kind_number k)) }
    ensures { words.new ≡ put_part words.old (kind_number k) i o part.now }
{
    rows::put(words, k.place(i) + o, part);
}

// A part of row i's coordinates written over, from o on.
pub fn put_coords(coords: &mut [f64], k: Kind, i: usize, o: usize, part: &[f64])
    requires { (length coords.old ≡ all_coords) × (i < limit_of (kind_number k)) × (o + length part.now ≤ coord_width_of (kind_number k)) }
    ensures { coords.new ≡ put_coords coords.old (kind_number k) i o part.now }
{
    rows::put(coords, k.coord_place(i) + o, part);
}

// Row j taken out.
pub fn drop_row(words: &mut [u64], k: Kind, j: usize)
    requires { SizedWords words.old × (j < count_of words.old (kind_number k)) }
    ensures { words.new ≡ drop_row words.old (kind_number k) j }
{
    let n = count(words, k);
    let w = k.width();
    let at = k.place(j);
    rows::shift(words, at, at + w, (n - 1 - j) * w);
    words[k.count_at()] = (n - 1) as u64;
}

// The coordinates of row j of n taken out.
pub fn drop_coords(coords: &mut [f64], k: Kind, n: usize, j: usize)
    requires { (length coords.old ≡ all_coords) × (j < n) × (n ≤ limit_of (kind_number k)) }
    ensures { coords.new ≡ drop_coords coords.old (kind_number k) n j }
{
    let w = k.coord_width();
    let at = k.coord_place(j);
    rows::shift(coords, at, at + w, (n - 1 - j) * w);
}
