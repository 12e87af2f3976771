// Records of any kind, read from a file's bytes into the tables: two slices, words and coords, because C lends two. The writer goes
// through the kinds likewise, but calls other functions: nothing but the match is shared.
#![tactic(auto)]

ghost use Rattle.std.specs.Prelude.{◌≡◌, ◌+◌, ◌≤◌, ◌<◌, length};
ghost use Rattle.store.specs.Kinds.{kind_number};
ghost use Rattle.store.specs.Layout.{limit_of, width_of, coord_width_of, all_words, all_coords};
ghost use Rattle.records.specs.Records.{record_form, record_in, RowRead};
ghost use Rattle.loading.specs.Loading.{RowLoaded, TableLoaded};

use fields::Place;
use store::Kind;

// A record of kind k into a row.
#[tactic(auto, unfolding(store::specs::Layout::width_of, store::specs::Layout::coord_width_of))]
pub fn read_record(s: &[u8], p: Place, k: Kind, words: &mut [u64], coords: &mut [f64]) -> Place
    requires { (width_of (kind_number k) ≤ length words.old) × (coord_width_of (kind_number k) ≤ length coords.old) }
    ensures { RowRead (record_form (kind_number k)) (record_in (kind_number k)) s.now p words.old coords.old result words.new coords.new }
{
    match k {
        Kind::Lane => records::read_lane(s, p, words, coords),
        Kind::Boundary | Kind::StopLine => records::read_line_string(s, p, words, coords),
        Kind::Signal => records::read_signal(s, p, words, coords),
        Kind::Crosswalk => records::read_crosswalk(s, p, words, coords),
        Kind::Rule => records::read_rule(s, p, words, coords),
    }
}

// A record into row i of its table.
#[tactic(auto, using(crate::proofs::LoadLaws::loading_row))]
pub fn load_row(
    s: &[u8],
    p: Place,
    k: Kind,
    i: usize,
    words: &mut [u64],
    coords: &mut [f64],
) -> Place
    requires { (i < limit_of (kind_number k)) × (length words.old ≡ all_words) × (length coords.old ≡ all_coords) }
    ensures { RowLoaded s.now p (kind_number k) i words.old coords.old result words.new coords.new }
{
    let a = k.place(i);
    let e = a + k.width();
    let c = k.coord_place(i);
    let f = c + k.coord_width();
    read_record(s, p, k, &mut words[a..e], &mut coords[c..f])
}

// A table: its count into its word, its records into its rows. A count past the room is a fault.
#[tactic(auto, using(crate::proofs::LoadLaws::loading_table))]
pub fn load_table(s: &[u8], p: Place, k: Kind, words: &mut [u64], coords: &mut [f64]) -> Place
    requires { (length words.old ≡ all_words) × (length coords.old ≡ all_coords) }
    ensures { TableLoaded s.now p (kind_number k) words.old coords.old result words.new coords.new }
{
    let most = k.limit() as u64;
    let at = k.count_at();
    let mut q = fields::read_word(s, p, words, at, 0, most);
    let n = words[at] as usize;
    for i in 0..n {
        q = load_row(s, q, k, i, words, coords);
    }
    q
}
