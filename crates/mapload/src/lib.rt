// A map file loaded into the tables. What is no map file was refused before. Each table of these is a step with a law of its own kind of
// record, so they are written out and are no loop over the kinds; words and coords are two slices because C lends two.
#![tactic(auto)]

ghost use Rattle.std.specs.Prelude.{◌≡◌, length};
ghost use Rattle.store.specs.Layout.{all_words, all_coords};
ghost use Rattle.mapload.specs.MapLoad.{MarksLoaded, LinesLoaded, MapLoaded};

use fields::Place;
use store::Kind;

// Signals, crosswalks and rules.
#[tactic(auto, using(crate::proofs::MapLoadLaws::loading_marks))]
fn load_marks(s: &[u8], p: Place, words: &mut [u64], coords: &mut [f64]) -> Place
    requires { (length words.old ≡ all_words) × (length coords.old ≡ all_coords) }
    ensures { MarksLoaded s.now p words.old coords.old result words.new coords.new }
{
    let q = loading::load_table(s, p, Kind::Signal, words, coords);
    let r = loading::load_table(s, q, Kind::Crosswalk, words, coords);
    loading::load_table(s, r, Kind::Rule, words, coords)
}

// Boundaries, stop lines and what follows.
#[tactic(auto, using(crate::proofs::MapLoadLaws::loading_lines))]
fn load_lines(s: &[u8], p: Place, words: &mut [u64], coords: &mut [f64]) -> Place
    requires { (length words.old ≡ all_words) × (length coords.old ≡ all_coords) }
    ensures { LinesLoaded s.now p words.old coords.old result words.new coords.new }
{
    let q = loading::load_table(s, p, Kind::Boundary, words, coords);
    let r = loading::load_table(s, q, Kind::StopLine, words, coords);
    load_marks(s, r, words, coords)
}

// The next number and the six tables.
#[tactic(auto, using(crate::proofs::MapLoadLaws::loading_map))]
pub fn load_map(s: &[u8], words: &mut [u64], coords: &mut [f64]) -> Place
    requires { (length words.old ≡ all_words) × (length coords.old ≡ all_coords) }
    ensures { MapLoaded s.now words.old coords.old result words.new coords.new }
{
    let p = fields::read_word(s, Some(0), words, 0, 0, u64::MAX);
    let q = loading::load_table(s, p, Kind::Lane, words, coords);
    load_lines(s, q, words, coords)
}
