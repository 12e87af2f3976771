// A running fold's tally as three words, for programs in other languages: created, modified, deleted. Neither Tally nor the array is of
// this crate, so no From can stand here.
#![tactic(auto)]

ghost use Rattle.std.specs.Prelude.{◌≡◌};
ghost use Rattle.tally_words.specs.Words.{tally_in, tally_words};

use changes::Tally;

pub fn tally_of(t: &[u64; 3]) -> Tally
    ensures { result ≡ tally_in t.now }
{
    Tally {
        created: t[0],
        modified: t[1],
        deleted: t[2],
    }
}

pub fn put_tally(t: &mut [u64; 3], x: Tally)
    ensures { t.new ≡ tally_words x }
{
    *t = [x.created, x.modified, x.deleted];
}
