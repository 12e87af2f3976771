// The running fold against its map, both in tables that C lends as slices: what is known of them stands in the contracts.
#![tactic(auto)]

ghost use Rattle.std.specs.Prelude.{◌≡◌, length};
ghost use Rattle.store.specs.Layout.{SizedWords};
ghost use Rattle.changes.specs.Running.{same_tally};
ghost use Rattle.changes.specs.ChangeSet.{tally_of};
ghost use Rattle.changes.specs.Kinds.{list_number};
ghost use Rattle.changes.specs.Layout.{set_words, list_in, change_set_of};
ghost use Rattle.changes.specs.Listed.{ref_of, refs_of, Stands};
ghost use Rattle.sets.specs.Tables.{Roomy};
ghost use Rattle.running.specs.Tested.{EntryTested, ListTested, FoldTested};

use changes::lists::{Entry, EntryList, entry_at};
use changes::{SetList, Tally};

// Whether record e has a number below the next, and is on the map, or is not, as `there` asks: it is no mark of whether
// other values count, and created and deleted entries are asked by one walk.
#[tactic(auto, using(crate::proofs::TestLaws::entry_told))]
pub fn entry_ok(words: &[u64], there: bool, e: Entry) -> bool
    requires { SizedWords words.now }
    ensures { EntryTested words.now there (ref_of e) result }
{
    if store::next(words) <= e.number {
        return false;
    }
    let found = map::lookup::has(words, e.kind, e.number);
    if there { found } else { !found }
}

// Whether each entry of a list is so.
#[tactic(auto, using(crate::proofs::TestLaws::passing))]
pub fn entries_ok(words: &[u64], there: bool, t: EntryList) -> bool
    requires { SizedWords words.now × Stands t }
    ensures { ListTested words.now there (refs_of t.entry) result }
{
    let from = t.end - t.count * 2;
    for i in 0..t.count {
        if !entry_ok(words, there, entry_at(t.words, from + i * 2)) {
            return false;
        }
    }
    true
}

// Whether each entry of list l is so.
pub fn list_ok(words: &[u64], there: bool, f: &[u64], l: SetList) -> bool
    requires { SizedWords words.now × Roomy f.now }
    ensures { ListTested words.now there (list_in f.now (list_number l)) result }
{
    entries_ok(words, there, sets::list(f, l))
}

// Whether the tally is the fold's three counts.
#[tactic(auto, using(crate::proofs::TestLaws::counts))]
pub fn tally_ok(f: &[u64], tally: Tally) -> bool
    requires { length f.now ≡ set_words }
    ensures { result ≡ same_tally tally (tally_of (change_set_of f.now)) }
{
    tally.created == f[0] && tally.modified == f[1] && tally.deleted == f[2]
}

// Whether the fold is a running fold of the map: the lists of a set, no warning, the tally its three counts, numbers
// below the next number, created and modified records on the map, deleted ones not.
#[tactic(auto, using(crate::proofs::TestLaws::fold_told))]
pub fn fold_ok(words: &[u64], fold: &[u64], tally: Tally) -> bool
    requires { SizedWords words.now }
    ensures { FoldTested words.now fold.now tally result }
{
    if !sets::lists_ok(fold) {
        return false;
    }
    if fold[3] != 0 {
        return false;
    }
    if !tally_ok(fold, tally) {
        return false;
    }
    if !list_ok(words, true, fold, SetList::Created) {
        return false;
    }
    if !list_ok(words, true, fold, SetList::Modified) {
        return false;
    }
    list_ok(words, false, fold, SetList::Deleted)
}
