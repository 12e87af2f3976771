// A change set built in a table that C lends as a slice, so what is known of it (Roomy) stands in the contracts: entries
// and warnings added, then `normalize`.
#![tactic(auto)]

ghost use Rattle.std.specs.Prelude.{◌≡◌, ◌<◌, length};
ghost use Rattle.changes.specs.ChangeSet.{tally_of};
ghost use Rattle.changes.specs.ChangeFile.{max_entries, max_warnings};
ghost use Rattle.changes.specs.Kinds.{list_number, code_number};
ghost use Rattle.changes.specs.Layout.{set_words, count_in, change_set_of};
ghost use Rattle.changes.specs.Listed.{ref_of};
ghost use Rattle.sets.specs.Tables.{Roomy};
ghost use Rattle.building.specs.Build.{Cleared, EntryAdded, WarningAdded};

use changes::lists::{Entry, put_entry};
use changes::{SetList, Tally, WarningCode, layout};

// How many entries the fold has as created, modified and deleted. Asks for a table's size, so it is no From.
#[tactic(auto, using(crate::proofs::BuildLaws::told))]
pub fn tally_of(f: &[u64]) -> Tally
    requires { length f.now ≡ set_words }
    ensures { result ≡ tally_of (change_set_of f.now) }
{
    Tally {
        created: f[0],
        modified: f[1],
        deleted: f[2],
    }
}

// The empty set.
pub fn clear(s: &mut [u64])
    requires { length s.old ≡ set_words }
    ensures { Cleared s.new }
{
    s[0] = 0;
    s[1] = 0;
    s[2] = 0;
    s[3] = 0;
}

// Entry e at the end of list l.
#[tactic(auto, unfolding(changes::specs::Layout::count_in))]
pub fn push(s: &mut [u64], l: SetList, e: Entry)
    requires { Roomy s.old × (count_in s.old (list_number l) < max_entries) }
    ensures { EntryAdded s.old (list_number l) (ref_of e) s.new }
{
    let word = l.word();
    let n = rows::index(s[word]);
    put_entry(s, l.begin() + n * 2, e);
    s[word] = (n + 1) as u64;
}

// A warning at the end, about a record, or about none where its kind is 0.
pub fn warn(s: &mut [u64], c: WarningCode, about: Entry)
    requires { Roomy s.old × (count_in s.old 3 < max_warnings) }
    ensures { WarningAdded s.old (code_number c) about.kind about.number s.new }
{
    warn_number(s, c.number(), about);
}

// The same for any number as the code.
#[tactic(auto, unfolding(changes::specs::Layout::count_in))]
pub fn warn_number(s: &mut [u64], c: u64, about: Entry)
    requires { Roomy s.old × (count_in s.old 3 < max_warnings) }
    ensures { WarningAdded s.old c about.kind about.number s.new }
{
    let n = rows::index(s[3]);
    let at = layout::WARNINGS_FROM + n * 3;
    s[at] = c;
    put_entry(s, at + 1, about);
    s[3] = (n + 1) as u64;
}
