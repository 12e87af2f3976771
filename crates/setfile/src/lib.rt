// A change set file: written from its table, and loaded into one. The table is one slice, as C lends it, and an index says where a list
// stands in it. Entries and warnings have a loop each: what they would share is the loop alone, and it would have to be handed the law of
// the item. A warning's kind is a word of the table, where any number may stand.
#![tactic(auto)]

ghost use Rattle.std.specs.Prelude.{◌≡◌, ◌+◌, ◌*◌, ◌≤◌, ◌<◌, length};
ghost use Rattle.changes.specs.ChangeFile.{entry, warning_form, entries, warnings, change_file};
ghost use Rattle.changes.specs.Layout.{set_words, from_of, ref_at, refs_at, warning_at, warnings_at, change_set_of};
ghost use Rattle.putting.specs.Putting.{PutAt};
ghost use Rattle.setfile.specs.SetFile.{Counted, ItemRead, ListRead, SetLoaded};

use fields::Place;

const LARGEST: u64 = 0xFFFF_FFFF_FFFF_FFFF;

// The entry at word `at`: its kind and number.
fn put_entry(out: &mut [u8], p: Place, t: &[u64], at: usize) -> Place
    requires { at + 2 ≤ length t.now }
    ensures { PutAt (entry.write (ref_at t.now at)) out.old p result out.new }
{
    let q = putting::put_number(out, p, t[at]);
    putting::put_number(out, q, t[at + 1])
}

// The n entries from word `from` on.
fn put_entries(out: &mut [u8], p: Place, t: &[u64], from: usize, n: usize) -> Place
    requires { from + n * 2 ≤ length t.now }
    ensures { PutAt (entries.write (refs_at t.now from n)) out.old p result out.new }
{
    let mut q = putting::put_number(out, p, n as u64);
    for i in 0..n {
        q = put_entry(out, q, t, from + i * 2);
    }
    q
}

// The warning at word `at`: its code, and the record that it is about; kind 0 stands alone.
fn put_warning(out: &mut [u8], p: Place, t: &[u64], at: usize) -> Place
    requires { at + 3 ≤ length t.now }
    ensures { PutAt (warning_form.write (warning_at t.now at)) out.old p result out.new }
{
    let kind = t[at + 1];
    let q = putting::put_number(out, p, t[at]);
    let r = putting::put_number(out, q, kind);
    if kind == 0 {
        return r;
    }
    putting::put_number(out, r, t[at + 2])
}

// The n warnings from word `from` on.
fn put_warnings(out: &mut [u8], p: Place, t: &[u64], from: usize, n: usize) -> Place
    requires { from + n * 3 ≤ length t.now }
    ensures { PutAt (warnings.write (warnings_at t.now from n)) out.old p result out.new }
{
    let mut q = putting::put_number(out, p, n as u64);
    for i in 0..n {
        q = put_warning(out, q, t, from + i * 3);
    }
    q
}

// The set file of a table.
#[tactic(auto, using(crate::proofs::SetLaws::putting_set))]
pub fn put_set(out: &mut [u8], p: Place, t: &[u64]) -> Place
    requires { Counted t.now }
    ensures { PutAt (change_file.write (change_set_of t.now)) out.old p result out.new }
{
    let modified = put_entries(out, p, t, 4, rows::index(t[0]));
    let deleted = put_entries(out, modified, t, 1028, rows::index(t[1]));
    let warnings = put_entries(out, deleted, t, 2052, rows::index(t[2]));
    put_warnings(out, warnings, t, 3076, rows::index(t[3]))
}

// An entry into two words.
#[tactic(auto, using(crate::proofs::LoadLaws::loading_entry))]
fn load_entry(s: &[u8], p: Place, t: &mut [u64], at: usize) -> Place
    requires { at + 2 ≤ length t.old }
    ensures { ItemRead entry ref_at 2 s.now p t.old at result t.new }
{
    let q = fields::read_word(s, p, t, at, 1, 8);
    fields::read_word(s, q, t, at + 1, 0, LARGEST)
}

// List l: its count into word l, its entries into its room.
#[tactic(auto, using(crate::proofs::LoadLaws::loading_entries))]
fn load_entries(s: &[u8], p: Place, t: &mut [u64], l: usize) -> Place
    requires { (l < 3) × (length t.old ≡ set_words) }
    ensures { ListRead entry ref_at 2 512 (from_of l) l s.now p t.old result t.new }
{
    let mut q = fields::read_word(s, p, t, l, 0, 512);
    let n = t[l] as usize;
    let from = 4 + l * 1024;
    for i in 0..n {
        q = load_entry(s, q, t, from + i * 2);
    }
    q
}

// A warning into three words; after kind 0 there is no number.
#[tactic(auto, using(crate::proofs::LoadLaws::loading_warning))]
fn load_warning(s: &[u8], p: Place, t: &mut [u64], at: usize) -> Place
    requires { at + 3 ≤ length t.old }
    ensures { ItemRead warning_form warning_at 3 s.now p t.old at result t.new }
{
    let q = fields::read_word(s, p, t, at, 1, 4);
    let r = fields::read_word(s, q, t, at + 1, 0, 8);
    if t[at + 1] == 0 {
        return r;
    }
    fields::read_word(s, r, t, at + 2, 0, LARGEST)
}

#[tactic(auto, using(crate::proofs::LoadLaws::loading_warnings))]
fn load_warnings(s: &[u8], p: Place, t: &mut [u64]) -> Place
    requires { length t.old ≡ set_words }
    ensures { ListRead warning_form warning_at 3 160 3076 3 s.now p t.old result t.new }
{
    let mut q = fields::read_word(s, p, t, 3, 0, 160);
    let n = t[3] as usize;
    for i in 0..n {
        q = load_warning(s, q, t, 3076 + i * 3);
    }
    q
}

// The lists of a set file; their order is not tested here.
#[tactic(auto, using(crate::proofs::LoadLaws::loading_set))]
pub fn load_set(s: &[u8], t: &mut [u64]) -> Place
    requires { length t.old ≡ set_words }
    ensures { SetLoaded s.now t.old result t.new }
{
    let modified = load_entries(s, Some(0), t, 0);
    let deleted = load_entries(s, modified, t, 1);
    let warnings = load_entries(s, deleted, t, 2);
    load_warnings(s, warnings, t)
}
