// Whether a table is a change set, warnings included.
#![tactic(auto)]

ghost use Rattle.std.specs.Prelude.{◌≡◌, length};
ghost use Rattle.changes.specs.ChangeSet.{warning};
ghost use Rattle.changes.specs.ChangeFile.{warning_form, warnings};
ghost use Rattle.changes.specs.Layout.{set_words, from_of, about_of, warnings_at, is_set_in};

use changes::layout;
use changes::lists::{Entry, entry_at};

// Whether code c about a record, or about none where its kind is 0, is a warning of a set.
#[tactic(auto, using(crate::proofs::SetLaws::warning_told))]
pub fn warning_ok(c: u64, about: Entry) -> bool
    ensures { result ≡ warning_form.fits (warning c (about_of about.kind about.number)) }
{
    matches!(c, 1..=4) && about.kind <= 8
}

// Whether the n warnings are those of a set. The n is a count that stands in a table: any number.
#[tactic(auto, using(crate::proofs::SetLaws::passing))]
pub fn warnings_ok(t: &[u64], n: usize) -> bool
    requires { length t.now ≡ set_words }
    ensures { result ≡ warnings.fits (warnings_at t.now (from_of 3) n) }
{
    if layout::WARNINGS < n {
        return false;
    }
    for i in 0..n {
        let at = layout::WARNINGS_FROM + i * 3;
        if !warning_ok(t[at], entry_at(t, at + 1)) {
            return false;
        }
    }
    true
}

// Whether the table is one of a change set.
#[tactic(auto, using(crate::proofs::SetLaws::set_rules))]
pub fn is_set(t: &[u64]) -> bool
    ensures { result ≡ is_set_in t.now }
{
    sets::lists_ok(t) && warnings_ok(t, rows::index(t[3]))
}
