// Change sets and running folds in lent tables: docs/TABLES.md. C lends them as slices, and there is no heap: so the words
// to work in, u and v with `room` entries for each list, are slices too, and arrays of a fixed size where they begin. What
// is known of a table stands in the contracts as one word (Roomy, Fits, Joins, Rises): a struct round lent slices would be
// made and taken apart at each call, and be no plainer.
#![tactic(auto)]

ghost use Rattle.std.specs.Prelude.{◌≡◌, ◌+◌, ◌*◌, ◌≤◌, ◌++◌, length, ◌&&◌};
ghost use Rattle.changes.specs.ChangeSet.{sort_refs};
ghost use Rattle.changes.specs.Layout.{set_words, from_of, count_in, list_in};
ghost use Rattle.changes.specs.Walk.{Put};
ghost use Rattle.changes.specs.Kinds.{list_number};
ghost use Rattle.changes.specs.Listed.{refs_of, Stands};
ghost use Rattle.changes.specs.ChangeSet.{fold_step};
ghost use Rattle.changes.specs.ChangeFile.{max_entries, entries, apart, lists_apart};
ghost use Rattle.changes.specs.Layout.{change_set_of, lists_ok_in};
ghost use Rattle.sets.specs.Tables.{crowd_of, put_list, put_lists, created_in, modified_in, deleted_in, Roomy, Fits, Joins, United, Rises, Settled, Made, Stores};
ghost use Rattle.sets.specs.Fold.{FoldsTo, FoldCalled};

use changes::lists::{EntryList, are_apart, copy, entries_ok, sift, union};
use changes::{SetList, layout};
use refusal::Refusal;

// How many entries three lists have in words to work in, as indices; a tally has them as numbers for C.
#[derive(Clone, Copy)]
pub struct Counts {
    pub created: usize,
    pub modified: usize,
    pub deleted: usize,
}

// A list of a table.
pub fn list(t: &[u64], l: SetList) -> EntryList<'_>
    requires { Roomy t.now }
    ensures words { result.words.now ≡ t.now }
    ensures end { result.end ≡ from_of (list_number l) + count_in t.now (list_number l) * 2 }
    ensures count { result.count ≡ count_in t.now (list_number l) }
{
    let count = rows::index(t[l.word()]);
    EntryList {
        words: t,
        end: l.begin() + count * 2,
        count,
    }
}

// List l is to be the entries of t.
pub fn put_list(f: &mut [u64], l: SetList, t: EntryList)
    requires { (length f.old ≡ set_words) × (t.count ≤ max_entries) × Stands t }
    ensures { f.new ≡ put_list f.old (list_number l) (refs_of t.entry) }
{
    copy(f, l.begin(), t);
    f[l.word()] = t.count as u64;
}

// List l of f and list l of c in one, from word p of u on.
pub fn unite_list(u: &mut [u64], p: usize, f: &[u64], c: &[u64], l: SetList) -> usize
    requires { Fits f.now × Fits c.now × (p + (count_in f.now (list_number l) + count_in c.now (list_number l)) * 2 ≤ length u.old) }
    ensures { Put u.old p (sort_refs (list_in f.now (list_number l) ++ list_in c.now (list_number l))) result u.new }
{
    union(u, p, list(f, l), list(c, l))
}

// The lists of f and c, each two in one, into three lists with room for that many entries each.
pub fn unite(u: &mut [u64], room: usize, f: &[u64], c: &[u64]) -> Counts
    requires { Joins u.old room f.now c.now }
    ensures { United u.old room f.now c.now result u.new }
{
    let created = unite_list(u, 0, f, c, SetList::Created);
    let modified = unite_list(u, room * 2, f, c, SetList::Modified);
    let deleted = unite_list(u, room * 4, f, c, SetList::Deleted);
    Counts {
        created,
        modified,
        deleted,
    }
}

// What of three lists is left: created without deleted and deleted without created, in v; modified without both, in u.
pub fn settle(u: &mut [u64], v: &mut [u64], room: usize, n: Counts) -> Counts
    requires { Rises u.old v.old room n }
    ensures { Settled u.old room n result u.new v.new }
{
    let created = EntryList {
        words: u,
        end: n.created * 2,
        count: n.created,
    };
    let modified = EntryList {
        words: u,
        end: room * 2 + n.modified * 2,
        count: n.modified,
    };
    let deleted = EntryList {
        words: u,
        end: room * 4 + n.deleted * 2,
        count: n.deleted,
    };
    let c = sift(v, 0, created, deleted);
    let m = sift(v, room * 2, modified, created);
    let d = sift(v, room * 4, deleted, created);
    let touched = EntryList {
        words: v,
        end: room * 2 + m * 2,
        count: m,
    };
    let gone = EntryList {
        words: v,
        end: room * 4 + d * 2,
        count: d,
    };
    Counts {
        created: c,
        modified: sift(u, room * 2, touched, gone),
        deleted: d,
    }
}

// The lists of the fold of f and c: created and deleted in v, modified in u.
pub fn gather(u: &mut [u64], v: &mut [u64], room: usize, f: &[u64], c: &[u64]) -> Counts
    requires { Joins u.old room f.now c.now × (room * 6 ≤ length v.old) }
    ensures { Made u.new v.new room result (fold_step (change_set_of f.now) (change_set_of c.now)) }
{
    let n = unite(u, room, f, c);
    settle(u, v, room, n)
}

// Three lists that were gathered, into a table.
#[tactic(auto, using(crate::proofs::TableLaws::stored))]
pub fn store(f: &mut [u64], u: &[u64], v: &[u64], room: usize, n: Counts)
    requires { Stores f.old u.now v.now room n }
    ensures { f.new ≡ put_lists f.old (created_in v.now room n) (modified_in u.now room n) (deleted_in v.now room n) }
{
    let created = EntryList {
        words: v,
        end: n.created * 2,
        count: n.created,
    };
    let modified = EntryList {
        words: u,
        end: room * 2 + n.modified * 2,
        count: n.modified,
    };
    let deleted = EntryList {
        words: v,
        end: room * 4 + n.deleted * 2,
        count: n.deleted,
    };
    put_list(f, SetList::Created, created);
    put_list(f, SetList::Modified, modified);
    put_list(f, SetList::Deleted, deleted);
}

// The fold of f and c, whose lists are those of sets, in f; u and v are words to work in.
pub fn fold_in(
    f: &mut [u64],
    c: &[u64],
    u: &mut [u64],
    v: &mut [u64],
    room: usize,
) -> Result<(), Refusal>
    requires { Joins u.old room f.old c.now × (room * 6 ≤ length v.old) }
    ensures { FoldsTo f.old c.now result f.new }
{
    let n = gather(u, v, room, f, c);
    if layout::ENTRIES < n.created {
        return Err(Refusal::Full);
    }
    if layout::ENTRIES < n.modified {
        return Err(Refusal::Full);
    }
    if layout::ENTRIES < n.deleted {
        return Err(Refusal::Full);
    }
    store(f, u, v, room, n);
    f[3] = 0;
    Ok(())
}

// Whether list l is a list of a change set.
pub fn list_ok(t: &[u64], l: SetList) -> bool
    requires { length t.now ≡ set_words }
    ensures { result ≡ entries.fits (list_in t.now (list_number l)) }
{
    entries_ok(t, l.begin(), rows::index(t[l.word()]))
}

pub fn each_ok(t: &[u64]) -> bool
    requires { length t.now ≡ set_words }
    ensures { result ≡ (entries.fits (list_in t.now 0) && entries.fits (list_in t.now 1) && entries.fits (list_in t.now 2)) }
{
    list_ok(t, SetList::Created) && list_ok(t, SetList::Modified) && list_ok(t, SetList::Deleted)
}

// Whether lists l and m have no entry in common.
pub fn two_apart(t: &[u64], l: SetList, m: SetList) -> bool
    requires { Fits t.now }
    ensures { result ≡ apart (list_in t.now (list_number l)) (list_in t.now (list_number m)) }
{
    are_apart(list(t, l), list(t, m))
}

#[tactic(auto, unfolding(changes::specs::Layout::change_set_of, changes::specs::ChangeFile::lists_apart))]
pub fn all_apart(t: &[u64]) -> bool
    requires { Fits t.now }
    ensures { result ≡ lists_apart (change_set_of t.now) }
{
    two_apart(t, SetList::Created, SetList::Modified)
        && two_apart(t, SetList::Created, SetList::Deleted)
        && two_apart(t, SetList::Modified, SetList::Deleted)
}

// Whether the three lists are those of a change set file.
#[tactic(auto, using(crate::proofs::TableLaws::telling))]
pub fn lists_ok(t: &[u64]) -> bool
    ensures { result ≡ lists_ok_in t.now }
{
    t.len() == layout::WORDS && each_ok(t) && all_apart(t)
}

// How many entries the lists of both have in all.
pub fn crowd(f: &[u64], c: &[u64]) -> usize
    requires { Fits f.now × Fits c.now }
    ensures { result ≡ crowd_of f.now c.now }
{
    let a = rows::index(f[0]) + rows::index(c[0]);
    let b = rows::index(f[1]) + rows::index(c[1]);
    let d = rows::index(f[2]) + rows::index(c[2]);
    a + b + d
}

// The fold of few entries.
pub fn fold_few(f: &mut [u64], c: &[u64]) -> Result<(), Refusal>
    requires { Fits f.old × Fits c.now × (crowd_of f.old c.now ≤ 64) }
    ensures { FoldsTo f.old c.now result f.new }
{
    let mut u = [0; 384];
    let mut v = [0; 384];
    fold_in(f, c, &mut u, &mut v, 64)
}

// The fold of f and c, whose lists are those of sets, in f.
pub fn fold_fitted(f: &mut [u64], c: &[u64]) -> Result<(), Refusal>
    requires { Fits f.old × Fits c.now }
    ensures { FoldsTo f.old c.now result f.new }
{
    // few entries ask for few words to work in
    if crowd(f, c) <= 64 {
        return fold_few(f, c);
    }
    let mut u = [0; 6144];
    let mut v = [0; 6144];
    fold_in(f, c, &mut u, &mut v, 1024)
}

// The fold call: c taken into f. 13 for lists that are not those of a set, 10 where a list would be too long; then f is as it was.
pub fn fold(f: &mut [u64], c: &[u64]) -> Result<(), Refusal>
    ensures { FoldCalled f.old c.now result f.new }
{
    if !lists_ok(f) || !lists_ok(c) {
        return Err(Refusal::BadSet);
    }
    fold_fitted(f, c)
}
