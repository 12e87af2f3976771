// Lists of entries in flat slices. An entry is two words, kind and number. A list that is walked keeps the word at which
// it ends, and how many of its entries are left: so a walk has one number to keep. Each step of a walk changes the list,
// so what is known of it (Stands, Walked) is asked for by name and not kept in the type, where each step would owe it.
// What is written goes into `out` from word `to` on, and each contract says that the other words stay: with a slice from
// `to` on each caller would have to show that, and be no plainer.
ghost use Rattle.std.specs.Prelude.{◌≡◌, ◌&&◌, ◌+◌, ◌-◌, ◌*◌, ◌≤◌, ◌<◌, ◌++◌, length};
ghost use Rattle.map.specs.Entity.{compare_refs};
ghost use Rattle.changes.specs.Order.{order_of, firsts_of};
ghost use Rattle.changes.specs.ChangeSet.{sort_refs, without};
ghost use Rattle.changes.specs.ChangeFile.{is_before, entry, entries, apart};
ghost use Rattle.changes.specs.Layout.{list_words, ref_at, refs_at};
ghost use Rattle.changes.specs.Walk.{Walks, put_ref, Put};
ghost use Rattle.changes.specs.Listed.{ref_of, refs_of, Stands, Walked};

use crate::layout;
use std::cmp::Ordering;

// Entries stand in the order of their kinds, then of their numbers. A table may have any number as a kind: `follows` tells.
#[derive(Clone, Copy, PartialEq, Eq, PartialOrd, Ord)]
pub struct Entry {
    pub kind: u64,
    pub number: u64,
}

// What is left of a list: its last `count` entries, which end before word `end`.
#[derive(Clone, Copy)]
pub struct EntryList<'a> {
    pub words: &'a [u64],
    pub end: usize,
    pub count: usize,
}

impl EntryList<'_> {
    // The first entry of those that are left.
    pub fn first(self) -> Entry
        requires { Stands self × (0 < self.count) }
        ensures { ref_of result ≡ ref_at self.entry.words.now (self.entry.end - self.entry.count * 2) }
    {
        entry_at(self.words, self.end - self.count * 2)
    }
}

// The entry of t at p.
#[tactic(auto, unfolding(crate::specs::Layout::ref_at))]
pub fn entry_at(t: &[u64], p: usize) -> Entry
    requires { p + 2 ≤ length t.now }
    ensures { ref_of result ≡ ref_at t.now p }
{
    Entry {
        kind: t[p],
        number: t[p + 1],
    }
}

// Writes an entry over that of out at p.
#[tactic(auto, unfolding(crate::specs::Walk::put_ref))]
pub fn put_entry(out: &mut [u64], p: usize, e: Entry)
    requires { p + 2 ≤ length out.old }
    ensures { out.new ≡ put_ref out.old p (ref_of e) }
{
    out[p] = e.kind;
    out[p + 1] = e.number;
}

// How a stands to b: the derived order, by the kinds first. The derived comparison itself works out both at once, and takes half as long
// again.
#[tactic(auto, using(crate::proofs::WalkLaws::comparing))]
pub fn compare(a: Entry, b: Entry) -> Ordering
    ensures { result ≡ order_of (compare_refs (ref_of a) (ref_of b)) }
{
    if a.kind < b.kind {
        Ordering::Less
    } else if a.kind == b.kind {
        a.number.cmp(&b.number)
    } else {
        Ordering::Greater
    }
}

// How the first entry of t stands to the first of s; an empty list comes last.
#[tactic(auto, using(crate::proofs::WalkLaws::first))]
pub fn firsts(t: EntryList, s: EntryList) -> Ordering
    requires { Stands t × Stands s }
    ensures { result ≡ firsts_of (refs_of t.entry) (refs_of s.entry) }
{
    if t.count == 0 {
        return Ordering::Greater;
    }
    if s.count == 0 {
        return Ordering::Less;
    }
    compare(t.first(), s.first())
}

// Copies a list.
#[tactic(auto, using(crate::proofs::MergeLaws::copying))]
pub fn copy(out: &mut [u64], to: usize, t: EntryList) -> usize
    requires { Stands t × (to + t.count * 2 ≤ length out.old) }
    ensures { Put out.old to (refs_of t.entry) result out.new }
{
    let from = t.end - t.count * 2;
    for i in 0..t.count {
        put_entry(out, to + i * 2, entry_at(t.words, from + i * 2));
    }
    t.count
}

// Writes the entries of two rising lists in rising order, each once. A walk over two lists: which of them goes on is
// told at each turn, so no iterator over one of them says it plainer; so with the two walks below.
#[tactic(auto, using(crate::proofs::MergeLaws::uniting))]
pub fn union(out: &mut [u64], to: usize, t: EntryList, s: EntryList) -> usize
    requires { Walked t × Walked s × (to + (t.count + s.count) * 2 ≤ length out.old) }
    ensures { Put out.old to (sort_refs (refs_of t.entry ++ refs_of s.entry)) result out.new }
{
    let mut left = t;
    let mut new = s;
    let mut count = 0;
    while 0 < left.count + new.count {
        let at = to + count * 2;
        let o = firsts(left, new);
        count += 1;
        match o {
            Ordering::Less => {
                put_entry(out, at, left.first());
                left.count -= 1;
            }
            Ordering::Equal => {
                put_entry(out, at, left.first());
                left.count -= 1;
                new.count -= 1;
            }
            Ordering::Greater => {
                put_entry(out, at, new.first());
                new.count -= 1;
            }
        }
    }
    count
}

// Writes the entries of a rising list that another rising list does not have.
#[tactic(auto, using(crate::proofs::MergeLaws::sifting))]
pub fn sift(out: &mut [u64], to: usize, t: EntryList, s: EntryList) -> usize
    requires { Walked t × Walked s × (to + t.count * 2 ≤ length out.old) }
    ensures { Put out.old to (without (refs_of t.entry) (refs_of s.entry)) result out.new }
{
    let mut left = t;
    let mut over = s;
    let mut count = 0;
    while 0 < left.count {
        let o = firsts(left, over);
        match o {
            Ordering::Less => {
                put_entry(out, to + count * 2, left.first());
                count += 1;
                left.count -= 1;
            }
            Ordering::Equal => {
                left.count -= 1;
                over.count -= 1;
            }
            Ordering::Greater => {
                over.count -= 1;
            }
        }
    }
    count
}

// Whether two rising lists have no entry in common.
#[tactic(auto, using(crate::proofs::MergeLaws::parting))]
pub fn are_apart(t: EntryList, s: EntryList) -> bool
    requires { Walked t × Walked s }
    ensures { result ≡ apart (refs_of t.entry) (refs_of s.entry) }
{
    let mut left = t;
    let mut over = s;
    while 0 < left.count {
        let o = firsts(left, over);
        match o {
            Ordering::Less => {
                left.count -= 1;
            }
            Ordering::Equal => {
                return false;
            }
            Ordering::Greater => {
                over.count -= 1;
            }
        }
    }
    true
}

// Whether `next` is an entry, and comes after `last`.
#[tactic(auto, using(crate::proofs::EntryLaws::following))]
pub fn follows(last: Entry, next: Entry) -> bool
    ensures { result ≡ (is_before (compare_refs (ref_of last) (ref_of next)) && entry.fits (ref_of next)) }
{
    if next.kind == 0 || 8 < next.kind {
        return false;
    }
    compare(last, next).is_lt()
}

// Whether the n entries from p on are a list of a change set. The n is a count that stands in a table: any number.
#[tactic(auto, using(crate::proofs::EntryLaws::checking))]
pub fn entries_ok(t: &[u64], p: usize, n: usize) -> bool
    requires { p + list_words ≤ length t.now }
    ensures { result ≡ entries.fits (refs_at t.now p n) }
{
    if layout::ENTRIES < n {
        return false;
    }
    let mut last = Entry { kind: 0, number: 0 };
    for i in 0..n {
        let next = entry_at(t, p + i * 2);
        if !follows(last, next) {
            return false;
        }
        last = next;
    }
    true
}
