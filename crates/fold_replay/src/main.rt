// Replays stored folds. `sets` begins a fold anew, `join` takes a set file into it; the answer stands in the next line.
// Writes how many entries each fold has at its end, as created, modified and deleted, and how many answers were met.
#![tactic(auto)]

use changes::{SetList, layout};
use printing::Output;
use refusal::Refusal;
use sample_text::{number_at, word_at};
use std::io;

// The lists of a change set.
const LISTS: [SetList; 3] = [SetList::Created, SetList::Modified, SetList::Deleted];

// A table of a change set.
type Table = [u64; layout::WORDS];

// As many bytes of a set file are read.
type Bytes = [u8; 4096];

// The numbers of a set file, one after another. Where there is none it is 0, and the place stays.
#[derive(Drop)]
struct Numbers<'a> {
    file: &'a [u8],
    at: usize,
}

impl Numbers<'_> {
    fn read(&mut self) -> u64 {
        match codec::read_number(self.file, self.at) {
            Some((value, next)) => {
                self.at = next;
                value
            }
            None => 0,
        }
    }
}

// A list's count and its entries. A count past the list's room stands alone: no set has it.
fn read_list(t: &mut Table, l: SetList, numbers: &mut Numbers) {
    let count = numbers.read();
    t[l.word()] = count;
    if count <= layout::ENTRIES as u64 {
        let from = l.begin();
        for word in t[from..from + count as usize * 2].iter_mut() {
            *word = numbers.read();
        }
    }
}

// The warnings: how many there are, then code, kind and, where the kind is not 0, a number. All room is read; what
// stands past the last has no meaning.
fn read_warnings(t: &mut Table, numbers: &mut Numbers) {
    t[3] = numbers.read();
    for warning in t[layout::WARNINGS_FROM..].chunks_exact_mut(3) {
        if let [code, kind, number] = warning {
            *code = numbers.read();
            *kind = numbers.read();
            if *kind != 0 {
                *number = numbers.read();
            }
        }
    }
}

// The set file that stands as a word of the text, into an empty table.
fn read_set(t: &mut Table, text: &[u8], at: usize) {
    let mut file: Bytes = [0; 4096];
    let n = sample_text::bytes::bytes_at(text, at, &mut file);
    let mut numbers = Numbers {
        file: &file[..n],
        at: 0,
    };
    for l in LISTS {
        read_list(t, l, &mut numbers);
    }
    read_warnings(t, &mut numbers);
}

// The words of a list; none where it counts more entries than it has room for.
fn words_of(t: &Table, l: SetList) -> Option<&[u64]> {
    let count = t[l.word()];
    if count > layout::ENTRIES as u64 {
        return None;
    }
    let from = l.begin();
    Some(&t[from..from + count as usize * 2])
}

// Whether two tables have the same lists, and no warning.
fn same(a: &Table, b: &Table) -> bool {
    for l in LISTS {
        let (Some(xs), Some(ys)) = (words_of(a, l), words_of(b, l)) else {
            return false;
        };
        if xs != ys {
            return false;
        }
    }
    a[3] == 0 && b[3] == 0
}

// A fold that is replayed, and how its answers were.
#[derive(Drop)]
struct Replay {
    fold: Table,
    met: u64,
    missed: u64,
    refused: u64,
}

impl Replay {
    // Whether a stored answer is the fold.
    fn is_fold(&self, text: &[u8], at: usize) -> bool {
        let mut set: Table = [0; layout::WORDS];
        read_set(&mut set, text, at);
        same(&set, &self.fold)
    }

    // What the stored answer says of the fold's, behind its line's first word: `done` and the fold, or `refused` and the
    // refusal's number.
    fn is_met(&self, answer: &[u8], folded: Result<(), Refusal>) -> bool {
        let stored = word_at(answer, word_at(answer, 0).next);
        match (stored.value, folded) {
            (b"done", Ok(())) => self.is_fold(answer, stored.next),
            (b"refused", Err(why)) => number_at(answer, stored.next).value == why.number(),
            _ => false,
        }
    }

    // The set file that stands as a word of the text is taken into the fold.
    fn join(&mut self, text: &[u8], at: usize, answer: &[u8]) {
        let mut set: Table = [0; layout::WORDS];
        read_set(&mut set, text, at);
        let folded = sets::fold(&mut self.fold, &set);
        if folded.is_err() {
            self.refused = self.refused.saturating_add(1);
        }
        if self.is_met(answer, folded) {
            self.met = self.met.saturating_add(1);
        } else {
            self.missed = self.missed.saturating_add(1);
        }
    }

    // The fold is at its end: its counts are written, and it is empty again.
    fn finish(&mut self, out: &impl Print) -> io::Result<()> {
        let [created, modified, deleted, ..] = self.fold;
        println!(out; "{created} {modified} {deleted}")?;
        self.fold[0] = 0;
        self.fold[1] = 0;
        self.fold[2] = 0;
        Ok(())
    }

    // Each line, handed on with all that follows it: a word that a line lacks is the next one's.
    fn lines(&mut self, out: &impl Print, text: &[u8]) -> io::Result<()> {
        let mut request = text;
        for line in text.split_inclusive(|b| *b == b'\n') {
            let answer = request.get(line.len()..).unwrap_or(&[]);
            let first = word_at(request, 0);
            match first.value {
                b"sets" if self.met != 0 => self.finish(out)?,
                b"join" => self.join(request, first.next, answer),
                _ => {}
            }
            request = answer;
        }
        self.finish(out)
    }
}

fn main(rt: HostRuntime) -> io::Result<()> {
    let out = Output(&rt);
    let path = std::env::args(&rt)?.nth(1);
    let text = std::fs::read(&rt, path.unwrap_or(String::new(rt.alloc())))?;
    let mut replay = Replay {
        fold: [0; layout::WORDS],
        met: 0,
        missed: 0,
        refused: 0,
    };
    replay.lines(&out, &text)?;
    println!(out; "met {}", replay.met)?;
    println!(out; "missed {}", replay.missed)?;
    println!(out; "refused {}", replay.refused)
}
