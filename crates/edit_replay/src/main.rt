// Replays the oracle's stored calls and the examples of requests: each request is carried out by the proved code on lent memory, and its
// answer, change set, ends, map and running fold are compared with what stands in the next line: what the Rust gave, or what the example
// says (it has no fold). A refusal must leave every word as it was. Writes for each file how many calls were carried out and how many of
// them named ends, how many roots were asked, how often each refusal came with each detail, and how many answers were met.
#![tactic(auto)]

mod counts;
mod windows;

use call_list::Reply;
use changes::Tally;
use counts::Counts;
use printing::Output;
use request_calls::{Memory, Stored, refused_as};
use sample_text::bytes::bits_of;
use sample_text::{hex_at, word_at};
use std::alloc::{AllocError, Global};
use std::fs::File;
use std::io;
use std::num::f64_from_bits_with_nan;
use windows::Windows;

// Enough lines of a file for the sample, and more. None is longer than a window, so that no file is read past its first gibibyte.
const MOST_LINES: u64 = 16384;

// Room for a map's or a set's file.
const FILE_BYTES: usize = 65536;

// A request, from behind `>` of the examples on to the text's end; the text, and in it the place of the answer.
#[derive(Clone, Copy)]
struct Exchange<'a> {
    request: &'a [u8],
    text: &'a [u8],
    at: usize,
}

impl<'a> Exchange<'a> {
    // The text's first line with the one after it, which starts at `next`.
    fn new(text: &'a [u8], next: usize) -> Exchange<'a> {
        let word = word_at(text, 0);
        let from = match word.value {
            b">" => word.next,
            _ => 0,
        };
        Exchange {
            request: text.get(from..).unwrap_or(&[]),
            text,
            at: word_at(text, next).next,
        }
    }

    fn is_ok(&self) -> bool {
        matches!(word_at(self.text, self.at).value, b"ok")
    }

    // What stands behind the answer's sign.
    fn stored(&self) -> Stored<'a> {
        Stored {
            text: self.text,
            at: self.at,
        }
    }

    // What was asked for: in the examples it stands behind `ok`.
    fn told(&self) -> Stored<'a> {
        let at = if self.is_ok() {
            word_at(self.text, self.at).next
        } else {
            self.at
        };
        Stored {
            text: self.text,
            at,
        }
    }
}

// Whether the stored root of a pattern is that of both forms, on patterns and on doubles.
fn root_as(exchange: Exchange<'_>, at: usize) -> bool {
    let told = exchange.told();
    let stored = hex_at(told.text, told.at);
    let x = hex_at(exchange.request, at).value;
    let y = stored.value;
    let rest = Stored {
        text: told.text,
        at: stored.next,
    };
    let root = root::square_root(f64_from_bits_with_nan(x));
    root::square_root_bits(x) == y && bits_of(root) == y && rest.is_over()
}

fn tally_as(mut stored: Stored<'_>, tally: Tally) -> bool {
    stored.number(tally.created);
    stored.number(tally.modified);
    stored.number(tally.deleted);
    stored.is_over()
}

// The run of a file.
#[derive(Drop)]
struct Replay {
    memory: Memory,
    counts: Counts,
}

impl Replay {
    // An edit: carried out, counted and compared. A refusal leaves the memory as it was.
    fn edit(&mut self, exchange: Exchange<'_>) -> Result<(), AllocError> {
        let before = self.memory.checksum();
        let r = self.memory.carry(exchange.request, 0);
        if r.what != 0 {
            let is_altered = self.memory.checksum() != before;
            self.counts.add_refusal(r)?;
            self.counts.add_altered(is_altered);
            let is_met = !is_altered && refused_as(exchange.text, exchange.at, r);
            self.counts.add_answer(is_met);
            return Ok(());
        }
        self.counts.add_call(word_at(exchange.request, 0).value);
        self.counts.add_ends(r.ends.is_some());
        let is_met = self
            .memory
            .done_as(exchange.request, exchange.text, exchange.at, r);
        self.counts.add_answer(is_met);
        Ok(())
    }

    // A map file: a run begins.
    fn open(&mut self, exchange: Exchange<'_>, at: usize) {
        let r = self.memory.open(exchange.request, at);
        let is_met = if r.what == 0 {
            self.counts.add_run();
            exchange.is_ok()
        } else {
            refused_as(exchange.text, exchange.at, r)
        };
        self.counts.add_answer(is_met);
    }

    // The map's file.
    fn map(&mut self, mut told: Stored<'_>) {
        let memory = &mut self.memory;
        told.map(&memory.words, &memory.coords, &mut memory.buffer);
        self.counts.add_answer(told.is_over());
    }

    // The running fold's.
    fn fold(&mut self, mut told: Stored<'_>) {
        told.set(&self.memory.fold, &mut self.memory.buffer);
        self.counts.add_answer(told.is_over());
    }

    // One request. What asks for none of these is passed over.
    fn line(&mut self, exchange: Exchange<'_>) -> Result<(), AllocError> {
        let word = word_at(exchange.request, 0);
        match word.value {
            b"map" => self.open(exchange, word.next),
            b"line" | b"light" | b"links" => return self.edit(exchange),
            b"file" | b"dump" => self.map(exchange.told()),
            b"fold" => self.fold(exchange.told()),
            b"tally" => {
                let is_met = tally_as(exchange.stored(), self.memory.tally);
                self.counts.add_answer(is_met);
            }
            b"root" => {
                self.counts.add_root();
                self.counts.add_answer(root_as(exchange, word.next));
            }
            _ => {}
        }
        Ok(())
    }
}

// The lines of a file, each in the window that begins with it.
fn play(alloc: Global, file: &File) -> io::Result<Counts> {
    let mut replay = Replay {
        memory: Memory::with_room(alloc, FILE_BYTES)?,
        counts: Counts::new(alloc),
    };
    let mut windows = Windows::new(alloc, file)?;
    for _ in 0..MOST_LINES {
        let text = windows.window()?;
        let Some(line) = text.split_inclusive(|b| *b == b'\n').next() else {
            break;
        };
        let next = line.len();
        replay.line(Exchange::new(text, next))?;
        windows.pass(next);
    }
    let Replay { counts, .. } = replay;
    Ok(counts)
}

fn main(rt: HostRuntime) -> io::Result<()> {
    let out = Output(&rt);
    for path in std::env::args(&rt)?.skip(1) {
        let file = File::open(&rt, path.as_str())?;
        println!(out; "{path}")?;
        print!(out; "{}", play(rt.alloc(), &file)?)?;
    }
    Ok(())
}
