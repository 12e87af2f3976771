// Refusals in their order: each case is a call, a reading or a writing with two faults at once, or with one, and the refusal that document
// 01 puts first is the answer. After a refusal the lent memory is as it was. Writes a line for each case.
//
// Beside the oracle's requests the cases have some that spoil what is lent: `word` and `coord` (of the map's tables), `entry` (of the
// running fold), each with an index and what stands there then; `tallied` with three counts; `folded` with a set file that
// becomes the fold; `short` with a sum of 1, 2, 4 and 8 for words, coords, fold and set lent one too short. `row` puts a number into a
// word of the request's row; `list` makes the request a list of calls, with how many words of the row and how many words for answers
// are lent. And files: `read` (a map file), `set` (a set file), `write` and `give` (the map's file and the fold's, into that many bytes).
#![tactic(auto)]

ghost use Rattle.std.specs.Prelude.{◌≤◌, length};

use call_list::Reply;
use changes::Tally;
use printing::Output;
use refusal::Refusal;
use request_calls::{Call, Lent, Memory, Stored, Told, refused_as, reply, reply_in};
use sample_text::{bytes, double_at, number_at, word_at};
use std::io;

// The answer that stands for memory which a refusal altered. An answer is a number here, as in the lists of calls that C lends and in the
// stored samples that it is compared with.
const ALTERED: u64 = 16;

// Room for a file.
const FILE_BYTES: usize = 65536;

// What is spoilt in the present case.
#[derive(Clone, Copy)]
struct Case {
    // what is lent one too short: a sum of 1, 2, 4 and 8
    short: u64,
    // a word of the row, and what stands there
    word: Option<(u64, u64)>,
    // of a list of calls: how many words of the row, and how many for answers
    list: Option<(u64, u64)>,
}

const WHOLE: Case = Case {
    short: 0,
    word: None,
    list: None,
};

// Before the first case, a word of 0 in each row: it is no call.
const NO_CASE: Case = Case {
    short: 0,
    word: Some((0, 0)),
    list: None,
};

// What stands in a text from there on.
fn behind(text: &[u8], at: usize) -> &[u8] {
    text.get(at..).unwrap_or(&[])
}

// ---- the fields of a line, behind its first word

fn two_numbers(fields: &[u8]) -> (u64, u64) {
    let first = number_at(fields, 0);
    (first.value, number_at(fields, first.next).value)
}

fn stated_tally(fields: &[u8]) -> Tally {
    let created = number_at(fields, 0);
    let modified = number_at(fields, created.next);
    let deleted = number_at(fields, modified.next);
    Tally {
        created: created.value,
        modified: modified.value,
        deleted: deleted.value,
    }
}

fn put<T: Drop>(table: &mut [T], i: u64, value: T) {
    if let Some(slot) = table.get_mut(i as usize) {
        *slot = value;
    }
}

// What is lent of a table: all, or one less.
fn shorter<T>(table: &mut [T], is_short: bool) -> &mut [T]
    ensures { length result.now ≤ length table.old }
{
    let n = table.len().saturating_sub(is_short as usize);
    &mut table[..n]
}

// As much of a table as is asked for.
fn first<T>(table: &[T], n: u64) -> &[T]
    ensures { (length result.now ≤ length table.now) × (length result.now ≤ n) }
{
    table.get(..n as usize).unwrap_or(table)
}

fn first_mut<T>(table: &mut [T], n: u64) -> &mut [T]
    ensures { (length result.now ≤ length table.old) × (length result.now ≤ n) }
{
    let n = table.len().min(n as usize);
    &mut table[..n]
}

// A set file that is read into a table.
fn read_set(fields: &[u8], buffer: &mut [u8], set: &mut [u64]) -> Reply {
    let size = bytes::bytes_at(fields, 0, buffer);
    match files::read_changes(buffer.get(..size).unwrap_or(&[]), set) {
        Ok(()) => reply(0),
        Err(why) => reply(why.number()),
    }
}

// What became of a buffer whose hash was another's before: a refused writing must leave it alone.
fn written(buffer: &[u8], before: u64, written: Result<usize, Refusal>) -> Reply {
    match written {
        Ok(size) => Reply {
            number: size as u64,
            ..reply(0)
        },
        Err(_) if bytes::hash(buffer) != before => reply(ALTERED),
        Err(why) => reply(why.number()),
    }
}

// A list of one row, or of less: the answer of its row, 0 without rows, or why nothing was carried out.
fn carry_list(lent: &mut Lent<'_>, call: &Call, row: u64, room: u64) -> Reply {
    let mut answers = [0; call_list::ANSWER];
    let ran = runs::run_calls(
        lent.words,
        lent.coords,
        lent.fold,
        *lent.tally,
        lent.set,
        first(&call.row, row),
        &call.lists,
        &call.reals,
        first_mut(&mut answers, room),
    );
    *lent.tally = ran.tally;
    match ran.ran {
        Err(why) => reply(why.number()),
        Ok(0) => reply(0),
        Ok(_) => reply_in(&answers),
    }
}

// The memory that is lent, what is spoilt in the present case, and how many cases were met and missed.
#[derive(Drop)]
struct Run {
    memory: Memory,
    case: Case,
    met: u64,
    missed: u64,
}

impl Run {
    // An edit: a call of its own, or a list of calls.
    fn edit(&mut self, text: &[u8]) -> Reply {
        let short = self.case.short;
        let mut lent = Lent {
            words: shorter(&mut self.memory.words, short & 1 != 0),
            coords: shorter(&mut self.memory.coords, short & 2 != 0),
            fold: shorter(&mut self.memory.fold, short & 4 != 0),
            tally: &mut self.memory.tally,
            set: shorter(&mut self.memory.set, short & 8 != 0),
        };
        let mut call = Call::read(text, 0);
        if let Some((i, value)) = self.case.word {
            put(&mut call.row, i, value);
        }
        match self.case.list {
            Some((row, room)) => carry_list(&mut lent, &call, row, room),
            None => lent.carry(&call),
        }
    }

    fn read(&mut self, fields: &[u8]) -> Reply {
        let memory = &mut self.memory;
        let size = bytes::bytes_at(fields, 0, &mut memory.buffer);
        let file = memory.buffer.get(..size).unwrap_or(&[]);
        match files::read_map(file, &mut memory.words, &mut memory.coords) {
            Ok(()) => reply(0),
            Err(why) => reply(why.number()),
        }
    }

    fn write(&mut self, fields: &[u8]) -> Reply {
        let memory = &mut self.memory;
        let before = bytes::hash(&memory.buffer);
        let room = first_mut(&mut memory.buffer, number_at(fields, 0).value);
        let map = files::write_map(&memory.words, &memory.coords, room);
        written(&memory.buffer, before, map)
    }

    fn give(&mut self, fields: &[u8]) -> Reply {
        let memory = &mut self.memory;
        let before = bytes::hash(&memory.buffer);
        let room = first_mut(&mut memory.buffer, number_at(fields, 0).value);
        let fold = files::write_changes(&memory.fold, room);
        written(&memory.buffer, before, fold)
    }

    fn asked(&mut self, text: &[u8]) -> Reply {
        let word = word_at(text, 0);
        let fields = behind(text, word.next);
        match word.value {
            b"line" | b"light" | b"links" => self.edit(text),
            b"read" => self.read(fields),
            b"set" => read_set(fields, &mut self.memory.buffer, &mut self.memory.set),
            b"write" => self.write(fields),
            _ => self.give(fields),
        }
    }

    // The same, with another answer where a refusal altered what was lent.
    fn asked_kept(&mut self, text: &[u8]) -> Reply {
        let before = self.memory.checksum();
        let r = self.asked(text);
        if r.what != 0 && self.memory.checksum() != before {
            return reply(ALTERED);
        }
        r
    }

    // The answer, beside the one that is expected.
    fn judge(&mut self, rt: &impl Print, answers: &[u8], at: usize, r: Reply) -> io::Result<()> {
        print!(rt; ": expected ")?;
        rt.write_all(first_line(behind(answers, at)))?;
        print!(rt; ", answered {}", Told(r))?;
        if is_met(answers, at, r) {
            self.met = self.met.saturating_add(1);
            println!(rt; ", ok")
        } else {
            self.missed = self.missed.saturating_add(1);
            println!(rt; ", MISSED")
        }
    }

    // A set file becomes the fold, with its counts as the tally.
    fn folded(&mut self, fields: &[u8]) {
        let memory = &mut self.memory;
        read_set(fields, &mut memory.buffer, &mut memory.fold);
        if let [created, modified, deleted, ..] = memory.fold.as_slice() {
            memory.tally = Tally {
                created: *created,
                modified: *modified,
                deleted: *deleted,
            };
        }
    }

    // A line that spoils what is lent, or tells a case's name.
    fn prepare(&mut self, rt: &impl Print, text: &[u8]) -> io::Result<()> {
        let word = word_at(text, 0);
        let fields = behind(text, word.next);
        let (i, value) = two_numbers(fields);
        match word.value {
            b"case" => {
                self.case = WHOLE;
                rt.write_all(first_line(fields))?;
            }
            b"word" => put(&mut self.memory.words, i, value),
            b"coord" => {
                let index = number_at(fields, 0);
                let value = double_at(fields, index.next).value;
                put(&mut self.memory.coords, i, value);
            }
            b"entry" => put(&mut self.memory.fold, i, value),
            b"short" => self.case.short = i,
            b"row" => self.case.word = Some((i, value)),
            b"list" => self.case.list = Some((i, value)),
            b"tallied" => self.memory.tally = stated_tally(fields),
            b"folded" => self.folded(fields),
            b"map" => {
                self.memory.open(text, word.next);
            }
            _ => {}
        }
        Ok(())
    }

    // A line, with the lines after it: a request where an answer follows.
    fn line(&mut self, rt: &impl Print, text: &[u8], after: &[u8]) -> io::Result<()> {
        let sign = word_at(after, 0);
        if !matches!(sign.value, b"=") {
            return self.prepare(rt, text);
        }
        let r = self.asked_kept(text);
        self.judge(rt, after, sign.next, r)
    }
}

// The first line without its last byte: the line's end, or where there is none, the last letter.
fn first_line(text: &[u8]) -> &[u8] {
    match text.split_inclusive(|b| *b == b'\n').next() {
        Some([line @ .., _]) => line,
        _ => text,
    }
}

// Whether an answer is the one that is stored at a place.
fn is_met(answers: &[u8], at: usize, r: Reply) -> bool {
    if r.what != 0 {
        return refused_as(answers, at, r);
    }
    let word = word_at(answers, at);
    let mut stored = Stored {
        text: answers,
        at: word.next,
    };
    stored.number(r.number);
    matches!(word.value, b"done") && stored.is_over()
}

fn main(rt: HostRuntime) -> io::Result<()> {
    let out = Output(&rt);
    let path = std::env::args(&rt)?
        .nth(1)
        .unwrap_or(String::new(rt.alloc()));
    let text = std::fs::read(&rt, path)?;
    let mut run = Run {
        memory: Memory::with_room(rt.alloc(), FILE_BYTES)?,
        case: NO_CASE,
        met: 0,
        missed: 0,
    };
    let mut rest = text.as_slice();
    for line in text.split_inclusive(|b| *b == b'\n') {
        let after = behind(rest, line.len());
        run.line(&out, rest, after)?;
        rest = after;
    }
    println!(out; "met {}\nmissed {}", run.met, run.missed)
}
