// Lines behind `=`: an answer that is expected, beside the one that came.
use crate::notation::{Line, print_place};
use crate::state::{Due, State};
use call_list::Reply;
use place::{EndName, SectionNames};
use request_calls::{Memory, Stored, Told, refused_as};
use std::{fmt, io};

// Where an expectation's name stands.
const NAME: usize = 2;

// The ends behind the set's bytes; a line that says nothing of them expects none in particular.
fn as_named(mut stored: Stored<'_>, r: Reply) -> bool {
    if stored.is_over() {
        return true;
    }
    stored.ends(r.ends);
    stored.is_over()
}

// What stands behind the word `done`, if that is the word that stands there.
fn after_done(line: Line<'_>, at: usize) -> Option<Stored<'_>> {
    match line.word(at) {
        b"done" => Some(stored(line, at.saturating_add(5))),
        _ => None,
    }
}

fn stored(line: Line<'_>, at: usize) -> Stored<'_> {
    Stored {
        text: line.text,
        at,
    }
}

// `done`, the number of the record, the set's bytes and the ends, or the refusal.
fn as_answered(line: Line<'_>, at: usize, r: Reply, memory: &mut Memory) -> bool {
    if r.what != 0 {
        return refused_as(line.text, at, r);
    }
    let Some(mut stored) = after_done(line, at) else {
        return false;
    };
    stored.number(r.number);
    stored.set(&memory.set, &mut memory.buffer);
    as_named(stored, r)
}

fn as_fold(mut stored: Stored<'_>, memory: &mut Memory) -> bool {
    stored.set(&memory.fold, &mut memory.buffer);
    stored.is_over()
}

// Whether what came is what stands from `at` on.
fn as_written(line: Line<'_>, at: usize, state: &mut State) -> bool {
    match state.due {
        Due::Answer(r) | Due::Refused(r) => as_answered(line, at, r, &mut state.memory),
        Due::Fold => as_fold(stored(line, at), &mut state.memory),
        Due::Opened => after_done(line, at).is_some_and(|stored| stored.is_over()),
        Due::Nothing | Due::Unread => false,
    }
}

// Bytes in pairs of hexadecimal digits.
#[derive(Clone, Copy)]
struct Hex<'a>(&'a [u8]);

impl fmt::Display for Hex<'_> {
    fn fmt<W: fmt::Write>(&self, f: &mut fmt::Formatter<W>) -> fmt::Result {
        for b in self.0 {
            write!(f, "{b:02x}")?;
        }
        Ok(())
    }
}

// A set's file.
fn print_set(rt: &impl Print, set: &[u64], buffer: &mut [u8]) -> io::Result<()> {
    match files::write_changes(set, buffer) {
        Ok(n) => print!(rt; "{}", Hex(buffer.get(..n).unwrap_or(&[]))),
        Err(_) => Ok(()),
    }
}

fn print_end(rt: &impl Print, end: EndName) -> io::Result<()> {
    print!(rt; " {} {}", end.lane, end.side as u8)
}

fn print_ends(rt: &impl Print, ends: Option<SectionNames>) -> io::Result<()> {
    let Some(names) = ends else {
        return print!(rt; " -");
    };
    print!(rt; " +")?;
    print_end(rt, names.left)?;
    print_end(rt, names.right)
}

fn print_answer(rt: &impl Print, r: Reply, set: &[u64], buffer: &mut [u8]) -> io::Result<()> {
    print!(rt; "{}", Told(r))?;
    if r.what != 0 {
        return Ok(());
    }
    print!(rt; " ")?;
    print_set(rt, set, buffer)?;
    print_ends(rt, r.ends)
}

// What came, in the notation of expectations.
fn print_came(rt: &impl Print, state: &mut State) -> io::Result<()> {
    let memory = &mut state.memory;
    match state.due {
        Due::Answer(r) | Due::Refused(r) => print_answer(rt, r, &memory.set, &mut memory.buffer),
        Due::Fold => print_set(rt, &memory.fold, &mut memory.buffer),
        Due::Opened => print!(rt; "done"),
        Due::Nothing | Due::Unread => print!(rt; "no answer"),
    }
}

// An expectation that was not met, beside what came.
fn print_unmet(rt: &impl Print, line: Line<'_>, state: &mut State) -> io::Result<()> {
    let name = line.word(NAME);
    print!(rt; "  ")?;
    print_place(rt, line)?;
    rt.write_all(name)?;
    print!(rt; " NOT AS EXPECTED\n    expected: ")?;
    match line.rest(after(name)) {
        [] => println!(rt; "nothing")?,
        answer => rt.write_all(answer)?,
    }
    print!(rt; "    came: ")?;
    print_came(rt, state)?;
    println!(rt)
}

fn print_met(rt: &impl Print, line: Line<'_>) -> io::Result<()> {
    print!(rt; "  ")?;
    rt.write_all(line.word(NAME))?;
    println!(rt; " as expected")
}

// Where the answer behind a name starts.
fn after(name: &[u8]) -> usize {
    name.len().saturating_add(NAME + 1)
}

// The line behind `=`.
pub fn expectation(rt: &impl Print, line: Line<'_>, state: &mut State) -> io::Result<()> {
    if let Due::Nothing = state.due {
        state.judge(false);
        print_place(rt, line)?;
        return println!(rt; "an expectation, and no answer stands before it");
    }
    if line.bytes.len() <= NAME + 1 {
        state.judge(false);
        print_place(rt, line)?;
        return println!(rt; "an expectation without a name");
    }
    let answer = after(line.word(NAME));
    let is_met = !line.rest(answer).is_empty() && as_written(line, answer, state);
    if is_met {
        print_met(rt, line)?;
    } else {
        print_unmet(rt, line, state)?;
    }
    state.judge(is_met);
    Ok(())
}
