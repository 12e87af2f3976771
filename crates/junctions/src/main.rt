// What a person reads: two junctions drawn in both orders, and document 01's worked crossings, carried out by the proved code; or the
// lines of any file in the same notation (docs/JUNCTIONS.md). For each call: what was asked, the answer, the change set; on request the
// running fold, the tally and the map. Where an answer is expected, whether it came. The last line is `ok`, or how many did not.
#![tactic(auto)]

mod expected;
mod notation;
mod state;

use call_list::Reply;
use notation::{Command, Line, print_blank, print_fault, print_place, print_quoted};
use place::{EndName, LaneSide, SectionNames};
use printing::answers::{Answer, End, Refusal, Side};
use printing::map::Map;
use printing::requests::Request;
use printing::sets::{ChangeSet, Tally};
use printing::{Entry, Kind, Output};
use request_calls::{Call, reply};
use state::{Due, State};
use std::alloc::Global;
use std::fs::File;
use std::io;
use std::io::{ErrorKind, Read};
use std::rt::Files;

// How many bytes a file may have.
const MOST: usize = 262144;

// The rest of a line, with its end. Behind a `say` with no blank stands the next line.
fn say(rt: &impl Print, line: Line<'_>) -> io::Result<()> {
    let behind = line.text.get(4..).unwrap_or(&[]);
    let rest = behind.split_inclusive(|b| *b == b'\n').next();
    rt.write_all(rest.unwrap_or(behind))
}

// The request in words.
fn print_request(rt: &impl Print, line: Line<'_>) -> io::Result<()> {
    let call = Call::read(line.text, 0);
    let request = Request {
        row: &call.row,
        lists: &call.lists,
        reals: &call.reals,
    };
    println!(rt; "{request}")
}

// A line that wants a map, and none is open.
fn print_not_open(rt: &impl Print, line: Line<'_>) -> io::Result<()> {
    print!(rt; "  ")?;
    print_place(rt, line)?;
    println!(rt; "not carried out, no map is open")
}

// An edit's answer in words; it answers with a record of this kind. Numbers above the refusals' stand for no call.
fn in_words(kind: Kind, r: Reply) -> Answer {
    match r.what {
        0 => Answer::Done(Entry {
            kind,
            number: r.number,
        }),
        1..15 => Answer::Refused(Refusal {
            number: r.what,
            detail: r.detail,
            second: r.second,
        }),
        _ => Answer::NoCall,
    }
}

fn end(name: EndName) -> End {
    End {
        lane: name.lane,
        side: match name.side {
            LaneSide::Left => Side::Left,
            LaneSide::Right => Side::Right,
        },
    }
}

// The ends of a line, where they are named.
fn print_ends(rt: &impl Print, ends: Option<SectionNames>) -> io::Result<()> {
    let Some(names) = ends else {
        return Ok(());
    };
    println!(rt; "  left end: {}", end(names.left))?;
    println!(rt; "  right end: {}", end(names.right))
}

// An edit, carried out.
fn edit(rt: &impl Print, line: Line<'_>, kind: Kind, state: &mut State) -> io::Result<()> {
    let r = state.memory.carry(line.text, 0);
    state.due = Due::Answer(r);
    let answer = in_words(kind, r);
    println!(rt; "{answer}")?;
    match answer {
        Answer::Done(_) => {
            print_ends(rt, r.ends)?;
            print!(rt; "{}", ChangeSet(&state.memory.set))
        }
        Answer::Refused(_) => Ok(()),
        Answer::NoCall => {
            state.due = Due::Refused(reply(255));
            print!(rt; "    ")?;
            print_place(rt, line)?;
            println!(rt; "a number is none of its cases, or a list is too long")
        }
    }
}

fn edit_line(rt: &impl Print, line: Line<'_>, kind: Kind, state: &mut State) -> io::Result<()> {
    print_request(rt, line)?;
    if !state.is_open {
        state.due = Due::Refused(reply(12));
        return print_not_open(rt, line);
    }
    edit(rt, line, kind, state)
}

// A map file, opened: a run begins.
fn open(rt: &impl Print, line: Line<'_>, state: &mut State) -> io::Result<()> {
    let r = state.memory.open(line.text, 4);
    state.is_open = r.what == 0;
    if state.is_open {
        state.due = Due::Opened;
        return Ok(());
    }
    state.due = Due::Refused(r);
    print_place(rt, line)?;
    println!(rt;
        "no map: the file is refused (12, bad map), and nothing more is carried out up to the next map"
    )
}

fn fold(rt: &impl Print, line: Line<'_>, state: &mut State) -> io::Result<()> {
    println!(rt; "running fold")?;
    if !state.is_open {
        state.due = Due::Refused(reply(12));
        return print_not_open(rt, line);
    }
    state.due = Due::Fold;
    print!(rt; "{}", ChangeSet(&state.memory.fold))
}

// The running fold, the tally and the map.
fn show(rt: &impl Print, line: Line<'_>, state: &mut State) -> io::Result<()> {
    if !state.is_open {
        state.due = Due::Unread;
        println!(rt; "map")?;
        return print_not_open(rt, line);
    }
    let tally = Tally {
        created: state.memory.tally.created,
        modified: state.memory.tally.modified,
        deleted: state.memory.tally.deleted,
    };
    let map = Map {
        words: &state.memory.words,
        coords: &state.memory.coords,
    };
    print!(rt;
        "running fold\n{}{tally}\nmap\n{map}",
        ChangeSet(&state.memory.fold)
    )
}

// A line whose first word is none of the words of the notation.
fn print_unknown(rt: &impl Print, line: Line<'_>) -> io::Result<()> {
    print_place(rt, line)?;
    match line.bytes.first() {
        Some(b) if *b <= b' ' => print_blank(rt, *b),
        _ => {
            print!(rt; "unknown word ")?;
            print_quoted(rt, line, 0)?;
            println!(rt)
        }
    }
}

fn carry_out(
    rt: &impl Print,
    command: Command,
    line: Line<'_>,
    state: &mut State,
) -> io::Result<()> {
    if command == Command::Map {
        state.is_open = false;
    }
    if let Err(fault) = notation::check(command, line) {
        state.due = Due::Unread;
        return print_fault(rt, line, fault);
    }
    match command {
        Command::Map => open(rt, line, state),
        Command::Line => edit_line(rt, line, Kind::StopLine, state),
        Command::Light => edit_line(rt, line, Kind::Signal, state),
        Command::Links => edit_line(rt, line, Kind::Rule, state),
        Command::Fold => fold(rt, line, state),
        Command::Show => show(rt, line, state),
    }
}

// A line; an empty one and a note are passed over.
fn carry_out_line(rt: &impl Print, line: Line<'_>, state: &mut State) -> io::Result<()> {
    if let [b'\n' | b'#', ..] = line.bytes {
        return Ok(());
    }
    let word = line.word(0);
    if let b"=" = word {
        return expected::expectation(rt, line, state);
    }
    state.settle();
    if let b"say" = word {
        return say(rt, line);
    }
    match Command::named(word) {
        Some(command) => carry_out(rt, command, line, state),
        None => {
            state.due = Due::Unread;
            print_unknown(rt, line)
        }
    }
}

// The lines of a text: how many answers were not as expected.
fn play(rt: &impl Print, alloc: Global, text: &[u8]) -> io::Result<u64> {
    let mut state = State::new(alloc)?;
    let mut rest = text;
    for (number, bytes) in (1..=u64::MAX).zip(text.split_inclusive(|b| *b == b'\n')) {
        let line = Line {
            text: rest,
            bytes,
            number,
        };
        carry_out_line(rt, line, &mut state)?;
        rest = rest.get(bytes.len()..).unwrap_or(&[]);
    }
    state.settle();
    Ok(state.wrong)
}

// A file that nothing can be carried out of.
fn no_text(rt: &impl Print, path: &str, why: &str) -> io::Result<u64> {
    println!(rt; "{path}: {why}")?;
    Ok(1)
}

// The bytes of a file, up to one more than it may have. What cannot be read ends the file.
fn read(alloc: Global, file: impl Read + Drop) -> io::Result<Vec<u8>> {
    let mut text = Vec::new(alloc);
    match file.take(MOST as u64 + 1).read_to_end(&mut text) {
        Err(why) if why.kind() == ErrorKind::OutOfMemory => Err(why),
        _ => Ok(text),
    }
}

fn run(rt: &(impl Files + AllocGlobal), out: &impl Print, path: &str) -> io::Result<u64> {
    if path.is_empty() {
        println!(out; "name the file that is to be carried out: junctions FILE")?;
        return Ok(1);
    }
    let file = match File::open(rt, path) {
        Ok(file) => file,
        Err(why) if why.kind() == ErrorKind::NotFound => {
            return no_text(out, path, "there is no such file");
        }
        Err(_) => return no_text(out, path, "the file cannot be opened"),
    };
    let mut text = read(rt.alloc(), file)?;
    if text.is_empty() {
        return no_text(out, path, "the file is empty, or cannot be read");
    }
    if text.len() > MOST {
        return no_text(
            out,
            path,
            "the file is longer than 262144 bytes, and nothing of it is carried out",
        );
    }
    if !text.ends_with(b"\n") {
        text.push(b'\n')?;
    }
    play(out, rt.alloc(), &text)
}

fn main(rt: HostRuntime) -> io::Result<()> {
    let out = Output(&rt);
    let path = std::env::args(&rt)?
        .nth(1)
        .unwrap_or(String::new(rt.alloc()));
    match run(&rt, &out, path.as_str())? {
        0 => println!(out; "ok"),
        wrong => println!(out; "NOT AS EXPECTED: {wrong}"),
    }
}
