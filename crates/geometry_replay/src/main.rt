// Replays stored geometry answers: a request, which is a line that begins with `g`, then a line with its answer. Writes how many were
// met to the bit, how many were not, and how many are not asked here: functions that have no
// definition here (`add2`, `lerp2`, `dot3`, `is_finite2`), and more than 64 points.
#![tactic(auto)]

mod answer; // answer.rt: what a stored answer says
mod words; // words.rt: the words of a request
mod points; // points.rt: cases on numbers and points
mod lines; // lines.rt: cases on polylines

use answer::Outcome;
use printing::Output;
use sample_text::line_end;
use std::fs::File;
use std::io;
use std::os::unix::fs::FileExt;
use words::Words;

// The file is read a part at a time, and none is longer, however long its lines are.
const PART: usize = 65536;

// Enough parts for a file of 2^30 bytes. Nothing past these is read.
const PARTS: u64 = 16384;

// How many requests were met, missed and not asked.
type Counts = [u64; 3];

// A request and its answer, each with all that follows it in the part. In front of the name each request has one word.
fn replayed(request: &[u8], answer: &[u8]) -> Outcome {
    let mut words = Words {
        text: request,
        at: 0,
    };
    words.word();
    let name = words.name();
    let numbers = words.numbers();
    points::plane(name, numbers, answer)
        .or_else(|| points::space(name, numbers, answer))
        .or_else(|| lines::case(name, words, answer))
}

// The requests of a part, up to the first line that is not whole in it; how much of the part that is.
fn replay(part: &[u8], counts: &mut Counts) -> usize {
    let mut at = 0;
    while at < part.len() {
        let next = line_end(part, at);
        if next == part.len() {
            return at;
        }
        if part[at] == b'g' {
            let after = line_end(part, next);
            if part[after - 1] != b'\n' {
                return at;
            }
            let count = &mut counts[replayed(&part[at..], &part[next..]) as usize];
            *count = count.saturating_add(1);
            at = after;
        } else {
            at = next;
        }
    }
    at
}

// Where nothing of a part is used, the next one would be the same.
fn replay_parts(file: &File) -> io::Result<Counts> {
    let mut part = [0; PART];
    let mut counts = [0; 3];
    let mut place: u64 = 0;
    for _ in 0..PARTS {
        let size = file.read_at(&mut part, place)?;
        let used = replay(&part[..size], &mut counts);
        if used == 0 {
            break;
        }
        place = place.saturating_add(used as u64);
    }
    Ok(counts)
}

fn main(rt: HostRuntime) -> io::Result<()> {
    let out = Output(&rt);
    let path = std::env::args(&rt)?.nth(1);
    let file = File::open(&rt, path.unwrap_or(String::new(rt.alloc())))?;
    let [met, missed, others] = replay_parts(&file)?;
    println!(out; "met {met}\nmissed {missed}\nnot asked {others}")
}
