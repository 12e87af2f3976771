// Replays stored map files and set files, whole and spoilt: the request `map` or `set` with the file, the answer in the next
// line. A refused file leaves the tables as they were, one that is read is written back as the same bytes. Writes how many were
// tried, refused and accepted, and how many answers were wrong, for each part of the sample: it is read a part at a time.
#![tactic(auto)]

use file_trials::{Count, Trials, Want};
use printing::Output;
use sample_text::bytes::bytes_at;
use sample_text::word_at;
use std::io;

// Room for a stored file. A longer one is cut to it.
const ROOM: usize = 32768;

// What a stored answer asks for, behind its line's first word: `ok`, or else a refusal.
fn wanted(answer: &[u8]) -> Want {
    let word = word_at(answer, word_at(answer, 0).next);
    match word.value {
        b"ok" => Want::Accepted,
        _ => Want::Refused,
    }
}

// Every file whose request has this name. A line is read with all that follows it: a word that it lacks is the next one's.
fn stored(text: &[u8], name: &[u8], trials: &mut Trials) -> Count {
    let mut request = text;
    for line in text.split_inclusive(|b| *b == b'\n') {
        let answer = request.get(line.len()..).unwrap_or(&[]);
        let word = word_at(request, 0);
        if word.value == name {
            trials.trial_made(wanted(answer), |out| {
                let room = out.len().min(ROOM);
                bytes_at(request, word.next, &mut out[..room])
            });
        }
        request = answer;
    }
    trials.counted()
}

fn main(rt: HostRuntime) -> io::Result<()> {
    let out = Output(&rt);
    let mut maps = Trials::of_maps(rt.alloc())?;
    let mut sets = Trials::of_sets(rt.alloc())?;
    for path in std::env::args(&rt)?.skip(1) {
        let text = std::fs::read(&rt, path)?;
        println!(out; "maps: {}", stored(&text, b"map", &mut maps))?;
        println!(out; "sets: {}", stored(&text, b"set", &mut sets))?;
    }
    Ok(())
}
