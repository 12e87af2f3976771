// Map files and set files damaged in many ways. A file is refused and the tables stay as they were, or it is read and written
// back as the same bytes. Writes for each class how many files were tried, refused and accepted, and
// how many answers were wrong.
#![tactic(auto)]

use file_damages::{Damage, damaged};
use file_trials::{ROOM, Trials};
use printing::Output;
use std::io;

// The files that are made, by their numbers.
const MAPS: [(u64, &str); 3] = [(0, "worked map"), (1, "map of all kinds"), (2, "full map")];

const SETS: [(u64, &str); 2] = [(3, "worked set"), (4, "full set")];

// Every class of damage of one file.
fn damage_file(rt: &impl Print, name: &str, file: &[u8], trials: &mut Trials) -> io::Result<()> {
    println!(rt; "{name}, bytes {}", file.len())?;
    for damage in (0..5).map(Damage::from) {
        println!(rt; "  {damage}: {}", damaged(damage, file, trials))?;
    }
    Ok(())
}

fn damage_files(
    rt: &impl Print,
    files: &[(u64, &str)],
    room: &mut [u8],
    trials: &mut Trials,
) -> io::Result<()> {
    for (k, name) in files {
        let size = made_files::made(room, *k);
        damage_file(rt, name, room.get(..size).unwrap_or(&[]), trials)?;
    }
    Ok(())
}

fn main(rt: HostRuntime) -> io::Result<()> {
    let out = Output(&rt);
    let mut room = vec![in rt.alloc(); 0; ROOM]?;
    damage_files(&out, &MAPS, &mut room, &mut Trials::of_maps(rt.alloc())?)?;
    damage_files(&out, &SETS, &mut room, &mut Trials::of_sets(rt.alloc())?)
}
