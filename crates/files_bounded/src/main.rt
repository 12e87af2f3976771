// Map files and set files at the ceilings and the edges of the map, and past them. A file is refused and the tables stay as they
// were, or it is read and written back as the same bytes. Writes for each class how many files were tried, refused and accepted,
// and how many answers were wrong.
#![tactic(auto)]

use file_trials::Trials;
use printing::Output;
use std::io;

fn main(rt: HostRuntime) -> io::Result<()> {
    let out = Output(&rt);
    let mut maps = Trials::of_maps(rt.alloc())?;
    let count = file_ceilings::maps(&mut maps);
    println!(out; "maps at a ceiling and past it: {count}")?;
    let count = file_ceilings::points_in_all(&mut maps);
    println!(out; "maps of 1,024 points and more: {count}")?;
    let count = file_edges::worked(&mut maps);
    println!(out; "coordinates at an edge and past it: {count}")?;
    let count = file_edges::signal(&mut maps);
    println!(out; "heights and bulbs at an edge and past it: {count}")?;
    let count = file_ceilings::sets(&mut Trials::of_sets(rt.alloc())?);
    println!(out; "sets at a ceiling and past it: {count}")
}
