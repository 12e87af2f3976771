// Fills tables to every ceiling and one past each, edits, and prints what it reads back.
#![tactic(auto)]

ghost use Rattle.std.specs.Prelude.{◌≡◌, ◌-◌, ◌^◌, ◌<◌, ◌≤◌, length};
ghost use Rattle.store.specs.Kinds.{kind_number};
ghost use Rattle.store.specs.Layout.{Sized, count_of, next_of, limit_of, width_of, coord_width_of};

use printing::Output;
use std::io;
use store::Kind;

// The points of what is added: 2 points, 4 points, a signal's height and its bulbs' places, a crosswalk's edges.
const TWO: [f64; 6] = [1.5; 6];

const FOUR: [f64; 12] = [2.5; 12];

const MORE: [f64; 13] = [3.5; 13];

const EDGES: [f64; 576] = [4.5; 576];

// What is told of the tables: the next number, the counts, and the numbers of the last rows that there is room for.
const COUNTS: [(&str, usize); 12] = [
    ("next", 0),
    ("lanes", 1),
    ("  last", 511),
    ("boundaries", 2),
    ("  last", 773),
    ("lines", 3),
    ("  last", 901),
    ("signals", 4),
    ("  last", 1722),
    ("crosswalks", 5),
    ("  last", 1890),
    ("rules", 6),
];

// Of the rule at 13395, the last but two that there is room for: its number, its lists' counts and their last entries.
const LISTS: [(&str, usize); 7] = [
    ("  rule", 13395),
    ("  lanes", 13402),
    ("  last lane", 13418),
    ("  crosswalks", 13419),
    ("  last crosswalk", 13435),
    ("  signals", 13436),
    ("  last signal", 13452),
];

// A row of kind k more, with its coordinates.
fn put_row(words: &mut [u64], coords: &mut [f64], k: Kind, row: &[u64], part: &[f64])
    requires { Sized words.old coords.old × (count_of words.old (kind_number k) < limit_of (kind_number k)) × (next_of words.old < 2 ^ 64 - 1) × (length row.now ≡ width_of (kind_number k)) × (length part.now ≤ coord_width_of (kind_number k)) }
{
    let n = store::count(words, k);
    let number = store::next(words);
    store::put_coords(coords, k, n, 0, part);
    store::push_row(words, k, row);
    store::set_next(words, number + 1);
}

// The same, where there is room and a number.
fn add_sized(words: &mut [u64], coords: &mut [f64], k: Kind, row: &[u64], part: &[f64]) -> bool
    requires { Sized words.old coords.old }
{
    if k.limit() <= store::count(words, k) {
        return false;
    }
    if store::next(words) == u64::MAX {
        return false;
    }
    if row.len() != k.width() {
        return false;
    }
    if k.coord_width() < part.len() {
        return false;
    }
    put_row(words, coords, k, row, part);
    true
}

// The same in tables of a map.
fn add_row(words: &mut [u64], coords: &mut [f64], k: Kind, row: &[u64], part: &[f64]) -> bool {
    if !validity::is_map(words, coords) {
        return false;
    }
    add_sized(words, coords, k, row, part)
}

// A stop line more, where there is room and a number.
fn add_line(words: &mut [u64], coords: &mut [f64], points: &[f64]) -> bool {
    if !validity::is_map(words, coords) {
        return false;
    }
    if 64 <= store::count(words, Kind::StopLine) {
        return false;
    }
    if store::next(words) == u64::MAX {
        return false;
    }
    if 192 < points.len() {
        return false;
    }
    map::update::push_line(words, coords, points);
    true
}

// A signal with a height and four bulbs more, where there is room and a number.
fn signal_sized(words: &mut [u64], coords: &mut [f64], points: &[f64], more: &[f64]) -> bool
    requires { Sized words.old coords.old }
{
    if 64 <= store::count(words, Kind::Signal) {
        return false;
    }
    if store::next(words) == u64::MAX {
        return false;
    }
    if 192 < points.len() {
        return false;
    }
    if more.len() != 13 {
        return false;
    }
    let number = map::update::fresh(words);
    let n = (points.len() / 3) as u64;
    let row = [number, 1, n, 1, 4, 0, 0, 1, 1, 2, 2, 3, 8];
    map::update::push_signal(words, coords, &row, points, more);
    true
}

fn add_signal(words: &mut [u64], coords: &mut [f64], points: &[f64], more: &[f64]) -> bool {
    if !validity::is_map(words, coords) {
        return false;
    }
    signal_sized(words, coords, points, more)
}

// A light more, with a line, lanes and signals.
fn add_light(words: &mut [u64], coords: &[f64], line: u64, list: &[u64]) -> bool {
    if !validity::is_map(words, coords) {
        return false;
    }
    if 128 <= store::count(words, Kind::Rule) {
        return false;
    }
    if store::next(words) == u64::MAX {
        return false;
    }
    if 16 < list.len() {
        return false;
    }
    let light = map::NewRule::Light { line: Some(line) };
    map::update::push_new_rule(words, light, list, list);
    true
}

// The controlled crosswalks of rule i.
fn control(words: &mut [u64], coords: &[f64], i: usize, list: &[u64]) -> bool {
    if !validity::is_map(words, coords) {
        return false;
    }
    if store::count(words, Kind::Rule) <= i {
        return false;
    }
    if 16 < list.len() {
        return false;
    }
    map::update::put_list(words, i, 24, list);
    true
}

// The first rule taken out.
fn drop_first(words: &mut [u64], coords: &mut [f64]) -> bool {
    if !validity::is_map(words, coords) {
        return false;
    }
    if store::count(words, Kind::Rule) <= 0 {
        return false;
    }
    map::update::drop_rule(words, coords, 0);
    true
}

// One record more of the kind.
fn add(words: &mut [u64], coords: &mut [f64], k: Kind, list: &[u64]) -> bool {
    let number = words.first().copied().unwrap_or(0);
    match k {
        Kind::Lane => add_row(words, coords, k, &[number, 7, 1, 0, 2, 1, 1, 2], &TWO),
        Kind::Boundary => add_row(words, coords, k, &[number, 2], &TWO),
        Kind::StopLine => add_line(words, coords, &FOUR),
        Kind::Signal => add_signal(words, coords, &TWO, &MORE),
        Kind::Crosswalk => add_row(words, coords, k, &[number, 2, 2, 1, 4], &EDGES),
        Kind::Rule => add_light(words, coords, number, list),
    }
}

// So many times; how many were added.
fn fill(words: &mut [u64], coords: &mut [f64], k: Kind, list: &[u64], times: u64) -> u64 {
    let mut done: u64 = 0;
    for _ in 0..times {
        if add(words, coords, k, list) {
            done = done.saturating_add(1);
        }
    }
    done
}

// The controlled crosswalks of the first so many rules.
fn control_all(words: &mut [u64], coords: &[f64], list: &[u64], times: usize) -> u64 {
    let mut done: u64 = 0;
    for i in 0..times {
        if control(words, coords, i, list) {
            done = done.saturating_add(1);
        }
    }
    done
}

// The points in use, where the tables are a map's.
fn print_points(rt: &impl Print, words: &[u64], coords: &[f64]) -> io::Result<()> {
    if !validity::is_map(words, coords) {
        return println!(rt; "no map");
    }
    println!(rt; "points {}", validity::points_used(words))
}

fn print_words(rt: &impl Print, words: &[u64], told: &[(&str, usize)]) -> io::Result<()> {
    for (name, i) in told {
        println!(rt; "{name} {}", words.get(*i).copied().unwrap_or(0))?;
    }
    Ok(())
}

fn report(rt: &impl Print, words: &[u64], coords: &[f64]) -> io::Result<()> {
    print_points(rt, words, coords)?;
    print_words(rt, words, &COUNTS)
}

// A table filled, with tries past its room.
fn fill_kind(
    rt: &impl Print,
    words: &mut [u64],
    coords: &mut [f64],
    k: Kind,
    list: &[u64],
    times: u64,
) -> io::Result<()> {
    let done = fill(words, coords, k, list, times);
    let name = match k {
        Kind::Lane => "lanes",
        Kind::Boundary => "boundaries",
        Kind::StopLine => "lines",
        Kind::Signal => "signals",
        Kind::Crosswalk => "crosswalks",
        Kind::Rule => "rules",
    };
    println!(rt; "{name} added {done}")
}

// Each table filled: lanes after the boundaries that they name.
fn fill_all(
    rt: &impl Print,
    words: &mut [u64],
    coords: &mut [f64],
    list: &[u64],
) -> io::Result<()> {
    fill_kind(rt, words, coords, Kind::Boundary, list, 130)?;
    fill_kind(rt, words, coords, Kind::Lane, list, 66)?;
    fill_kind(rt, words, coords, Kind::StopLine, list, 66)?;
    fill_kind(rt, words, coords, Kind::Signal, list, 66)?;
    fill_kind(rt, words, coords, Kind::Crosswalk, list, 34)?;
    fill_kind(rt, words, coords, Kind::Rule, list, 130)?;
    println!(rt; "lists put {}", control_all(words, coords, list, 130))
}

// A word written over, where there is one.
fn put(words: &mut [u64], i: usize, v: u64) {
    if let Some(word) = words.get_mut(i) {
        *word = v;
    }
}

// A point too many in boundary 0, and not; rules less, and more with short lists.
fn edit_all(rt: &impl Print, words: &mut [u64], coords: &mut [f64]) -> io::Result<()> {
    put(words, 520, 3);
    print_points(rt, words, coords)?;
    put(words, 520, 2);
    drop_first(words, coords);
    drop_first(words, coords);
    report(rt, words, coords)?;
    print_words(rt, words, &LISTS)?;
    fill_kind(rt, words, coords, Kind::Rule, &[9; 3], 3)
}

fn main(rt: HostRuntime) -> io::Result<()> {
    let out = Output(&rt);
    let mut words = vec![in rt.alloc(); 0u64; 13671]?;
    let mut coords = vec![in rt.alloc(); 0.0f64; 105280]?;
    put(&mut words, 0, 1);
    report(&out, &words, &coords)?;
    fill_all(&out, &mut words, &mut coords, &[7; 16])?;
    report(&out, &words, &coords)?;
    print_words(&out, &words, &LISTS)?;
    edit_all(&out, &mut words, &mut coords)?;
    report(&out, &words, &coords)
}
