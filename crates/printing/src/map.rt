// The records of a map's tables.
ghost use Rattle.std.specs.Prelude.{◌<◌};

use crate::{Decimal, Numbers, first_points, part, rest};
use std::fmt;

// A map's memory. Its words begin with the next number and the counts of its six tables.
#[derive(Clone, Copy)]
pub struct Map<'a> {
    pub words: &'a [u64],
    pub coords: &'a [f64],
}

impl<'a> Map<'a> {
    // The rows of the table whose count is this word, and whose rows stand from there on.
    fn rows<const WIDTH: usize>(&self, count: usize, from: u64) -> &'a [[u64; WIDTH]]
        requires { 0 < WIDTH }
    {
        let (all, _) = rest(self.words, from).as_chunks();
        part(all, 0, self.words.get(count).copied().unwrap_or(0))
    }

    // The coordinates of the same, from there on.
    fn places<const WIDTH: usize>(&self, from: u64) -> &'a [[f64; WIDTH]]
        requires { 0 < WIDTH }
    {
        let (all, _) = rest(self.coords, from).as_chunks();
        all
    }

    // Lanes, boundaries and stop lines.
    fn ways<W: fmt::Write>(&self, f: &mut fmt::Formatter<W>) -> fmt::Result {
        for (words, coords) in self.rows(1, 7).iter().zip(self.places(0)) {
            writeln!(f, "{}", Lane(words, coords))?;
        }
        for (words, coords) in self.rows(2, 519).iter().zip(self.places(12288)) {
            writeln!(f, "  boundary {}", Line(words, coords))?;
        }
        for (words, coords) in self.rows(3, 775).iter().zip(self.places(36864)) {
            writeln!(f, "  stop line {}", Line(words, coords))?;
        }
        Ok(())
    }

    // Signals, crosswalks and rules.
    fn devices<W: fmt::Write>(&self, f: &mut fmt::Formatter<W>) -> fmt::Result {
        for (words, coords) in self.rows(4, 903).iter().zip(self.places(49152)) {
            writeln!(f, "{}", Signal(words, coords))?;
        }
        for (words, coords) in self.rows(5, 1735).iter().zip(self.places(62272)) {
            writeln!(f, "{}", Crosswalk(words, coords))?;
        }
        for (words, coords) in self.rows(6, 1895).iter().zip(self.places(80704)) {
            writeln!(f, "{}", Rule(words, coords))?;
        }
        Ok(())
    }
}

// The next number and the records, each line with its end.
impl fmt::Display for Map<'_> {
    fn fmt<W: fmt::Write>(&self, f: &mut fmt::Formatter<W>) -> fmt::Result {
        writeln!(
            f,
            "  next number {}",
            self.words.first().copied().unwrap_or(0)
        )?;
        self.ways(f)?;
        self.devices(f)
    }
}

#[derive(Clone, Copy)]
struct Lane<'a>(&'a [u64; 8], &'a [f64; 192]);

impl fmt::Display for Lane<'_> {
    fn fmt<W: fmt::Write>(&self, f: &mut fmt::Formatter<W>) -> fmt::Result {
        let Lane(words, coords) = *self;
        write!(f, "  lane {}: {}", words[0], lane_kind(words[1]))?;
        write!(f, ", boundaries {}{}", words[2], reversed(words[3]))?;
        write!(f, " and {}{}", words[4], reversed(words[5]))?;
        if words[6] != 0 {
            write!(f, ", centreline{}", first_points(coords, words[7]))?;
        }
        Ok(())
    }
}

fn lane_kind(kind: u64) -> &'static str {
    match kind {
        0 => "driving",
        1 => "shoulder",
        2 => "bus",
        3 => "bicycle",
        4 => "walkway",
        5 => "parking",
        6 => "emergency",
        _ => "other",
    }
}

fn reversed(flag: u64) -> &'static str {
    if flag != 0 { " reversed" } else { "" }
}

// A boundary or a stop line.
#[derive(Clone, Copy)]
struct Line<'a>(&'a [u64; 2], &'a [f64; 192]);

impl fmt::Display for Line<'_> {
    fn fmt<W: fmt::Write>(&self, f: &mut fmt::Formatter<W>) -> fmt::Result {
        let Line(words, coords) = *self;
        let [number, count] = *words;
        write!(f, "{number}:{}", first_points(coords, count))
    }
}

// A signal, whose coordinates are up to 64 points of its housing, its height, and four lamps.
#[derive(Clone, Copy)]
struct Signal<'a>(&'a [u64; 13], &'a [f64; 205]);

impl fmt::Display for Signal<'_> {
    fn fmt<W: fmt::Write>(&self, f: &mut fmt::Formatter<W>) -> fmt::Result {
        let Signal(words, coords) = *self;
        write!(f, "  signal {}: for {}", words[0], users(words[1]))?;
        write!(f, ", housing{}", first_points(coords, words[2]))?;
        if words[3] != 0 {
            write!(f, ", height {}", Decimal(coords[192]))?;
        }
        write!(f, ", lamps")?;
        let (cases, _) = words[5..].as_chunks();
        let (places, _) = coords[193..].as_chunks();
        let lamps = part(cases, 0, words[4]).iter().zip(places);
        f.write_joined(lamps.map(|(case, place)| Lamp(*case, *place)), ",")
    }
}

fn users(kind: u64) -> &'static str {
    if kind == 0 { "vehicles" } else { "pedestrians" }
}

// A lamp's colour and arrow, and its position.
#[derive(Clone, Copy)]
struct Lamp([u64; 2], [f64; 3]);

impl fmt::Display for Lamp {
    fn fmt<W: fmt::Write>(&self, f: &mut fmt::Formatter<W>) -> fmt::Result {
        let [shown, direction] = self.0;
        write!(
            f,
            " {}{}{}",
            colour(shown),
            arrow(direction),
            first_points(&self.1, 1)
        )
    }
}

fn colour(number: u64) -> &'static str {
    match number {
        0 => "red",
        1 => "yellow",
        2 => "green",
        _ => "white",
    }
}

fn arrow(number: u64) -> &'static str {
    match number {
        0 => "",
        1 => " arrow up",
        2 => " arrow down",
        3 => " arrow left",
        4 => " arrow right",
        5 => " arrow up-left",
        6 => " arrow up-right",
        7 => " arrow down-left",
        _ => " arrow down-right",
    }
}

// A crosswalk: its edges, and its outline where it has one, of up to 64 points each.
#[derive(Clone, Copy)]
struct Crosswalk<'a>(&'a [u64; 5], &'a [f64; 576]);

impl fmt::Display for Crosswalk<'_> {
    fn fmt<W: fmt::Write>(&self, f: &mut fmt::Formatter<W>) -> fmt::Result {
        let Crosswalk(words, coords) = *self;
        let [number, left, right, given, outline] = *words;
        write!(
            f,
            "  crosswalk {number}: left edge{}",
            first_points(coords, left)
        )?;
        write!(f, ", right edge{}", first_points(&coords[192..], right))?;
        if given != 0 {
            write!(f, ", outline{}", first_points(&coords[384..], outline))?;
        }
        Ok(())
    }
}

#[derive(Clone, Copy)]
struct Rule<'a>(&'a [u64; 92], &'a [f64; 192]);

impl<'a> Rule<'a> {
    // A list of up to sixteen numbers, whose count stands at this word.
    fn list(&self, count: usize) -> Numbers<'a>
        requires { count < 92 }
    {
        let words = self.0;
        Numbers(part(words, count as u64 + 1, words[count]))
    }

    fn kind<W: fmt::Write>(&self, f: &mut fmt::Formatter<W>) -> fmt::Result {
        let value = self.0[2];
        match self.0[1] {
            1 => f.write_str("light"),
            2 if value == 1 => f.write_str("stop sign"),
            2 => write!(f, "sign of type {value}"),
            3 => f.write_str("marking"),
            4 => f.write_str("right of way"),
            5 => write!(f, "crosswalk {value}"),
            _ => write!(f, "other, kind {value}"),
        }
    }

    // What only some kinds of rule have: lists, a line of its own, which a marking always has, and where a sign stands.
    fn parts<W: fmt::Write>(&self, f: &mut fmt::Formatter<W>) -> fmt::Result {
        let Rule(words, coords) = *self;
        let kind = words[1];
        match kind {
            1 => write!(f, ", signals{}", self.list(41))?,
            4 => {
                write!(
                    f,
                    ", priority lanes{}, yielding lanes{}",
                    self.list(41),
                    self.list(58)
                )?;
                write!(f, ", lines{}", self.list(75))?;
            }
            5 => write!(f, ", lines{}", self.list(75))?,
            _ => {}
        }
        if kind == 3 || (kind < 3 && words[3] != 0) {
            write!(f, ", line {}", words[4])?;
        }
        if kind == 2 && words[5] != 0 {
            write!(f, ", standing at{}", first_points(coords, words[6]))?;
        }
        Ok(())
    }
}

impl fmt::Display for Rule<'_> {
    fn fmt<W: fmt::Write>(&self, f: &mut fmt::Formatter<W>) -> fmt::Result {
        write!(f, "  rule {}: ", self.0[0])?;
        self.kind(f)?;
        self.parts(f)?;
        write!(f, ", lanes{}", self.list(7))?;
        if self.0[24] != 0 {
            write!(f, ", controls crosswalks{}", self.list(24))?;
        }
        Ok(())
    }
}
