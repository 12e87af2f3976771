// Requests, answers, change sets and maps in words, for a person to read: each is a value that `{}` writes. They stand in the rows and
// tables of numbers that calls are lent from C; a number that stands for a case there is put into words where it is read.
#![tactic(auto)]

pub mod answers;
mod decimal;
pub mod map;
mod output;
pub mod requests;
pub mod sets;

pub use decimal::Decimal;
pub use output::Output;
use std::fmt;

// A kind of record.
#[derive(Clone, Copy, PartialEq, Eq)]
pub enum Kind {
    Lane,
    Boundary,
    Road,
    Junction,
    StopLine,
    Signal,
    Crosswalk,
    Rule,
}

// A kind by its number in change sets.
impl From<u64> for Kind {
    fn from(number: u64) -> Kind {
        match number {
            1 => Kind::Lane,
            2 => Kind::Boundary,
            3 => Kind::Road,
            4 => Kind::Junction,
            5 => Kind::StopLine,
            6 => Kind::Signal,
            7 => Kind::Crosswalk,
            _ => Kind::Rule,
        }
    }
}

impl fmt::Display for Kind {
    fn fmt<W: fmt::Write>(&self, f: &mut fmt::Formatter<W>) -> fmt::Result {
        f.write_str(match self {
            Kind::Lane => "lane",
            Kind::Boundary => "boundary",
            Kind::Road => "road",
            Kind::Junction => "junction",
            Kind::StopLine => "stop line",
            Kind::Signal => "signal",
            Kind::Crosswalk => "crosswalk",
            Kind::Rule => "rule",
        })
    }
}

// A record by its kind and number.
#[derive(Clone, Copy)]
pub struct Entry {
    pub kind: Kind,
    pub number: u64,
}

impl fmt::Display for Entry {
    fn fmt<W: fmt::Write>(&self, f: &mut fmt::Formatter<W>) -> fmt::Result {
        write!(f, "{} {}", self.kind, self.number)
    }
}

// Numbers, with a blank before each.
#[derive(Clone, Copy)]
struct Numbers<'a>(&'a [u64]);

impl fmt::Display for Numbers<'_> {
    fn fmt<W: fmt::Write>(&self, f: &mut fmt::Formatter<W>) -> fmt::Result {
        if self.0.is_empty() {
            return f.write_str(" none");
        }
        for number in self.0 {
            write!(f, " {number}")?;
        }
        Ok(())
    }
}

// Points, with a blank before each.
#[derive(Clone, Copy)]
struct Points<'a>(&'a [[f64; 3]]);

impl fmt::Display for Points<'_> {
    fn fmt<W: fmt::Write>(&self, f: &mut fmt::Formatter<W>) -> fmt::Result {
        for [x, y, z] in self.0 {
            write!(f, " ({}, {}, {})", Decimal(*x), Decimal(*y), Decimal(*z))?;
        }
        Ok(())
    }
}

// So many points, whose coordinates the table begins with.
fn first_points(coords: &[f64], count: u64) -> Points<'_> {
    let (all, _) = coords.as_chunks();
    Points(part(all, 0, count))
}

// What stands in a table from an index on.
fn rest<T>(table: &[T], from: u64) -> &[T] {
    table.get(from as usize..).unwrap_or(&[])
}

// The same, of so many items.
fn part<T>(table: &[T], from: u64, count: u64) -> &[T] {
    let all = rest(table, from);
    all.get(..count as usize).unwrap_or(all)
}
