// Answers in words.
use crate::{Entry, Kind};
use std::fmt;

#[derive(Clone, Copy)]
pub enum Answer {
    Done(Entry),
    Refused(Refusal),
    NoCall,
}

impl fmt::Display for Answer {
    fn fmt<W: fmt::Write>(&self, f: &mut fmt::Formatter<W>) -> fmt::Result {
        match self {
            Answer::Done(made) => write!(f, "  done, {made}"),
            Answer::Refused(why) => write!(f, "  {why}"),
            Answer::NoCall => f.write_str("  no such call"),
        }
    }
}

#[derive(Clone, Copy, PartialEq, Eq)]
pub enum Side {
    Left,
    Right,
}

impl fmt::Display for Side {
    fn fmt<W: fmt::Write>(&self, f: &mut fmt::Formatter<W>) -> fmt::Result {
        f.write_str(match self {
            Side::Left => "left side",
            Side::Right => "right side",
        })
    }
}

// Where an end of a line lies: on the boundary of a lane.
#[derive(Clone, Copy)]
pub struct End {
    pub lane: u64,
    pub side: Side,
}

impl fmt::Display for End {
    fn fmt<W: fmt::Write>(&self, f: &mut fmt::Formatter<W>) -> fmt::Result {
        write!(f, "lane {}, {}", self.lane, self.side)
    }
}

// A refusal by its number, and its details: document 01's, and for the links' errors those of the Rust.
#[derive(Clone, Copy)]
pub struct Refusal {
    pub number: u64,
    pub detail: u64,
    pub second: u64,
}

impl fmt::Display for Refusal {
    fn fmt<W: fmt::Write>(&self, f: &mut fmt::Formatter<W>) -> fmt::Result {
        write!(f, "refused {}, {}", self.number, name(self.number))?;
        match self.number {
            2 => {
                let record = Entry {
                    kind: Kind::from(self.detail),
                    number: self.second,
                };
                write!(f, ": {record}")
            }
            3..9 => write!(f, ": {}", detail(self.number, self.detail)),
            _ => Ok(()),
        }
    }
}

// The trade's word.
fn name(number: u64) -> &'static str {
    match number {
        1 => "no lanes",
        2 => "unknown",
        3 => "listed twice",
        4 => "bad measure",
        5 => "bad shape",
        6 => "no place",
        7 => "wrong group",
        8 => "wrong link",
        9 => "off the map",
        10 => "full",
        11 => "numbers spent",
        12 => "bad map",
        13 => "bad set",
        _ => "short buffer",
    }
}

// What exactly, of the refusals 3 to 8.
fn detail(number: u64, detail: u64) -> &'static str {
    match number {
        3 => twice(detail),
        4 => measure(detail),
        5 => shape(detail),
        6 => place(detail),
        7 => group(detail),
        _ => link(detail),
    }
}

fn twice(detail: u64) -> &'static str {
    match detail {
        1 => "lanes",
        2 => "crosswalks",
        _ => "lines",
    }
}

fn measure(detail: u64) -> &'static str {
    match detail {
        1 => "height",
        2 => "offset",
        _ => "station",
    }
}

fn shape(detail: u64) -> &'static str {
    match detail {
        1 => "not finite",
        _ => "length not above 1e-9",
    }
}

fn place(detail: u64) -> &'static str {
    match detail {
        1 => "no lane geometry",
        2 => "empty centreline",
        3 => "degenerate centreline",
        4 => "missing boundary",
        5 => "no section",
        _ => "empty stop line",
    }
}

fn group(detail: u64) -> &'static str {
    match detail {
        1 => "controls crosswalks",
        2 => "not a light",
        3 => "uses another line",
        _ => "has a line, and a new one is asked for",
    }
}

fn link(detail: u64) -> &'static str {
    match detail {
        1 => "rule has no signals",
        2 => "mixed vehicle and pedestrian group",
        3 => "pedestrian lights control crosswalks, not vehicle lanes or stop lines",
        4 => "vehicle lights control lanes",
        5 => "traffic light accepts at most one stop line",
        6 => "only pedestrian traffic lights control crosswalks",
        7 => "stop marking keeps its physical stop-line reference",
        _ => "only traffic-light, crosswalk and stop-marking associations can be edited",
    }
}
