// What came of a file's requests.
use call_list::Reply;
use std::alloc::{AllocError, Global};
use std::collections::BTreeMap;
use std::fmt;

#[derive(Drop)]
pub struct Counts {
    runs: u64,
    // calls that were carried out
    lines: u64,
    lights: u64,
    links: u64,
    ends: u64,
    roots: u64,
    // refusals by number and first detail, 0 for none
    refusals: BTreeMap<(u64, u64), u64>,
    altered: u64,
    met: u64,
    missed: u64,
}

fn add(count: &mut u64, is_one: bool) {
    *count = count.saturating_add(is_one as u64);
}

impl Counts {
    pub fn new(alloc: Global) -> Counts {
        Counts {
            runs: 0,
            lines: 0,
            lights: 0,
            links: 0,
            ends: 0,
            roots: 0,
            refusals: BTreeMap::new(alloc),
            altered: 0,
            met: 0,
            missed: 0,
        }
    }

    pub fn add_run(&mut self) {
        add(&mut self.runs, true);
    }

    pub fn add_root(&mut self) {
        add(&mut self.roots, true);
    }

    // A call of this name that was carried out.
    pub fn add_call(&mut self, name: &[u8]) {
        match name {
            b"line" => add(&mut self.lines, true),
            b"light" => add(&mut self.lights, true),
            _ => add(&mut self.links, true),
        }
    }

    pub fn add_ends(&mut self, are_named: bool) {
        add(&mut self.ends, are_named);
    }

    // A refusal. Numbers above the refusals' stand for no call.
    pub fn add_refusal(&mut self, r: Reply) -> Result<(), AllocError> {
        if r.what < 15 {
            add(self.refusals.entry((r.what, r.detail))?.or_insert(0), true);
        }
        Ok(())
    }

    pub fn add_altered(&mut self, is_altered: bool) {
        add(&mut self.altered, is_altered);
    }

    pub fn add_answer(&mut self, is_met: bool) {
        add(&mut self.met, is_met);
        add(&mut self.missed, !is_met);
    }
}

impl fmt::Display for Counts {
    fn fmt<W: fmt::Write>(&self, f: &mut fmt::Formatter<W>) -> fmt::Result {
        writeln!(f, "runs {}", self.runs)?;
        writeln!(f, "stop lines {}", self.lines)?;
        writeln!(f, "lights {}", self.lights)?;
        writeln!(f, "links {}", self.links)?;
        writeln!(f, "named ends {}", self.ends)?;
        writeln!(f, "roots {}", self.roots)?;
        for ((what, detail), count) in &self.refusals {
            match detail {
                0 => writeln!(f, "refused {what}: {count}")?,
                _ => writeln!(f, "refused {what} {detail}: {count}")?,
            }
        }
        writeln!(f, "refused and altered {}", self.altered)?;
        writeln!(f, "met {}", self.met)?;
        writeln!(f, "missed {}", self.missed)
    }
}
