// Change sets and folds.
ghost use Rattle.std.specs.Prelude.{◌<◌};

use crate::{Entry, Kind, part, rest};
use std::fmt;

// A set's table: four counts, up to 512 entries each of what was created, modified and deleted, and the warnings.
#[derive(Clone, Copy)]
pub struct ChangeSet<'a>(pub &'a [u64]);

const CREATED: u64 = 4;

const MODIFIED: u64 = 1028;

const DELETED: u64 = 2052;

const WARNINGS: u64 = 3076;

impl<'a> ChangeSet<'a> {
    // The rows of a list, whose count is one of the first four words.
    fn rows<const WIDTH: usize>(&self, count: usize, from: u64) -> &'a [[u64; WIDTH]]
        requires { 0 < WIDTH }
    {
        let (all, _) = rest(self.0, from).as_chunks();
        part(all, 0, self.0.get(count).copied().unwrap_or(0))
    }
}

impl fmt::Display for ChangeSet<'_> {
    fn fmt<W: fmt::Write>(&self, f: &mut fmt::Formatter<W>) -> fmt::Result {
        let created = self.rows(0, CREATED);
        let modified = self.rows(1, MODIFIED);
        let deleted = self.rows(2, DELETED);
        let warnings = self.rows(3, WARNINGS);
        if created.is_empty() && modified.is_empty() && deleted.is_empty() {
            writeln!(f, "  nothing created, modified or deleted")?;
        }
        entries(f, "created", created)?;
        entries(f, "modified", modified)?;
        entries(f, "deleted", deleted)?;
        warned(f, warnings)
    }
}

// A list that is not empty, as a line.
fn entries<W: fmt::Write>(f: &mut fmt::Formatter<W>, name: &str, rows: &[[u64; 2]]) -> fmt::Result {
    if rows.is_empty() {
        return Ok(());
    }
    write!(f, "  {name} ")?;
    f.write_joined(
        rows.iter().map(|[kind, number]| entry(*kind, *number)),
        ", ",
    )?;
    writeln!(f)
}

fn entry(kind: u64, number: u64) -> Entry {
    Entry {
        kind: Kind::from(kind),
        number,
    }
}

fn warned<W: fmt::Write>(f: &mut fmt::Formatter<W>, rows: &[[u64; 3]]) -> fmt::Result {
    if rows.is_empty() {
        return Ok(());
    }
    write!(f, "  warned ")?;
    f.write_joined(rows.iter().map(|row| Warning(*row)), ", ")?;
    writeln!(f)
}

// A warning: what happened, and the kind of the record that it is about, 0 for none, and its number.
#[derive(Clone, Copy)]
struct Warning([u64; 3]);

impl fmt::Display for Warning {
    fn fmt<W: fmt::Write>(&self, f: &mut fmt::Formatter<W>) -> fmt::Result {
        let [what, kind, number] = self.0;
        f.write_str(match what {
            1 => "placement clamped",
            2 => "orphan rule",
            3 => "geometry synthesized",
            _ => "rule replaced",
        })?;
        if kind == 0 {
            return Ok(());
        }
        write!(f, " ({})", entry(kind, number))
    }
}

// How many entries a fold has.
#[derive(Clone, Copy)]
pub struct Tally {
    pub created: u64,
    pub modified: u64,
    pub deleted: u64,
}

impl fmt::Display for Tally {
    fn fmt<W: fmt::Write>(&self, f: &mut fmt::Formatter<W>) -> fmt::Result {
        write!(
            f,
            "  tally: {} created, {} modified, {} deleted",
            self.created, self.modified, self.deleted
        )
    }
}
