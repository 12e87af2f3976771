// Requests, as rows of a list of calls with their pools.
use crate::{Decimal, Numbers, Points, first_points, part, rest};
use std::fmt;

#[derive(Clone, Copy)]
pub struct Request<'a> {
    pub row: &'a [u64],
    pub lists: &'a [u64],
    pub reals: &'a [f64],
}

impl<'a> Request<'a> {
    fn word(&self, k: usize) -> u64 {
        self.row.get(k).copied().unwrap_or(0)
    }

    fn real(&self, i: usize) -> Decimal {
        Decimal(self.reals.get(i).copied().unwrap_or(0.0))
    }

    // A list whose place and count stand in two words of the row.
    fn list(&self, place: usize, count: usize) -> Numbers<'a> {
        Numbers(part(self.lists, self.word(place), self.word(count)))
    }

    // The same of points, by the count of their coordinates.
    fn points(&self, place: usize, count: usize) -> Points<'a> {
        first_points(rest(self.reals, self.word(place)), self.word(count) / 3)
    }

    fn placement<W: fmt::Write>(
        &self,
        f: &mut fmt::Formatter<W>,
        how: u64,
        given: Points<'_>,
    ) -> fmt::Result {
        match how {
            0 => write!(f, " at the lane's end, offset {}", self.real(0)),
            1 => write!(f, " at station {}", self.real(0)),
            2 => write!(f, " along{given}"),
            _ => write!(f, " placed by no such way: {how}"),
        }
    }

    fn stop_line<W: fmt::Write>(&self, f: &mut fmt::Formatter<W>) -> fmt::Result {
        write!(f, "stop line: lanes{}", self.list(1, 2))?;
        self.placement(f, self.word(3), self.points(6, 7))?;
        match self.word(4) {
            0 => f.write_str(", stop sign"),
            1 => f.write_str(", marking"),
            2 => f.write_str(", no rule"),
            rule => write!(f, ", no such rule: {rule}"),
        }
    }

    fn line_choice<W: fmt::Write>(&self, f: &mut fmt::Formatter<W>) -> fmt::Result {
        match self.word(3) {
            0 => f.write_str(", line automatic"),
            1 => write!(f, ", line {}", self.word(4)),
            2 => {
                f.write_str(", new line")?;
                self.placement(f, self.word(5), self.points(22, 23))
            }
            3 => f.write_str(", no line"),
            choice => write!(f, ", no such choice of line: {choice}"),
        }
    }

    fn signal_kind<W: fmt::Write>(&self, f: &mut fmt::Formatter<W>) -> fmt::Result {
        match self.word(8) {
            0 => f.write_str(", for vehicles"),
            1 => f.write_str(", for pedestrians"),
            kind => write!(f, ", for no such kind: {kind}"),
        }
    }

    // Housing, height and lamps, where they are given.
    fn equipment<W: fmt::Write>(&self, f: &mut fmt::Formatter<W>) -> fmt::Result {
        if self.word(6) != 0 {
            write!(f, ", housing{}", self.points(24, 25))?;
        }
        if self.word(7) != 0 {
            write!(f, ", height {}", self.real(1))?;
        }
        if self.word(9) != 0 {
            write!(f, ", lamps given: {}", self.word(27) / 3)?;
        }
        Ok(())
    }

    fn light<W: fmt::Write>(&self, f: &mut fmt::Formatter<W>) -> fmt::Result {
        write!(f, "light: lanes{}", self.list(1, 2))?;
        self.line_choice(f)?;
        self.signal_kind(f)?;
        self.equipment(f)?;
        if self.word(18) != 0 {
            write!(f, ", joins rule {}", self.word(19))?;
        }
        Ok(())
    }

    fn links<W: fmt::Write>(&self, f: &mut fmt::Formatter<W>) -> fmt::Result {
        write!(
            f,
            "links: rule {}, lanes{}, crosswalks{}, lines{}",
            self.word(3),
            self.list(1, 2),
            self.list(4, 5),
            self.list(6, 7)
        )
    }
}

impl fmt::Display for Request<'_> {
    fn fmt<W: fmt::Write>(&self, f: &mut fmt::Formatter<W>) -> fmt::Result {
        match self.word(0) {
            1 => self.stop_line(f),
            2 => self.light(f),
            3 => self.links(f),
            _ => f.write_str("a list of the request is longer than this program carries"),
        }
    }
}
