// Files tried, for the programs that try many: each is read into tables and, where it is read, written back. What is right is counted,
// and shown by the programs; proved is that every call is safe and ends.
#![tactic(auto)]

ghost use Rattle.std.specs.Prelude.{◌≡◌, ◌≤◌, IfOk};

use refusal::Refusal;
use sample_text::bytes::bits_of;
use std::alloc::{AllocError, Global};
use std::fmt;

// Room for a file.
pub const ROOM: usize = 49152;

const MAP_WORDS: usize = 13671;

const MAP_COORDS: usize = 105280;

const SET_WORDS: usize = 3556;

// What stands in the room of a file that is yet to be written.
const PAINT: u8 = 165;

// Which answer is right; no Result, as nothing goes with it and either may be.
#[derive(Clone, Copy, PartialEq, Eq)]
pub enum Want {
    Either,
    Accepted,
    Refused,
}

// How many files were tried, refused and accepted, and how many answers were wrong.
#[derive(Clone, Copy, Default)]
pub struct Count {
    pub tried: u64,
    pub refused: u64,
    pub accepted: u64,
    pub wrong: u64,
}

impl Count {
    // One answer more.
    fn add(&mut self, is_refused: bool, is_right: bool)
        ensures { self.old.tried ≤ self.new.tried }
    {
        self.tried = self.tried.saturating_add(1);
        self.refused = self.refused.saturating_add(is_refused as u64);
        self.accepted = self.accepted.saturating_add(!is_refused as u64);
        self.wrong = self.wrong.saturating_add(!is_right as u64);
    }
}

impl fmt::Display for Count {
    fn fmt<W: fmt::Write>(&self, f: &mut fmt::Formatter<W>) -> fmt::Result {
        write!(
            f,
            "tried {}, refused {}, accepted {}, wrong {}",
            self.tried, self.refused, self.accepted, self.wrong
        )
    }
}

// What stands in a table, as a number.
trait Bits: Copy {
    fn bits(self) -> u64;
}

impl Bits for u64 {
    fn bits(self) -> u64 {
        self
    }
}

impl Bits for f64 {
    fn bits(self) -> u64 {
        bits_of(self)
    }
}

// Every fourth cell of a table added up, and the sums on the way too: by these a cell's place counts.
#[derive(Clone, Copy, Default)]
struct Lane {
    cells: u64,
    sums: u64,
}

impl Lane {
    fn add(&mut self, bits: u64) {
        self.cells = self.cells.wrapping_add(bits);
        self.sums = self.sums.wrapping_add(self.cells);
    }

    // The cells, each times the lane's number and eight for each cell from it on. By odd numbers below eight each cell of a table has an odd
    // weight of its own: one that is altered always shows, and, but for a few values, so do two in each other's places.
    fn weighed(self, number: u64) -> u64 {
        self.sums
            .wrapping_mul(8)
            .wrapping_add(self.cells.wrapping_mul(number))
    }
}

// What stands in a table in one number, from another's on. Four lanes, as none waits for another: the processor adds them at once.
// A loop: a fold with a closure took five times as long.
fn sum_of<T: Bits>(table: &[T], from: u64) -> u64 {
    let mut first = Lane {
        cells: from,
        sums: 0,
    };
    let mut second = Lane::default();
    let mut third = Lane::default();
    let mut fourth = Lane::default();
    let rows = table.chunks_exact(4);
    for value in rows.remainder() {
        first.add(value.bits());
    }
    for row in rows {
        if let [a, b, c, d] = row {
            first.add(a.bits());
            second.add(b.bits());
            third.add(c.bits());
            fourth.add(d.bits());
        }
    }
    first
        .weighed(1)
        .wrapping_add(second.weighed(3))
        .wrapping_add(third.weighed(5))
        .wrapping_add(fourth.weighed(7))
}

// The tables that files are read into: a map's, or a set's, for which coordinates have no meaning.
#[derive(Drop)]
enum Tables {
    Map { words: Vec<u64>, coords: Vec<f64> },
    Set(Vec<u64>),
}

impl Tables {
    fn read(&mut self, file: &[u8]) -> Result<(), Refusal> {
        match self {
            Tables::Map { words, coords } => reader::read_map_file(file, words, coords),
            Tables::Set(set) => reader::read_changes_file(file, set),
        }
    }

    fn write(&self, buffer: &mut [u8]) -> Result<usize, Refusal> {
        match self {
            Tables::Map { words, coords } => files::write_map(words, coords, buffer),
            Tables::Set(set) => files::write_changes(set, buffer),
        }
    }

    // Tells altered tables.
    fn sum(&self) -> u64 {
        match self {
            Tables::Map { words, coords } => sum_of(coords, sum_of(words, 0)),
            Tables::Set(set) => sum_of(set, 0),
        }
    }

    // Whether what is no file of this kind is refused so.
    fn is_refusal(&self, why: Refusal) -> bool {
        match self {
            Tables::Map { .. } => matches!(why, Refusal::BadMap),
            Tables::Set(_) => matches!(why, Refusal::BadSet),
        }
    }

    // Whether what was read is written back as the same bytes.
    fn is_written_back(&self, file: &[u8], back: &mut [u8]) -> bool {
        self.write(back)
            .is_ok_and(|size| back.get(..size) == Some(file))
    }

    // A file tried: refused with the tables as they were, or read and written back. The sum is the one that the file before left.
    fn trial(&mut self, file: &[u8], back: &mut [u8], want: Want, sum: &mut u64, count: &mut Count)
        ensures { count.old.tried ≤ count.new.tried }
    {
        let read = self.read(file);
        let before = std::mem::replace(sum, self.sum());
        match read {
            Err(why) => {
                let is_right = want != Want::Accepted && self.is_refusal(why);
                count.add(true, is_right && *sum == before);
            }
            Ok(()) => {
                let is_right = want != Want::Refused && self.is_written_back(file, back);
                count.add(false, is_right);
            }
        }
    }
}

// Tables and their sum, with room for a file that is made and for one that is written; and what came of the files so far.
#[derive(Drop)]
pub struct Trials {
    tables: Tables,
    sum: u64,
    work: Vec<u8>,
    back: Vec<u8>,
    pub count: Count,
}

impl Trials {
    fn over(alloc: Global, tables: Tables) -> Result<Trials, AllocError>
        ensures { IfOk result (λ t. t.count.tried ≡ 0) }
    {
        Ok(Trials {
            sum: tables.sum(),
            tables,
            work: vec![in alloc; 0; ROOM]?,
            back: vec![in alloc; 0; ROOM]?,
            count: Count {
                tried: 0,
                refused: 0,
                accepted: 0,
                wrong: 0,
            },
        })
    }

    pub fn of_maps(alloc: Global) -> Result<Trials, AllocError>
        ensures { IfOk result (λ t. t.count.tried ≡ 0) }
    {
        let words = vec![in alloc; 0; MAP_WORDS]?;
        let coords = vec![in alloc; 0.0; MAP_COORDS]?;
        Trials::over(alloc, Tables::Map { words, coords })
    }

    pub fn of_sets(alloc: Global) -> Result<Trials, AllocError>
        ensures { IfOk result (λ t. t.count.tried ≡ 0) }
    {
        let set = vec![in alloc; 0; SET_WORDS]?;
        Trials::over(alloc, Tables::Set(set))
    }

    pub fn is_of_sets(&self) -> bool {
        matches!(self.tables, Tables::Set(_))
    }

    // What came of the files since this was asked last.
    pub fn counted(&mut self) -> Count
        ensures { result ≡ self.old.count }
    {
        std::mem::take(&mut self.count)
    }

    // One file tried.
    pub fn trial(&mut self, file: &[u8], want: Want)
        ensures { self.old.count.tried ≤ self.new.count.tried }
    {
        self.tables
            .trial(file, &mut self.back, want, &mut self.sum, &mut self.count);
    }

    // The same of a file that is made in the room for one: how many bytes it has, the closure answers.
    pub fn trial_made<F: FnOnce(&mut [u8]) -> usize>(&mut self, want: Want, make: F)
        requires { F.IsAlwaysCallable make }
        ensures { self.old.count.tried ≤ self.new.count.tried }
    {
        let size = make(&mut self.work);
        let file = self.work.get(..size).unwrap_or(&[]);
        self.tables
            .trial(file, &mut self.back, want, &mut self.sum, &mut self.count);
    }

    // The file that was read last, written into so many bytes: where they are too few nothing is written, else nothing after it.
    pub fn trial_written(&mut self, file: &[u8], size: usize)
        ensures { self.old.count.tried ≤ self.new.count.tried }
    {
        self.back.fill(PAINT);
        let written = match self.back.as_mut_slice().get_mut(..size) {
            Some(room) => self.tables.write(room),
            None => Err(Refusal::ShortBuffer),
        };
        let is_right = match written {
            Ok(n) => self.back.get(..n) == Some(file) && self.is_painted(n),
            Err(why) => {
                size < file.len() && matches!(why, Refusal::ShortBuffer) && self.is_painted(0)
            }
        };
        self.count.add(written.is_err(), is_right);
    }

    // Whether nothing is written from there on.
    fn is_painted(&self, from: usize) -> bool {
        let rest = self.back.get(from..).unwrap_or(&[]);
        rest.iter().all(|b| *b == PAINT)
    }
}

#[cfg(test)]
mod tests {
    use super::*;
    use std::test::Fail;

    // A file that is read and one that is cut short, of both kinds.
    #[test]
    fn there_is_room(rt: HostRuntime) -> Result<(), Fail> {
        let mut maps = Trials::of_maps(rt.alloc())?;
        let mut sets = Trials::of_sets(rt.alloc())?;
        maps.trial(b"\x01\x00\x00\x00\x00\x00\x00", Want::Accepted);
        maps.trial(b"\x01\x00", Want::Refused);
        sets.trial(b"\x00\x00\x00\x00", Want::Accepted);
        sets.trial(b"\x00\x00", Want::Refused);
        assert_eq!(rt; maps.counted().wrong, 0);
        assert_eq!(rt; sets.counted().accepted, 1);
        Ok(())
    }

    // A cell altered and two in each other's places show, in a row, in a lane and behind the last row.
    #[test]
    fn altered_tables_show(rt: HostRuntime) -> Result<(), Fail> {
        let sum = sum_of(&[1, 2, 3, 4, 5, 6, 7, 8, 9, 10, 11], 0);
        for table in [
            [1, 2, 3, 4, 5, 6, 0, 8, 9, 10, 11],
            [1, 2, 3, 4, 5, 6, 7, 8, 9, 10, 0],
            [2, 1, 3, 4, 5, 6, 7, 8, 9, 10, 11],
            [1, 6, 3, 4, 5, 2, 7, 8, 9, 10, 11],
            [1, 2, 3, 4, 5, 6, 7, 11, 9, 10, 8],
        ] {
            assert!(rt; sum_of(&table, 0) != sum);
        }
        assert!(rt; sum_of(&[1.0, 2.0], sum) != sum_of(&[2.0, 1.0], sum));
        Ok(())
    }

    // Every NaN is as another.
    #[test]
    fn a_nan_is_a_nan(rt: HostRuntime) -> Result<(), Fail> {
        let nan = 0.0 / 0.0;
        assert_eq!(rt; sum_of(&[1.0, nan], 7), sum_of(&[1.0, -nan], 7));
        Ok(())
    }
}
