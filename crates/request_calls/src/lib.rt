// Requests of stored samples and examples carried out on lent memory, and what was stored of their answers compared. Answers, their
// details and the sides of lanes are numbers, as in the lists of calls that C lends and in what was stored.
#![tactic(auto)]

mod answers;
mod lending;

pub use answers::{Stored, refused_as};
use call_list::Reply;
pub use lending::{Call, Lent, Memory};
use place::{EndName, LaneSide, SectionNames};
use std::fmt;

// An answer without number, details and ends.
pub fn reply(what: u64) -> Reply {
    Reply {
        what,
        number: 0,
        detail: 0,
        second: 0,
        ends: None,
    }
}

fn end_in(lane: u64, side: u64) -> EndName {
    EndName {
        lane,
        side: match side {
            0 => LaneSide::Left,
            _ => LaneSide::Right,
        },
    }
}

// The answer that stands as words at the beginning of a table; what it has no room for is 0.
pub fn reply_in(table: &[u64]) -> Reply {
    let mut words = [0; call_list::ANSWER];
    for (word, value) in words.iter_mut().zip(table) {
        *word = *value;
    }
    let [
        what,
        number,
        detail,
        second,
        are_named,
        left,
        left_side,
        right,
        right_side,
    ] = words;
    Reply {
        what,
        number,
        detail,
        second,
        ends: match are_named {
            0 => None,
            _ => Some(SectionNames {
                left: end_in(left, left_side),
                right: end_in(right, right_side),
            }),
        },
    }
}

// How many details a refusal has: kind and number of an unknown record, one detail of 3 to 8, else none.
fn details(what: u64) -> usize {
    match what {
        2 => 2,
        1 | 9.. => 0,
        _ => 1,
    }
}

// What an answer says first, in the notation of the samples: `done` with its number, or the refusal with its details.
#[derive(Clone, Copy)]
pub struct Told(pub Reply);

impl fmt::Display for Told {
    fn fmt<W: fmt::Write>(&self, f: &mut fmt::Formatter<W>) -> fmt::Result {
        let r = self.0;
        if r.what == 0 {
            return write!(f, "done {}", r.number);
        }
        write!(f, "refused {}", r.what)?;
        for detail in [r.detail, r.second].iter().take(details(r.what)) {
            write!(f, " {detail}")?;
        }
        Ok(())
    }
}

#[cfg(test)]
mod tests {
    use super::*;
    use std::test::Fail;

    #[test]
    fn there_is_memory(rt: HostRuntime) -> Result<(), Fail> {
        let memory = Memory::new(rt.alloc())?;
        assert_eq!(rt; memory.words.len(), 13671);
        Ok(())
    }
}
