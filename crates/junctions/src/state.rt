// What a run has come to, line by line.
use call_list::Reply;
use request_calls::Memory;
use std::alloc::{AllocError, Global};

// What the next line may expect.
#[derive(Clone, Copy)]
pub enum Due {
    Nothing,
    // the answer to an edit
    Answer(Reply),
    // the running fold
    Fold,
    // that a map was opened
    Opened,
    // the answer to a line that was not carried out: not as expected, unless the next line expects just that
    Refused(Reply),
    // nothing, since the line could not be read or shown: not as expected
    Unread,
}

// The memory that calls are lent, and what has been answered.
#[derive(Drop)]
pub struct State {
    pub memory: Memory,
    pub is_open: bool,
    pub due: Due,
    // how many answers were not as expected
    pub wrong: u64,
}

impl State {
    pub fn new(alloc: Global) -> Result<State, AllocError> {
        Ok(State {
            memory: Memory::new(alloc)?,
            is_open: false,
            due: Due::Nothing,
            wrong: 0,
        })
    }

    // What was due is judged: as expected, or not.
    pub fn judge(&mut self, as_expected: bool) {
        if !as_expected {
            self.wrong = self.wrong.saturating_add(1);
        }
        self.due = Due::Nothing;
    }

    // No line expects what was due.
    pub fn settle(&mut self) {
        let is_wrong = matches!(self.due, Due::Refused(_) | Due::Unread);
        self.judge(!is_wrong);
    }
}
