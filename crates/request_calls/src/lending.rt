// What calls are lent.
ghost use Rattle.std.specs.Prelude.{◌≡◌, IfOk, vec_len};

use crate::reply;
use call_list::{Carried, Reply};
use changes::Tally;
use sample_text::bytes;
use std::alloc::{AllocError, Global};

// How many words and coordinates a map's tables have, and how many words a set's; and the room for a file where no other is asked for.
const MAP_WORDS: usize = 13671;

const MAP_COORDS: usize = 105280;

const SET_WORDS: usize = 3556;

const FILE_BYTES: usize = 262144;

// A request: the row of a list of calls, with the pools of its lists.
#[derive(Drop)]
pub struct Call {
    pub row: [u64; requests::ROW],
    pub lists: [u64; requests::LISTS],
    pub reals: [f64; requests::REALS],
}

impl Call {
    // The request that stands from there on.
    pub fn read(text: &[u8], at: usize) -> Call {
        let mut row = [0; requests::ROW];
        let mut lists = [0; requests::LISTS];
        let mut reals = [0.0; requests::REALS];
        requests::request_into(text, at, &mut row, &mut lists, &mut reals);
        Call { row, lists, reals }
    }
}

// What one call is lent. The tally is the fold's before the call and after it.
#[derive(Drop)]
pub struct Lent<'a> {
    pub words: &'a mut [u64],
    pub coords: &'a mut [f64],
    pub fold: &'a mut [u64],
    pub tally: &'a mut Tally,
    pub set: &'a mut [u64],
}

impl Lent<'_> {
    // The call, carried out.
    pub fn carry(&mut self, call: &Call) -> Reply {
        let Carried { reply, tally } = row_calls::carry_out(
            self.words,
            self.coords,
            self.fold,
            *self.tally,
            self.set,
            &call.row,
            &call.lists,
            &call.reals,
        );
        *self.tally = tally;
        reply
    }
}

// The memory that the calls of a run are lent.
#[derive(Drop)]
pub struct Memory {
    pub words: Vec<u64>,
    pub coords: Vec<f64>,
    pub fold: Vec<u64>,
    pub tally: Tally,
    pub set: Vec<u64>,
    // room for a file
    pub buffer: Vec<u8>,
}

impl Memory {
    pub fn new(alloc: Global) -> Result<Memory, AllocError>
        ensures { IfOk result (λ m. (vec_len m.words ≡ 13671) × (vec_len m.coords ≡ 105280) × (vec_len m.fold ≡ 3556) × (vec_len m.set ≡ 3556)) }
    {
        Memory::with_room(alloc, FILE_BYTES)
    }

    // The same with so much room for a file.
    pub fn with_room(alloc: Global, room: usize) -> Result<Memory, AllocError>
        ensures { IfOk result (λ m. (vec_len m.words ≡ 13671) × (vec_len m.coords ≡ 105280) × (vec_len m.fold ≡ 3556) × (vec_len m.set ≡ 3556) × (vec_len m.buffer ≡ room)) }
    {
        Ok(Memory {
            words: vec![in alloc; 0; MAP_WORDS]?,
            coords: vec![in alloc; 0.0; MAP_COORDS]?,
            fold: vec![in alloc; 0; SET_WORDS]?,
            tally: Tally {
                created: 0,
                modified: 0,
                deleted: 0,
            },
            set: vec![in alloc; 0; SET_WORDS]?,
            buffer: vec![in alloc; 0; room]?,
        })
    }

    // The edit that stands from `at` on, carried out.
    pub fn carry(&mut self, text: &[u8], at: usize) -> Reply {
        let mut lent = Lent {
            words: &mut self.words,
            coords: &mut self.coords,
            fold: &mut self.fold,
            tally: &mut self.tally,
            set: &mut self.set,
        };
        lent.carry(&Call::read(text, at))
    }

    // The map file whose bytes stand from `at` on, opened: a run begins.
    pub fn open(&mut self, text: &[u8], at: usize) -> Reply {
        let size = bytes::bytes_at(text, at, &mut self.buffer);
        let file = self.buffer.get(..size).unwrap_or(&[]);
        match files::open_map(file, &mut self.words, &mut self.coords, &mut self.fold) {
            Ok(tally) => {
                self.tally = tally;
                reply(0)
            }
            Err(why) => reply(why.number()),
        }
    }

    // Every word and every coordinate in one number, to tell whether a refusal altered any.
    pub fn checksum(&self) -> u64 {
        let words = bytes::hash_words(&self.words, bytes::HASH_START);
        let coords = bytes::hash_doubles(&self.coords, words);
        let fold = bytes::hash_words(&self.fold, coords);
        bytes::hash_words(&self.set, fold)
    }
}
