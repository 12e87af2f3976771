// What was stored of answers.
use crate::{Memory, details};
use call_list::Reply;
use place::{EndName, SectionNames};
use refusal::Refusal;
use sample_text::{bytes, expect_number, number_at, word_at};

// A stored answer, compared word by word: where the next word starts, or 0 once one is another than was expected. A place and no part of
// the text, since the end of a line is told by the byte before it.
#[derive(Clone, Copy)]
pub struct Stored<'a> {
    pub text: &'a [u8],
    pub at: usize,
}

impl Stored<'_> {
    pub fn number(&mut self, n: u64) {
        self.at = expect_number(self.text, self.at, n);
    }

    // A file that was written to a buffer.
    fn file(&mut self, written: Result<usize, Refusal>, buffer: &[u8]) {
        let file = written.ok().and_then(|size| buffer.get(..size));
        self.at = match file {
            Some(file) if self.at != 0 => bytes::expect_file(self.text, self.at, file),
            _ => 0,
        };
    }

    // The file of a change set or a fold. The buffer is room for it.
    pub fn set(&mut self, set: &[u64], buffer: &mut [u8]) {
        let written = files::write_changes(set, buffer);
        self.file(written, buffer);
    }

    // The map's file, or its hash.
    pub fn map(&mut self, words: &[u64], coords: &[f64], buffer: &mut [u8]) {
        let written = files::write_map(words, coords, buffer);
        self.file(written, buffer);
    }

    // A word of one letter.
    fn letter(&mut self, letter: u8) {
        let word = word_at(self.text, self.at);
        let is_met = self.at != 0 && matches!(word.value, [b] if *b == letter);
        self.at = if is_met { word.next } else { 0 };
    }

    fn end(&mut self, end: EndName) {
        self.number(end.lane);
        self.number(end.side as u64);
    }

    // The ends of the answer: `-`, or `+` with lane and side of the left one and of the right one.
    pub fn ends(&mut self, ends: Option<SectionNames>) {
        match ends {
            None => self.letter(b'-'),
            Some(names) => {
                self.letter(b'+');
                self.end(names.left);
                self.end(names.right);
            }
        }
    }

    // Whether all words were as expected and the line ends here.
    pub fn is_over(&self) -> bool {
        let before = self.text.get(..self.at).unwrap_or(&[]);
        before.ends_with(b"\n")
    }
}

// The number that the samples have for an answer: for links they have 0, and here it is the rule's.
fn stored_number(text: &[u8], request: usize, number: u64) -> u64 {
    let word = word_at(text, request);
    let is_rule = matches!(word.value, b"links") && number_at(text, word.next).value == number;
    if is_rule { 0 } else { number }
}

impl Memory {
    // The number, change set, ends and map of an answer.
    fn expect(&mut self, stored: &mut Stored<'_>, number: u64, ends: Option<SectionNames>) {
        stored.number(number);
        stored.set(&self.set, &mut self.buffer);
        stored.ends(ends);
        stored.map(&self.words, &self.coords, &mut self.buffer);
    }

    // Whether the answer that is stored at a place is this one with these files: `done` of the samples, with the fold behind, or `ok` of
    // the examples.
    pub fn done_as(&mut self, request: &[u8], text: &[u8], at: usize, r: Reply) -> bool {
        let word = word_at(text, at);
        let mut stored = Stored {
            text,
            at: word.next,
        };
        match word.value {
            b"ok" => self.expect(&mut stored, r.number, r.ends),
            b"done" => {
                self.expect(&mut stored, stored_number(request, 0, r.number), r.ends);
                stored.set(&self.fold, &mut self.buffer);
            }
            _ => return false,
        }
        stored.is_over()
    }
}

// Whether the answer that is stored at a place is this refusal with its details: `refused` in the samples, `err` in the examples.
pub fn refused_as(text: &[u8], at: usize, r: Reply) -> bool {
    let word = word_at(text, at);
    let mut stored = Stored {
        text,
        at: word.next,
    };
    stored.number(r.what);
    for detail in [r.detail, r.second].iter().take(details(r.what)) {
        stored.number(*detail);
    }
    matches!(word.value, b"refused" | b"err") && stored.is_over()
}
