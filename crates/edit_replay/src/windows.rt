// A file that is read on, a window at a time, in as much memory for a long one as for a short one.
use std::alloc::{AllocError, Global};
use std::fs::File;
use std::io;
use std::os::unix::fs::FileExt;

// How long a window is.
const WINDOW: usize = 65536;

// How much is read at a time: more than a window, so that most windows were read with the ones before them.
const READ: usize = 131072;

#[derive(Drop)]
pub struct Windows<'a> {
    file: &'a File,
    // where the next window begins in the file
    place: u64,
    // what was read last: from `from` to `to` it is what stands in the file from that place on
    buffer: Vec<u8>,
    from: usize,
    to: usize,
    // whether the file has no more
    is_all: bool,
}

impl<'a> Windows<'a> {
    pub fn new(alloc: Global, file: &'a File) -> Result<Windows<'a>, AllocError> {
        Ok(Windows {
            file,
            place: 0,
            buffer: vec![in alloc; 0; READ]?,
            from: 0,
            to: 0,
            is_all: false,
        })
    }

    // The window that begins at the place come to: shorter near the end of the file, empty at it.
    pub fn window(&mut self) -> io::Result<&[u8]> {
        let rest = self.to.saturating_sub(self.from);
        if rest < WINDOW && !self.is_all {
            self.from = 0;
            self.to = self.file.read_at(&mut self.buffer, self.place)?;
            self.is_all = self.to <= rest;
        }
        let read = self.buffer.get(self.from..self.to).unwrap_or(&[]);
        Ok(read.get(..WINDOW).unwrap_or(read))
    }

    // The next window begins so many bytes on.
    pub fn pass(&mut self, bytes: usize) {
        self.place = self.place.saturating_add(bytes as u64);
        self.from = self.from.saturating_add(bytes);
    }
}
