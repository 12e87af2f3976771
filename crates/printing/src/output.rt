// Where the programs print to.
use std::fmt::Display;
use std::io;

// What cannot be written is let go, and the program goes on to its end: what it finds out does not depend on who reads it.
#[derive(Clone, Copy)]
pub struct Output<'a, R>(pub &'a R);

impl<R: Print> Print for Output<'_, R> {
    fn print<D: Display + Drop>(&self, value: D) -> io::Result<()> {
        self.0.print(value).or(Ok(()))
    }

    fn println<D: Display + Drop>(&self, value: D) -> io::Result<()> {
        self.0.println(value).or(Ok(()))
    }

    fn write_all(&self, bytes: &[u8]) -> io::Result<()> {
        self.0.write_all(bytes).or(Ok(()))
    }
}
