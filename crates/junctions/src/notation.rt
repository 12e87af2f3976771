// Whether a line of the input is in the notation of the requests, word by word, and what is wrong with it in words. The readers of
// requests take any text; a line that they would read as something else than it says is found here first.
use std::{fmt, io, str};

// A line: the text from its start to the end of all, its own bytes with the line end, and its number.
#[derive(Clone, Copy)]
pub struct Line<'a> {
    pub text: &'a [u8],
    pub bytes: &'a [u8],
    pub number: u64,
}

impl<'a> Line<'a> {
    // The word that stands from there on, up to a blank or the line's end.
    pub fn word(&self, at: usize) -> &'a [u8] {
        word_of(self.bytes, at)
    }

    // What stands from there on, with the line's end.
    pub fn rest(&self, at: usize) -> &'a [u8] {
        self.bytes.get(at..).unwrap_or(&[])
    }
}

fn word_of(bytes: &[u8], at: usize) -> &[u8] {
    let rest = bytes.get(at..).unwrap_or(&[]);
    rest.split(|b| *b <= b' ').next().unwrap_or(rest)
}

// What a line asks for, by its first word.
#[derive(Clone, Copy, PartialEq, Eq)]
pub enum Command {
    Map,
    Line,
    Light,
    Links,
    Fold,
    Show,
}

impl Command {
    pub fn named(word: &[u8]) -> Option<Command> {
        match word {
            b"map" => Some(Command::Map),
            b"line" => Some(Command::Line),
            b"light" => Some(Command::Light),
            b"links" => Some(Command::Links),
            b"fold" => Some(Command::Fold),
            b"show" => Some(Command::Show),
            _ => None,
        }
    }
}

// What a word is not.
#[derive(Clone, Copy)]
pub enum Wanted {
    Number,
    Double,
    File,
    End,
}

impl fmt::Display for Wanted {
    fn fmt<W: fmt::Write>(&self, f: &mut fmt::Formatter<W>) -> fmt::Result {
        f.write_str(match self {
            Wanted::Number => " is no whole number below 2^64",
            Wanted::Double => " is no double (16 hexadecimal digits)",
            Wanted::File => " is no map file (pairs of hexadecimal digits)",
            Wanted::End => " is more than this line takes",
        })
    }
}

// The word that stands there is not what is wanted.
#[derive(Clone, Copy)]
pub struct Fault {
    pub at: usize,
    pub wanted: Wanted,
}

// The words of a line, from a place on.
#[derive(Drop)]
struct Words<'a> {
    line: &'a [u8],
    at: usize,
}

impl<'a> Words<'a> {
    fn take(&mut self) -> &'a [u8] {
        let word = word_of(self.line, self.at);
        self.at = self.at.saturating_add(word.len()).saturating_add(1);
        word
    }

    fn number(&mut self) -> Result<u64, Fault> {
        let at = self.at;
        number_of(self.take()).ok_or(Fault {
            at,
            wanted: Wanted::Number,
        })
    }

    fn double(&mut self) -> Result<(), Fault> {
        let at = self.at;
        let word = self.take();
        if word.len() == 16 && is_hex(word) {
            return Ok(());
        }
        Err(Fault {
            at,
            wanted: Wanted::Double,
        })
    }

    fn file(&mut self) -> Result<(), Fault> {
        let at = self.at;
        let word = self.take();
        if !word.is_empty() && word.len() % 2 == 0 && is_hex(word) {
            return Ok(());
        }
        Err(Fault {
            at,
            wanted: Wanted::File,
        })
    }

    fn numbers(&mut self) -> Result<(), Fault> {
        for _ in 0..self.number()? {
            self.number()?;
        }
        Ok(())
    }

    fn point(&mut self) -> Result<(), Fault> {
        self.double()?;
        self.double()?;
        self.double()
    }

    fn points(&mut self) -> Result<(), Fault> {
        for _ in 0..self.number()? {
            self.point()?;
        }
        Ok(())
    }

    fn lamps(&mut self) -> Result<(), Fault> {
        for _ in 0..self.number()? {
            self.point()?;
            self.number()?;
            self.number()?;
        }
        Ok(())
    }

    // Whether something is given here: anything but 0 says so.
    fn is_given(&mut self) -> Result<bool, Fault> {
        Ok(self.number()? != 0)
    }

    fn placement(&mut self) -> Result<(), Fault> {
        match self.number()? {
            2 => self.points(),
            _ => self.double(),
        }
    }

    fn stop_line(&mut self) -> Result<(), Fault> {
        self.numbers()?;
        self.placement()?;
        self.number()?;
        Ok(())
    }

    fn line_choice(&mut self) -> Result<(), Fault> {
        match self.number()? {
            1 => self.number().map(|_| ()),
            2 => self.placement(),
            _ => Ok(()),
        }
    }

    fn light(&mut self) -> Result<(), Fault> {
        self.numbers()?;
        self.line_choice()?;
        if self.is_given()? {
            self.points()?;
        }
        if self.is_given()? {
            self.double()?;
        }
        self.number()?;
        if self.is_given()? {
            self.lamps()?;
        }
        if self.is_given()? {
            self.number()?;
        }
        Ok(())
    }

    fn links(&mut self) -> Result<(), Fault> {
        self.number()?;
        self.numbers()?;
        self.numbers()?;
        self.numbers()
    }

    // The words behind the name of a line.
    fn fields(&mut self, command: Command) -> Result<(), Fault> {
        match command {
            Command::Map => self.file(),
            Command::Line => self.stop_line(),
            Command::Light => self.light(),
            Command::Links => self.links(),
            Command::Fold | Command::Show => Ok(()),
        }
    }
}

fn number_of(word: &[u8]) -> Option<u64> {
    // `parse` would take a sign
    if !word.iter().all(|b| b.is_ascii_digit()) {
        return None;
    }
    str::from_utf8(word).ok()?.parse().ok()
}

fn is_hex(word: &[u8]) -> bool {
    word.iter().all(|b| b.is_ascii_hexdigit())
}

// Whether the line is in the notation.
pub fn check(command: Command, line: Line<'_>) -> Result<(), Fault> {
    let mut words = Words {
        line: line.bytes,
        at: 0,
    };
    words.take();
    words.fields(command)?;
    if words.at < line.bytes.len() {
        return Err(Fault {
            at: words.at,
            wanted: Wanted::End,
        });
    }
    Ok(())
}

// The word that stands there, in quotes; no more than 40 letters of it. A word need not be UTF-8.
pub fn print_quoted(rt: &impl Print, line: Line<'_>, at: usize) -> io::Result<()> {
    let word = line.word(at);
    print!(rt; "'")?;
    rt.write_all(word.get(..40).unwrap_or(word))?;
    print!(rt; "'")
}

// The start of a message.
pub fn print_place(rt: &impl Print, line: Line<'_>) -> io::Result<()> {
    print!(rt; "line {}: ", line.number)
}

// A word that is missing where a blank stands, or the end of a line after one.
pub fn print_blank(rt: &impl Print, blank: u8) -> io::Result<()> {
    match blank {
        b'\n' | b'\r' => println!(rt; "a blank or a carriage return at its end"),
        _ => println!(rt; "a blank too many"),
    }
}

pub fn print_fault(rt: &impl Print, line: Line<'_>, fault: Fault) -> io::Result<()> {
    print_place(rt, line)?;
    match line.bytes.get(fault.at) {
        None => println!(rt; "ends too early"),
        Some(b) if *b <= b' ' => print_blank(rt, *b),
        Some(_) => {
            print_quoted(rt, line, fault.at)?;
            println!(rt; "{}", fault.wanted)
        }
    }
}
