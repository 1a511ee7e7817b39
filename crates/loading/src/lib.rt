// The words of flat tables from a file: decimal numbers with spaces or line ends between them, and `net` before them or not.
#![tactic(auto)]

use std::io::Read;
use std::rt::Files;
use std::{fmt, fs, io};

// What stops the reading.
#[derive(Clone, Copy)]
pub enum Fault {
    Unread,
    // the first byte is `#` or a letter that no tables begin with
    Timetable,
    // more words than these, for which there is room
    TooMany(usize),
    // a number above 2^32 - 1, after so many words
    TooLarge(usize),
    // something that is no number, after so many words
    NoNumber(usize),
}

// What is said behind the file's name.
impl fmt::Display for Fault {
    fn fmt<W: fmt::Write>(&self, f: &mut fmt::Formatter<W>) -> fmt::Result {
        match self {
            Fault::Unread => write!(f, " cannot be read"),
            Fault::Timetable => write!(
                f,
                " has no number first: this looks like a timetable: tools/timetable.py turns it into tables"
            ),
            Fault::TooMany(count) => write!(
                f,
                " has more than {count} words, and this program has no room for more: link the library (see README)"
            ),
            Fault::TooLarge(count) => {
                write!(f, " has, after {count} words, a number above 4294967295")
            }
            Fault::NoNumber(count) => {
                write!(f, " has, after {count} words, something that is no number")
            }
        }
    }
}

// What is open where a byte comes.
#[derive(Clone, Copy)]
enum Open {
    // no word has begun yet
    First,
    // a space or a line's end stands before it
    Nothing,
    Number(u32),
    // a part of `net`, which only a file's first word may be, up to this letter
    Net(Letter),
}

#[derive(Clone, Copy)]
enum Letter {
    N,
    E,
    T,
}

// What is known of the file so far: how many words are stored, and what is open.
#[derive(Clone, Copy)]
struct Words {
    count: usize,
    open: Open,
}

impl Words {
    // Stores an open number.
    #[inline(always)]
    fn store(&mut self, tables: &mut [u32], number: u32) -> Result<(), Fault> {
        if tables.len() <= self.count {
            return Err(Fault::TooMany(self.count));
        }
        tables[self.count] = number;
        self.count += 1;
        self.open = Open::Nothing;
        Ok(())
    }

    // Closes what is open: by a space, a line's end or the file's.
    #[inline(always)]
    fn close(&mut self, tables: &mut [u32]) -> Result<(), Fault> {
        match self.open {
            Open::First | Open::Nothing => Ok(()),
            Open::Number(number) => self.store(tables, number),
            Open::Net(Letter::T) => {
                self.open = Open::Nothing;
                Ok(())
            }
            Open::Net(_) => Err(Fault::NoNumber(self.count)),
        }
    }

    // Goes on with a byte that is no digit: one of `net`, or what a timetable begins with.
    fn letter(&mut self, b: u8) -> Result<(), Fault> {
        self.open = match (self.open, b) {
            (Open::First, b'n') => Open::Net(Letter::N),
            (Open::Net(Letter::N), b'e') => Open::Net(Letter::E),
            (Open::Net(Letter::E), b't') => Open::Net(Letter::T),
            (Open::First, b'#' | b'a'..=b'z') => return Err(Fault::Timetable),
            _ => return Err(Fault::NoNumber(self.count)),
        };
        Ok(())
    }

    // Goes on with a digit.
    #[inline(always)]
    fn digit(&mut self, b: u8) -> Result<(), Fault> {
        let value = match self.open {
            Open::First | Open::Nothing => 0,
            Open::Number(value) => value,
            Open::Net(_) => return Err(Fault::NoNumber(self.count)),
        };
        let longer = arguments::bytes::longer(value, b);
        if longer > u64::from(u32::MAX) {
            return Err(Fault::TooLarge(self.count));
        }
        self.open = Open::Number(longer as u32);
        Ok(())
    }

    // Goes on with one more byte. The steps are small, and are made where they are taken: a file has many bytes.
    #[inline(always)]
    fn feed(&mut self, tables: &mut [u32], b: u8) -> Result<(), Fault> {
        match b {
            b' ' | b'\n' | b'\r' => self.close(tables),
            b'0'..=b'9' => self.digit(b),
            _ => self.letter(b),
        }
    }
}

// Goes on with a block of bytes.
fn feed_all(tables: &mut [u32], words: Words, block: &[u8]) -> Result<Words, Fault> {
    let mut w = words;
    for b in block {
        w.feed(tables, *b)?;
    }
    Ok(w)
}

// Reads the whole of an open file: how many words it has. A proved loop has to end, and nothing says that a file does: no run uses up
// so many turns.
fn read_all(file: &mut impl Read, tables: &mut [u32]) -> Result<usize, Fault> {
    let mut block = [0u8; 2048];
    let mut w = Words {
        count: 0,
        open: Open::First,
    };
    for _ in 0..u64::MAX {
        match file.read(&mut block) {
            Ok(0) => break,
            Ok(n) => w = feed_all(tables, w, &block[..n])?,
            Err(_) => return Err(Fault::Unread),
        }
    }
    w.close(tables)?;
    Ok(w.count)
}

// Puts the words of the file into the tables: how many they are. A name that is no UTF-8 is that of no file that can be read.
pub fn load(rt: &impl Files, path: &[u8], tables: &mut [u32]) -> Result<usize, Fault> {
    let Ok(name) = str::from_utf8(path) else {
        return Err(Fault::Unread);
    };
    match fs::open(rt, name) {
        Ok(mut file) => read_all(&mut file, tables),
        Err(_) => Err(Fault::Unread),
    }
}

// Says what stopped the reading. An error is that of the write which failed.
pub fn print_fault(rt: &impl Print, path: &[u8], fault: Fault) -> io::Result<()> {
    print!(rt; "tables: ")?;
    print::text(rt, path)?;
    println!(rt; "{fault}")
}
