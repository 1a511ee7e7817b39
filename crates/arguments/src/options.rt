// The options behind the four arguments that a query has, in any order and each at most once.
ghost use Rattle.std.specs.Prelude.{◌≡◌};
ghost use Rattle.arguments.specs.Options.{unsaid, walks_said, mode_said, tables_said, midnight_said, said_of, with_said};

use super::bytes;
use super::bytes::NoNumber;
use std::fmt;

// What is said so far.
#[derive(Clone, Copy)]
pub struct Options {
    // `walks:yes` or `walks:no`
    pub walks: Option<bool>,
    // whether `mode:rescan` is said and not `mode:source`
    pub rescan: Option<bool>,
    // the place of the argument that names a file of tables
    pub file: Option<usize>,
    // the seconds of midnight
    pub midnight: Option<u32>,
    // whether the journey is asked for as bytes
    pub bytes: bool,
}

// The option that an argument is.
#[derive(Clone, Copy)]
pub enum Said {
    Walks(bool),
    Rescan(bool),
    Tables,
    Midnight(u32),
    Bytes,
}

// Why an argument is no option that may be taken.
#[derive(Clone, Copy)]
pub enum NoOption {
    Twice(Said),
    BadWalks,
    BadMode,
    BadTables,
    BadMidnight,
    Unknown,
}

// The name of the option.
impl fmt::Display for Said {
    fn fmt<W: fmt::Write>(&self, f: &mut fmt::Formatter<W>) -> fmt::Result {
        match self {
            Said::Walks(_) => write!(f, "walks"),
            Said::Rescan(_) => write!(f, "mode"),
            Said::Tables => write!(f, "tables"),
            Said::Midnight(_) => write!(f, "midnight"),
            Said::Bytes => write!(f, "bytes"),
        }
    }
}

// What is said behind the argument that is none.
impl fmt::Display for NoOption {
    fn fmt<W: fmt::Write>(&self, f: &mut fmt::Formatter<W>) -> fmt::Result {
        match self {
            NoOption::Twice(said) => write!(f, ": {said} is given twice, and may be given once"),
            NoOption::BadWalks => write!(f, " is no option: walks is yes or no"),
            NoOption::BadMode => write!(f, " is no option: mode is source or rescan"),
            NoOption::BadTables => write!(f, " names no file"),
            NoOption::BadMidnight => write!(
                f,
                " is no option: midnight is a number of seconds, at most 4294967295"
            ),
            NoOption::Unknown => write!(
                f,
                " is no option: there are walks, mode, tables, midnight and bytes"
            ),
        }
    }
}

pub fn none() -> Options
    ensures { result ≡ unsaid }
{
    Options {
        walks: None,
        rescan: None,
        file: None,
        midnight: None,
        bytes: false,
    }
}

fn walks_said(arg: &[u8]) -> Result<Said, NoOption>
    ensures { result ≡ walks_said arg.now }
{
    if bytes::is(arg, b"walks:yes") {
        return Ok(Said::Walks(true));
    }
    if bytes::is(arg, b"walks:no") {
        return Ok(Said::Walks(false));
    }
    Err(NoOption::BadWalks)
}

fn mode_said(arg: &[u8]) -> Result<Said, NoOption>
    ensures { result ≡ mode_said arg.now }
{
    if bytes::is(arg, b"mode:source") {
        return Ok(Said::Rescan(false));
    }
    if bytes::is(arg, b"mode:rescan") {
        return Ok(Said::Rescan(true));
    }
    Err(NoOption::BadMode)
}

fn tables_said(arg: &[u8]) -> Result<Said, NoOption>
    ensures { result ≡ tables_said arg.now }
{
    if 7 < arg.len() {
        return Ok(Said::Tables);
    }
    Err(NoOption::BadTables)
}

fn midnight_said(seconds: Result<u32, NoNumber>) -> Result<Said, NoOption>
    ensures { result ≡ midnight_said seconds }
{
    match seconds {
        Ok(t) => Ok(Said::Midnight(t)),
        Err(_) => Err(NoOption::BadMidnight),
    }
}

// The option that an argument is.
pub fn said_of(arg: &[u8]) -> Result<Said, NoOption>
    ensures { result ≡ said_of arg.now }
{
    if bytes::begins_with(arg, b"walks:") {
        return walks_said(arg);
    }
    if bytes::begins_with(arg, b"mode:") {
        return mode_said(arg);
    }
    if bytes::begins_with(arg, b"tables:") {
        return tables_said(arg);
    }
    if bytes::begins_with(arg, b"midnight:") {
        return midnight_said(bytes::number_in(arg, 9, arg.len()));
    }
    if bytes::is(arg, b"bytes") {
        return Ok(Said::Bytes);
    }
    Err(NoOption::Unknown)
}

// The options with one more, which argument i said; why it said none is handed on.
pub fn with_said(o: Options, said: Result<Said, NoOption>, i: usize) -> Result<Options, NoOption>
    ensures { result ≡ with_said o said i }
{
    let said = said?;
    let mut more = o;
    let twice = match said {
        Said::Walks(yes) => more.walks.replace(yes).is_some(),
        Said::Rescan(rescan) => more.rescan.replace(rescan).is_some(),
        Said::Tables => more.file.replace(i).is_some(),
        Said::Midnight(t) => more.midnight.replace(t).is_some(),
        Said::Bytes => std::mem::replace(&mut more.bytes, true),
    };
    if twice {
        return Err(NoOption::Twice(said));
    }
    Ok(more)
}
