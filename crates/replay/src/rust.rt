// A query `q fromkind from tokind to d|a moment walks`, and `r` behind it for the rescan mode, answered in the form in which the Rust's
// answers are kept: the number, and where it is 0 time, stop, round, how many legs, and the legs.
use model::{Answer, Error, Found, Query};
use std::io;

// What was found, and its journey: how many legs, and each leg.
fn print_found(rt: HostRuntime, journey: &[u8], found: Found) -> io::Result<()> {
    print!(rt; "0 {} {} {}", found.time.0, found.stop, found.round)?;
    let Some(bytes) = journey.get(..found.length) else {
        return Ok(());
    };
    let Ok(legs) = journey::read(bytes) else {
        return Ok(());
    };
    print!(rt; " {legs}")?;
    print::legs(&rt, bytes, b" | ", b"", b"")
}

fn print_answer(rt: HostRuntime, journey: &[u8], told: Option<Answer>) -> io::Result<()> {
    match told {
        Some(Ok(found)) => print_found(rt, journey, found)?,
        Some(Err(Error::Refused(refusal))) => print!(rt; "{}", u32::from(refusal))?,
        Some(Err(Error::NoRouteFound)) => print!(rt; "10")?,
        Some(Err(Error::FailedToBuildRoute)) => print!(rt; "11")?,
        Some(Err(Error::TooLong(length))) => print!(rt; "12 {length}")?,
        None => print!(rt; "too large")?,
    }
    println!(rt)
}

// A query on the tables, asked and answered.
fn answer(rt: HostRuntime, tables: &[u32], q: Query) -> io::Result<()> {
    let mut words = [0u32; 4096];
    let mut marks = [0u64; 32];
    let mut places = [0u32; 128];
    let mut journey = [0u8; 4096];
    let told = asking::ask(tables, &mut words, &mut marks, &mut places, &mut journey, q);
    print_answer(rt, &journey, told)
}

// The query that the words of a line are, asked and answered.
pub fn answer_line(rt: HostRuntime, tables: &[u32], line: &[u32]) -> io::Result<()> {
    let mode = line.get(7).copied().unwrap_or(u32::from(b's'));
    match asking::query(line, mode) {
        Some(q) => answer(rt, tables, q),
        None => println!(rt; "no query"),
    }
}
