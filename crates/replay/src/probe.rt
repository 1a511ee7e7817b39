// A query `p fromkind from tokind to d|a moment walks mode buffer fault`, and all that `solve` answers and leaves. Walks 0 not, 1 allowed,
// 2 unsaid; mode `s` or `r`; the bytes of the journey buffer, at most 4,096; fault 0 for a workspace of the right lengths, 1, 2, 3 for
// words, marks, places that are one short. Before each query every slice is filled with sevens. Printed: number, time, stop, round, length;
// then words, marks, places and journey, as `untouched` or by a digest of their contents.
ghost use Rattle.std.specs.Prelude.{◌≤◌};

use model::{Answer, Error, Query};
use raptor::Lengths;
use std::io;

fn print_answer(rt: HostRuntime, answer: Answer) -> io::Result<()> {
    match answer {
        Ok(found) => print!(rt;
            "0 {} {} {} {}",
            found.time.0, found.stop, found.round, found.length
        ),
        Err(Error::Refused(refusal)) => print!(rt; "{} 0 0 0 0", u32::from(refusal)),
        Err(Error::NoRouteFound) => print!(rt; "10 0 0 0 0"),
        Err(Error::FailedToBuildRoute) => print!(rt; "11 0 0 0 0"),
        Err(Error::TooLong(length)) => print!(rt; "12 0 0 0 {length}"),
    }
}

// A digest with one more word.
fn mixed(sum: u32, word: u64) -> u32
    ensures { result ≤ 1000002 }
{
    ((u64::from(sum) * 31 + word % 1000003) % 1000003) as u32
}

// A digest of what a slice holds.
fn digest<T: Copy + Into<u64>>(s: &[T]) -> u32 {
    let mut sum = 0;
    for word in s {
        sum = mixed(sum, (*word).into());
    }
    sum
}

// The digests of the four.
#[derive(Clone, Copy)]
struct Digests {
    words: u32,
    marks: u32,
    places: u32,
    journey: u32,
}

fn digest_all(words: &[u32], marks: &[u64], places: &[u32], journey: &[u8]) -> Digests {
    Digests {
        words: digest(words),
        marks: digest(marks),
        places: digest(places),
        journey: digest(journey),
    }
}

// What is left in a slice.
fn print_left(rt: HostRuntime, name: &str, before: u32, after: u32) -> io::Result<()> {
    if before == after {
        return print!(rt; ", {name} untouched");
    }
    print!(rt; ", {name} {after}")
}

fn print_all(rt: HostRuntime, before: Digests, after: Digests) -> io::Result<()> {
    print_left(rt, "words", before.words, after.words)?;
    print_left(rt, "marks", before.marks, after.marks)?;
    print_left(rt, "places", before.places, after.places)?;
    print_left(rt, "journey", before.journey, after.journey)?;
    println!(rt)
}

// Lends the slices to `solve`, and prints what comes back.
fn ask(
    rt: HostRuntime,
    tables: &[u32],
    words: &mut [u32],
    marks: &mut [u64],
    places: &mut [u32],
    journey: &mut [u8],
    q: Query,
) -> io::Result<()> {
    let before = digest_all(words, marks, places, journey);
    let answer = raptor::solve(tables, words, marks, places, journey, q);
    let after = digest_all(words, marks, places, journey);
    print_answer(rt, answer)?;
    print_all(rt, before, after)
}

// The lengths of the workspace that is lent: what the tables ask for, or one word each for tables that are refused; the fault makes one of
// them short by one.
fn lent_to(tables: &[u32], fault: u32) -> Lengths {
    let mut lent = raptor::room(tables).unwrap_or(Lengths {
        words: 1,
        marks: 1,
        places: 1,
    });
    match fault {
        1 => lent.words = lent.words.saturating_sub(1),
        2 => lent.marks = lent.marks.saturating_sub(1),
        3 => lent.places = lent.places.saturating_sub(1),
        _ => {}
    }
    lent
}

fn answer(rt: HostRuntime, tables: &[u32], q: Query, buffer: usize, fault: u32) -> io::Result<()> {
    let mut words = [7u32; 4096];
    let mut marks = [7u64; 32];
    let mut places = [7u32; 128];
    let mut journey = [7u8; 4096];
    let to = lent_to(tables, fault);
    let (Some(words), Some(marks), Some(places), Some(journey)) = (
        words.get_mut(..to.words),
        marks.get_mut(..to.marks),
        places.get_mut(..to.places),
        journey.get_mut(..buffer),
    ) else {
        return println!(rt; "too large");
    };
    ask(rt, tables, words, marks, places, journey, q)
}

pub fn answer_line(rt: HostRuntime, tables: &[u32], line: &[u32]) -> io::Result<()> {
    let [_, _, _, _, _, _, _, mode, buffer, fault, ..] = *line else {
        return println!(rt; "no query");
    };
    match asking::query(line, mode) {
        Some(q) => answer(rt, tables, q, buffer as usize, fault),
        None => println!(rt; "no query"),
    }
}
