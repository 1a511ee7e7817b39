// Answers the queries of a list. `net w0 w1 ..` are the tables of the queries below it; `q ..` is answered in the form in which the Rust's
// answers are kept (rust.rt), `p ..` with all that `solve` leaves (probe.rt).
#![tactic(auto)]

mod probe;
mod rust;

ghost use Rattle.std.specs.Prelude.{◌≤◌, IfOk, IfSome};

use lines::Line;
use std::io;

// The names of lines: the value of `net` is its last letter's.
const NET: u64 = b't' as u64;

const QUERY: u64 = b'q' as u64;

const PROBE: u64 = b'p' as u64;

// The line so far, and how many words the tables have.
#[derive(Clone, Copy)]
struct At {
    line: Line,
    count: usize,
}

// A query, in the form that the line's name asks for.
fn answer(rt: HostRuntime, tables: &[u32], line: &[u32], name: Option<u64>) -> io::Result<()> {
    match name {
        Some(QUERY) => rust::answer_line(rt, tables, line),
        Some(PROBE) => probe::answer_line(rt, tables, line),
        _ => Ok(()),
    }
}

// What a line that has ended asks for.
fn end(rt: HostRuntime, tables: &[u32], words: &[u32], at: At) -> io::Result<At>
    requires { IfSome at.line.token (λ v. v ≤ 4294967296) }
    ensures { IfOk result (λ a. IfSome a.line.token (λ v. v ≤ 4294967296)) }
{
    let line = at.line;
    if !line.ended {
        return Ok(at);
    }
    if line.name == Some(NET) {
        return Ok(At {
            line,
            count: line.count,
        });
    }
    if let (Some(tables), Some(words)) = (tables.get(..at.count), words.get(..line.count)) {
        answer(rt, tables, words, line.name)?;
    }
    Ok(at)
}

// Goes on with a block of bytes: the words of tables go to the tables, all others to the line.
fn feed_all(
    rt: HostRuntime,
    tables: &mut [u32],
    words: &mut [u32],
    at: At,
    block: &[u8],
) -> io::Result<At>
    requires { IfSome at.line.token (λ v. v ≤ 4294967296) }
    ensures { IfOk result (λ a. IfSome a.line.token (λ v. v ≤ 4294967296)) }
{
    let mut at = at;
    for b in block {
        at.line = if at.line.name == Some(NET) {
            at.line.step(tables, *b)
        } else {
            at.line.step(words, *b)
        };
        at = end(rt, tables, words, at)?;
    }
    Ok(at)
}

// A proved loop has to end, and nothing says that the input does: no run uses up so many turns.
fn main(rt: HostRuntime) -> io::Result<()> {
    let mut tables = [0u32; 4096];
    let mut words = [0u32; 64];
    let mut block = [0u8; 4096];
    let mut at = At {
        line: Line::new(),
        count: 0,
    };
    for _ in 0..u64::MAX {
        let got = input::read_full(&mut rt.stdin(), &mut block);
        if got == 0 {
            return Ok(());
        }
        at = feed_all(rt, &mut tables, &mut words, at, &block[..got])?;
    }
    Ok(())
}
