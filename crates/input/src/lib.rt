// The bytes of an input, which the programs that read standard input share.
#![tactic(auto)]

ghost use Rattle.std.specs.Prelude.{◌≤◌, length, IfOk, MatchResult};

use std::io;
use std::io::Read;

// An input of which a read failed.
#[derive(Clone, Copy, Debug, PartialEq, Eq)]
pub struct Unreadable;

// A read that failed, and how many bytes had been read before it.
#[derive(Clone, Copy)]
struct Cut {
    count: usize,
    error: io::Error,
}

// Reads until the input ends, the buffer is full or a read fails: how many bytes were read.
fn fill(from: &mut impl Read, bytes: &mut [u8]) -> Result<usize, Cut>
    ensures { MatchResult result (λ n. n ≤ length bytes.new) (λ cut. cut.count ≤ length bytes.new) }
{
    let mut count = 0;
    // Stays a while: it goes on by what a read gives.
    while count < bytes.len() {
        match from.read(&mut bytes[count..]) {
            Ok(0) => break,
            Ok(more) => count += more,
            Err(error) => return Err(Cut { count, error }),
        }
    }
    Ok(count)
}

// Reads until the input ends, the buffer is full or a read fails: how many bytes were read.
pub fn read_input(from: &mut impl Read, bytes: &mut [u8]) -> io::Result<usize>
    ensures { IfOk result (λ n. n ≤ length bytes.new) }
{
    fill(from, bytes).map_err(|cut| cut.error)
}

// The same where it is not told why a read failed.
pub fn read_or_unreadable(from: &mut impl Read, bytes: &mut [u8]) -> Result<usize, Unreadable>
    ensures { IfOk result (λ n. n ≤ length bytes.new) }
{
    fill(from, bytes).map_err(|_| Unreadable)
}

// The same where a read that fails is the input's end.
pub fn read_full(from: &mut impl Read, bytes: &mut [u8]) -> usize
    ensures { result ≤ length bytes.new }
{
    fill(from, bytes).unwrap_or_else(|cut| cut.count)
}

#[cfg(test)]
mod tests; // tests.rt: which bytes are read, and which error is told
