// Reads lines `net w0 w1 ..`, the words of flat tables, and prints for each the number that the check gives them: 0 for accepted tables.
#![tactic(auto)]

ghost use Rattle.std.specs.Prelude.{◌≤◌, IfOk, IfSome};

use lines::Line;
use std::io;

// The name of a line of tables: the value of `net` is its last letter's.
const NET: u64 = b't' as u64;

// The number of the tables.
fn number(tables: &[u32]) -> u32 {
    match check_tables::check(tables) {
        Ok(()) => 0,
        Err(refusal) => u32::from(refusal),
    }
}

// Prints the number of a line's tables, once the line has ended.
fn answer(rt: HostRuntime, words: &[u32], line: Line) -> io::Result<()> {
    if !line.ended || line.name != Some(NET) {
        return Ok(());
    }
    match words.get(..line.count) {
        Some(tables) if !line.bad => println!(rt; "{}", number(tables)),
        _ => println!(rt; "no words"),
    }
}

// Goes on with a block of bytes.
fn feed_all(rt: HostRuntime, words: &mut [u32], line: Line, block: &[u8]) -> io::Result<Line>
    requires { IfSome line.token (λ v. v ≤ 4294967296) }
    ensures { IfOk result (λ l. IfSome l.token (λ v. v ≤ 4294967296)) }
{
    let mut line = line;
    for b in block {
        line = line.step(words, *b);
        answer(rt, words, line)?;
    }
    Ok(line)
}

// A proved loop has to end, and nothing says that the input does: no run uses up so many turns.
fn main(rt: HostRuntime) -> io::Result<()> {
    let mut words = [0u32; 8192];
    let mut block = [0u8; 4096];
    let mut line = Line::new();
    for _ in 0..u64::MAX {
        let got = input::read_full(&mut rt.stdin(), &mut block);
        if got == 0 {
            return Ok(());
        }
        line = feed_all(rt, &mut words, line, &block[..got])?;
    }
    Ok(())
}
