// The number of a refusal and what it means, in words. An error is that of the write which failed.
#![tactic(auto)]

pub mod meant; // meant.rt: which stops a place stands for, which place there is none of

use network::Ready;
use questions::Question;
use std::io;

// 8, and that the moment which was searched for has the seconds of midnight in it.
fn print_outside(rt: &impl Print, midnight: u32) -> io::Result<()> {
    print!(rt; ": query moment outside 1 to 1,000,000")?;
    if midnight != 0 {
        print!(rt; ", with the {midnight} seconds of midnight")?;
    }
    println!(rt)
}

// What a fault of the tables is, and where it stands, if the tables are a file's.
fn print_fault(rt: &impl Print, path: &[u8], fault: &str) -> io::Result<()> {
    println!(rt; ": {fault}")?;
    if path.is_empty() {
        return Ok(());
    }
    print!(rt; "tools/fault.py ")?;
    print::text(rt, path)?;
    println!(rt; " says where")
}

// What the number of a refusal means, in document 01's words, and the line's end.
pub fn print_meaning(
    rt: &impl Print,
    ready: Ready<'_>,
    number: u32,
    asked: Question,
) -> io::Result<()> {
    let fault = match number {
        1 => "a count over its limit, a route without a stop, a slice of wrong length",
        2 => "an index out of range, or a list breaking a listing rule",
        3 => {
            "a timetable moment outside 1 to 1,000,000; arrival after departure at a position; departure after the next position's arrival"
        }
        4 => "trips of a route out of order",
        6 => return println!(rt; ": a workspace slice of wrong length"),
        7 => {
            print!(rt; ": a stop or area that does not exist")?;
            return meant::print_missing(rt, ready.tables, asked.query);
        }
        8 => return print_outside(rt, asked.midnight),
        9 => return println!(rt; ": an area without a served stop"),
        // 5, which any other number is told as too
        _ => {
            "a distance that is NaN, below 0 or above 100,000; a stated transfer span above 86,400"
        }
    };
    print_fault(rt, ready.path, fault)
}
