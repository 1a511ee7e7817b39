// A feed in words: how its reading ended, how much was taken, and the rows. An error is that of the write which failed.
#![tactic(auto)]

use gtfs_read::{File, Told, Unfinished};
use std::io;

// "an unstated span is MAX"
const UNSTATED: u32 = 4_294_967_295;

// Rows of four words, each on a line.
pub fn print_rows(rt: &impl Print, file: File, words: &[u32]) -> io::Result<()> {
    let (rows, _) = words.as_chunks::<4>();
    for &[first, second, third, last] in rows {
        match file {
            File::StopTimes => println!(rt; "time {first} {second} {third} {last}")?,
            File::Transfers if last == UNSTATED => {
                println!(rt; "transfer {first} {second} {third} unstated")?
            }
            File::Transfers => println!(rt; "transfer {first} {second} {third} {last}")?,
        }
    }
    Ok(())
}

// The number of a feed that was not read to its end, and where a bad line stands.
pub fn print_number(rt: &impl Print, t: Told) -> io::Result<()> {
    match t.ending {
        Ok(()) => Ok(()),
        Err(
            Unfinished::Bad {
                file: File::StopTimes,
                line,
            },
        ) => println!(rt; "14 stop_times {line}"),
        Err(
            Unfinished::Bad {
                file: File::Transfers,
                line,
            },
        ) => println!(rt; "14 transfers {line}"),
        Err(unfinished) => println!(rt; "{}", u32::from(unfinished)),
    }
}

// How much was taken.
pub fn print_counts(rt: &impl Print, t: Told) -> io::Result<()> {
    println!(rt;
        "read {} stops {} trips {} times {} transfers",
        t.stops, t.trips, t.times, t.transfers
    )
}

// The number of a writer that wrote nothing.
pub fn print_refused(rt: &impl Print, number: u32) -> io::Result<()> {
    println!(rt; "not written: {number}")
}
