// Rows written to two files and read again: whether they are the same. An error is that of a print which failed.
#![tactic(auto)]

ghost use Rattle.std.specs.Prelude.{◌≡◌};
ghost use Rattle.arguments.specs.Word.{begins_with};
ghost use Rattle.gtfs_again.specs.Again.{same_counts, again_as};

use gtfs_read::Told;
use std::io;

// What was read again, held to what was written. Stays an enum of its own: it has five cases.
#[derive(Clone, Copy, Debug, PartialEq, Eq)]
enum Again {
    Same,
    NotRead,
    OtherCounts,
    OtherTimes,
    OtherTransfers,
}

// Whether the words begin with those of `rows`.
fn begins_with(words: &[u32], rows: &[u32]) -> bool
    ensures { result ≡ begins_with words.now rows.now }
{
    words.starts_with(rows)
}

// Whether so much was taken both times.
#[tactic(auto, unfolding(crate::specs::Again::same_counts))]
fn same_counts(t: Told, u: Told) -> bool
    ensures { result ≡ same_counts t u }
{
    t.stops == u.stops && t.trips == u.trips && t.times == u.times && t.transfers == u.transfers
}

// The rows and what was told of them, first as they were written, then as they were read again.
#[tactic(auto, unfolding(crate::specs::Again::again_as))]
fn held(times: &[u32], paths: &[u32], t: Told, again: &[u32], again_paths: &[u32], u: Told) -> Again
    ensures { result ≡ again_as times.now paths.now t again.now again_paths.now u }
{
    if u.ending.is_err() {
        return Again::NotRead;
    }
    if !same_counts(t, u) {
        return Again::OtherCounts;
    }
    if !begins_with(again, times) {
        return Again::OtherTimes;
    }
    if !begins_with(again_paths, paths) {
        return Again::OtherTransfers;
    }
    Again::Same
}

// Says what it is.
fn print_again(rt: &impl Print, a: Again, u: Told) -> io::Result<()> {
    match a {
        Again::Same => println!(rt; "same"),
        Again::OtherCounts => println!(rt; "other counts"),
        Again::OtherTimes => println!(rt; "other times"),
        Again::OtherTransfers => println!(rt; "other transfers"),
        Again::NotRead => {
            print!(rt; "not read again: ")?;
            gtfs_telling::print_number(rt, u)
        }
    }
}

// Reads the files that were written.
fn read_again(
    rt: &impl Print,
    stop_times: &[u8],
    transfers: &[u8],
    times: &[u32],
    paths: &[u32],
    t: Told,
) -> io::Result<()> {
    let mut again = [0u32; 1024];
    let mut again_paths = [0u32; 256];
    let mut stops = [0u32; 64];
    let mut trips = [0u32; 64];
    let u = gtfs_read::read(
        stop_times,
        transfers,
        &mut again,
        &mut again_paths,
        &mut stops,
        &mut trips,
    );
    print_again(rt, held(times, paths, t, &again, &again_paths, u), u)
}

// Writes the transfers, where the times are written, and reads both files.
fn write_paths(
    rt: &impl Print,
    stop_times: &[u8],
    out: &mut [u8],
    times: &[u32],
    paths: &[u32],
    t: Told,
) -> io::Result<()> {
    match gtfs_write_transfers::write_transfers(paths, t.split, out) {
        Err(refusal) => gtfs_telling::print_refused(rt, refusal.into()),
        Ok(size) => match out.get(..size) {
            Some(transfers) => read_again(rt, stop_times, transfers, times, paths, t),
            None => Ok(()),
        },
    }
}

// Writes the times into one buffer, then the transfers into the other.
fn write_both(
    rt: &impl Print,
    out: &mut [u8],
    more: &mut [u8],
    times: &[u32],
    paths: &[u32],
    t: Told,
) -> io::Result<()> {
    match gtfs_write_times::write_times(times, out) {
        Err(refusal) => gtfs_telling::print_refused(rt, refusal.into()),
        Ok(size) => match out.get(..size) {
            Some(stop_times) => write_paths(rt, stop_times, more, times, paths, t),
            None => Ok(()),
        },
    }
}

// Writes the rows, reads them again and says whether they are the same.
pub fn write_and_read(rt: &impl Print, times: &[u32], paths: &[u32], t: Told) -> io::Result<()> {
    let mut out = [0u8; 9280];
    let mut more = [0u8; 1536];
    write_both(rt, &mut out, &mut more, times, paths, t)
}
