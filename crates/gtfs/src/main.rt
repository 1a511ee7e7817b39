// Reads feeds from standard input and prints what they hold; then writes the rows, reads them again and says whether they are the same. A
// feed is stop_times.txt, a line `--` and transfers.txt; between two feeds stands a line `==`.
#![tactic(auto)]

ghost use Rattle.std.specs.Prelude.{◌≤◌, length, IfSome};

use gtfs_read::{File, Told};
use std::io;

// Whether the bytes begin with a line that is twice the byte.
fn begins_with_mark(bytes: &[u8], b: u8) -> bool {
    bytes.starts_with(&[b, b]) && (bytes.len() == 2 || bytes[2] == b'\n')
}

// Where the first such line begins.
fn mark_in(bytes: &[u8], b: u8) -> Option<usize>
    ensures { IfSome result (λ i. i ≤ length bytes.now) }
{
    for i in 0..bytes.len() {
        if (i == 0 || bytes[i - 1] == b'\n') && begins_with_mark(&bytes[i..], b) {
            return Some(i);
        }
    }
    None
}

// Prints what was read, and writes it.
fn show(rt: HostRuntime, times: &[u32], paths: &[u32], t: Told) -> io::Result<()> {
    let n = t.times as usize * 4;
    let m = t.transfers as usize * 4;
    if times.len() < n || paths.len() < m {
        return Ok(());
    }
    gtfs_telling::print_number(&rt, t)?;
    gtfs_telling::print_counts(&rt, t)?;
    gtfs_telling::print_rows(&rt, File::StopTimes, &times[..n])?;
    gtfs_telling::print_rows(&rt, File::Transfers, &paths[..m])?;
    gtfs_again::write_and_read(&rt, &times[..n], &paths[..m], t)
}

// Room for 256 times, 64 transfers, 16 stops and 16 trips.
fn read(rt: HostRuntime, stop_times: &[u8], transfers: &[u8]) -> io::Result<()> {
    let mut times = [0u32; 1024];
    let mut paths = [0u32; 256];
    let mut stops = [0u32; 64];
    let mut trips = [0u32; 64];
    let t = gtfs_read::read(
        stop_times, transfers, &mut times, &mut paths, &mut stops, &mut trips,
    );
    show(rt, &times, &paths, t)
}

// One feed: the two files on either side of `--`.
fn feed(rt: HostRuntime, bytes: &[u8]) -> io::Result<()> {
    let Some(cut) = mark_in(bytes, b'-') else {
        return println!(rt; "no line -- between two files");
    };
    read(rt, &bytes[..cut], bytes.get(cut + 3..).unwrap_or(b""))
}

// Each feed in turn: up to its `==`, or to the end.
fn feeds(rt: HostRuntime, bytes: &[u8]) -> io::Result<()> {
    let mut rest = bytes;
    // Stays a while: each feed says where the next one begins.
    while !rest.is_empty() {
        let Some(end) = mark_in(rest, b'=') else {
            return feed(rt, rest);
        };
        feed(rt, &rest[..end])?;
        rest = rest.get(end + 3..).unwrap_or(b"");
    }
    Ok(())
}

fn main(rt: HostRuntime) -> io::Result<()> {
    let mut bytes = [0u8; 16384];
    let n = input::read_full(&mut rt.stdin(), &mut bytes);
    if n == 16384 {
        return println!(rt; "more than 16383 bytes");
    }
    feeds(rt, &bytes[..n])
}
