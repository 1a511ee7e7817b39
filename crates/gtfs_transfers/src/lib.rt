// Reads transfers.txt into its table and the book of stops.
#![tactic(auto)]

ghost use Rattle.std.specs.Prelude.{Err, ◌≡◌, ◌+◌, ◌≤◌};
ghost use Rattle.feed.specs.declared.Unread.TheVariants.{Bad};
ghost use Rattle.gtfs_transfers.specs.Told.{transfers_told, paths_told_at, transfers_read, rows_read};
ghost use Rattle.gtfs_transfers.specs.Told.{TransfersLeft, PathsLent, PathsBegin};

use feed::{Room, TransferColumns, Unread};
use gtfs_paths::PathsReached;

// So many stops have a name, so many rows were taken, and how the reading ends.
#[derive(Clone, Copy)]
pub struct TransfersTold {
    pub stops: u32,
    pub transfers: u32,
    pub ending: Result<(), Unread>,
}

// How many stops the first file names, and where the rows of the second begin.
#[derive(Clone, Copy)]
pub struct PathsBegun {
    pub counted: u32,
    pub next: usize,
}

// How far the rows came, and how the reading ends there.
#[tactic(auto, unfolding(crate::specs::Told::paths_told_at))]
fn told(at: PathsReached, ending: Result<(), Unread>) -> TransfersTold
    ensures { result ≡ paths_told_at at ending }
{
    TransfersTold {
        stops: at.stops,
        transfers: at.transfers,
        ending,
    }
}

// The line behind so many rows is bad: its number is that of the rows and 2.
fn told_bad(at: PathsReached) -> TransfersTold
    requires { at.transfers + 2 ≤ 4294967295 }
    ensures { result ≡ paths_told_at at (Err (Bad (at.transfers + 2))) }
{
    told(at, Err(Unread::Bad(at.transfers + 2)))
}

// Reads the rows, where line 2 begins.
fn read_rows(
    first: &[u8],
    second: &[u8],
    paths: &mut [u32],
    stops: &mut [u32],
    room: Room,
    c: TransferColumns,
    begun: PathsBegun,
) -> TransfersTold
    requires { PathsBegin room begun.counted begun.next first.now second.now paths.old stops.old }
    ensures value { result ≡ transfers_told
        (rows_read room c begun.counted begun.next first.now second.now stops.old) }
    ensures transfers_left { TransfersLeft room begun.counted first.now second.now
        (rows_read room c begun.counted begun.next first.now second.now stops.old)
        paths.old stops.old paths.new stops.new }
{
    let mut i = begun.next;
    let mut at = PathsReached {
        split: begun.counted,
        stops: begun.counted,
        transfers: 0,
    };
    // Stays a while: each line says where the next one begins.
    while i < second.len() {
        let line = csv_text::line(second, i);
        let Some(values) = gtfs_lines::transfer_line(second, i, line.end, c) else {
            return told_bad(at);
        };
        let Some(reached) = gtfs_paths::take(first, second, paths, stops, room, at, values) else {
            return told(at, Err(Unread::Full));
        };
        at = reached;
        i = line.next;
    }
    told(at, Ok(()))
}

// Reads the second file, where the book holds so many stops of the first: the rows until they end, a line is bad or there is no room.
pub fn read_transfers(
    first: &[u8],
    second: &[u8],
    paths: &mut [u32],
    stops: &mut [u32],
    room: Room,
    counted: u32,
) -> TransfersTold
    requires { PathsLent room counted first.now second.now paths.old stops.old }
    ensures value { result ≡ transfers_told (transfers_read room counted first.now second.now stops.old) }
    ensures transfers_left { TransfersLeft room counted first.now second.now
        (transfers_read room counted first.now second.now stops.old)
        paths.old stops.old paths.new stops.new }
{
    let none = PathsReached {
        split: counted,
        stops: counted,
        transfers: 0,
    };
    let a = gtfs_headers::start(second);
    if second.len() <= a {
        return told(none, Err(Unread::Bad(1)));
    }
    let line = csv_text::line(second, a);
    let Some(columns) = gtfs_headers::transfers_header(second, a, line.end) else {
        return told(none, Err(Unread::Bad(1)));
    };
    let begun = PathsBegun {
        counted,
        next: line.next,
    };
    read_rows(first, second, paths, stops, room, columns, begun)
}
