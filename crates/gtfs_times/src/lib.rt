// Reads stop_times.txt into its table and the books of stops and trips.
#![tactic(auto)]

ghost use Rattle.std.specs.Prelude.{Err, ◌≡◌, ◌+◌, ◌*◌, ◌≤◌, length, drop};
ghost use Rattle.csv_text.specs.Lines.{lines};
ghost use Rattle.names.specs.Book.{Book};
ghost use Rattle.feed.specs.Reading.{without_mark};
ghost use Rattle.feed.specs.Times.{read_times, times_from};
ghost use Rattle.feed.specs.declared.Unread.TheVariants.{Bad};
ghost use Rattle.feed.specs.Feed.{empty_feed};
ghost use Rattle.gtfs_times.specs.Told.{times_told, told_at, Opens, Cleared, TimesRoom, no_names, TimesLeft};

use feed::{Room, TimesColumns, Unread};
use gtfs_rows::times::{Fault, Reached};

// So many stops, trips and rows were taken, and how the reading ends.
#[derive(Clone, Copy)]
pub struct TimesTold {
    pub stops: u32,
    pub trips: u32,
    pub times: u32,
    pub ending: Result<(), Unread>,
}

// How far the rows came, and how the reading ends there.
fn told(at: Reached, ending: Result<(), Unread>) -> TimesTold
    ensures { result ≡ told_at at ending }
{
    TimesTold {
        stops: at.stops,
        trips: at.trips,
        times: at.times,
        ending,
    }
}

// The line behind so many rows is bad: its number is that of the rows and 2.
fn told_bad(at: Reached) -> TimesTold
    requires { at.times + 2 ≤ 4294967295 }
    ensures { result ≡ told_at at (Err (Bad (at.times + 2))) }
{
    told(at, Err(Unread::Bad(at.times + 2)))
}

// Reads the rows from `from` on, where line 2 begins, into empty books.
fn read_rows(
    bytes: &[u8],
    times: &mut [u32],
    stops: &mut [u32],
    trips: &mut [u32],
    room: Room,
    c: TimesColumns,
    from: usize,
) -> TimesTold
    requires times_room { TimesRoom room bytes.now times.old stops.old trips.old }
    requires book { Book bytes.now bytes.now (no_names room.stops) stops.old }
    requires book_2 { Book bytes.now bytes.now (no_names room.trips) trips.old }
    requires le_from { 1 ≤ from }
    requires from_in_bounds { from ≤ length bytes.now + 1 }
    ensures value { result ≡ times_told (times_from c room 2 (lines (drop from bytes.now)) empty_feed 0) }
    ensures times_left { TimesLeft room bytes.now (times_from c room 2 (lines (drop from bytes.now)) empty_feed 0)
        times.old stops.old trips.old times.new stops.new trips.new }
{
    let mut i = from;
    let mut at = Reached {
        stops: 0,
        trips: 0,
        times: 0,
        last: 0,
    };
    // Stays a while: each line says where the next one begins. Stays beside the like loop of gtfs_transfers: lines,
    // rows, tables and books have other types there, so a shared loop would be handed all that it does.
    while i < bytes.len() {
        let line = csv_text::line(bytes, i);
        let Some(values) = gtfs_lines::time_line(bytes, i, line.end, c) else {
            return told_bad(at);
        };
        match gtfs_rows::times::take(bytes, times, stops, trips, room, at, values) {
            Ok(reached) => at = reached,
            Err(Fault::Bad) => return told_bad(at),
            Err(Fault::Full) => return told(at, Err(Unread::Full)),
        }
        i = line.next;
    }
    told(at, Ok(()))
}

// A file whose header is bad: 14 at line 1.
fn no_header() -> TimesTold
    ensures { result ≡ told_at (record { stops = 0; trips = 0; times = 0; last = 0 }) (Err (Bad 1)) }
{
    TimesTold {
        stops: 0,
        trips: 0,
        times: 0,
        ending: Err(Unread::Bad(1)),
    }
}

// Where the rows begin, and where their columns stand.
#[derive(Clone, Copy)]
pub struct Opened {
    pub columns: TimesColumns,
    pub from: usize,
}

// Reads the header; nothing where it is bad.
fn open(bytes: &[u8]) -> Option<Opened>
    requires { length bytes.now ≤ 4294967295 }
    ensures { Opens bytes.now result }
{
    let a = gtfs_headers::start(bytes);
    if bytes.len() <= a {
        return None;
    }
    let line = csv_text::line(bytes, a);
    let columns = gtfs_headers::times_header(bytes, a, line.end)?;
    Some(Opened {
        columns,
        from: line.next,
    })
}

// Books of no names.
fn clear_books(stops: &mut [u32], trips: &mut [u32], room: Room)
    requires stops_in_bounds { 4 * room.stops ≤ length stops.old }
    requires trips_in_bounds { 4 * room.trips ≤ length trips.old }
    ensures { Cleared room stops.old trips.old stops.new trips.new }
{
    names::clear(stops, room.stops);
    names::clear(trips, room.trips);
}

// Reads the file, from its header on, until its lines end, a line is bad or a table is full.
pub fn read_times(
    bytes: &[u8],
    times: &mut [u32],
    stops: &mut [u32],
    trips: &mut [u32],
    room: Room,
) -> TimesTold
    requires { TimesRoom room bytes.now times.old stops.old trips.old }
    ensures value { result ≡ times_told (read_times room (lines (without_mark bytes.now))) }
    ensures times_left { TimesLeft room bytes.now (read_times room (lines (without_mark bytes.now)))
        times.old stops.old trips.old times.new stops.new trips.new }
{
    clear_books(stops, trips, room);
    match open(bytes) {
        Some(Opened { columns, from }) => read_rows(
            bytes, times, stops, trips, room, columns, from,
        ),
        None => no_header(),
    }
}
