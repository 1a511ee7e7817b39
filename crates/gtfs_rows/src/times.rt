// A row of stop_times.txt: whether it is taken, and how.
ghost use Rattle.std.specs.Prelude.{◌≡◌, [], ◌∷◌, ◌*◌};
ghost use Rattle.base.specs.Put.{with_bytes};
ghost use Rattle.columns.specs.Picks.{text_at, Spanned};
ghost use Rattle.names.specs.Book.{Book, names_in};
ghost use Rattle.names.specs.Booked.{Booked};
ghost use Rattle.feed.specs.Times.{is_last};
ghost use Rattle.feed.specs.Spans.{time_at};
ghost use Rattle.gtfs_rows.specs.Named.{names_with};
ghost use Rattle.gtfs_rows.specs.Taking.{trip_is, plan_by, plan_of, stop_shelf, trip_shelf, after_entry, Enters, Takeable, Takes};

use super::{books, rows};
use columns::Span;
use feed::{Room, TimeSpans};
use names::Shelf;

// Whose row a line is: of the trip of the row before, of a new one, or of one that stood before another. Stays an enum of its
// own: it has three cases.
#[derive(Clone, Copy, Debug, PartialEq, Eq)]
pub enum Trip {
    Last,
    New,
    Gone,
}

// So many stops, trips and rows are taken, and the sequence of the last row.
#[derive(Clone, Copy)]
pub struct Reached {
    pub stops: u32,
    pub trips: u32,
    pub times: u32,
    pub last: u32,
}

impl Reached {
    // The stops that are named so far, as their book has them.
    fn stop_shelf(self, room: Room) -> Shelf
        ensures { result ≡ stop_shelf room self }
    {
        Shelf {
            cap: room.stops,
            split: 0,
            count: self.stops,
        }
    }

    // The trips.
    fn trip_shelf(self, room: Room) -> Shelf
        ensures { result ≡ trip_shelf room self }
    {
        Shelf {
            cap: room.trips,
            split: 0,
            count: self.trips,
        }
    }
}

// The numbers of a row's trip and its stop.
#[derive(Clone, Copy)]
pub struct Numbers {
    pub trip: u32,
    pub stop: u32,
}

// Why a row is not taken: its line is bad, or a table is full.
#[derive(Clone, Copy, Debug, PartialEq, Eq)]
pub enum Fault {
    Bad,
    Full,
}

// A row that is taken: the numbers of its trip and its stop, and the values of its line.
#[derive(Clone, Copy)]
pub struct Entry {
    pub trip: u32,
    pub stop: u32,
    pub line: TimeSpans,
}

// Whether the row before is of the trip that this text names.
fn is_last(bytes: &[u8], trips: &[u32], shelf: Shelf, text: Span) -> bool
    requires book { Book bytes.now bytes.now shelf trips.now }
    requires spanned { Spanned bytes.now text }
    ensures { result ≡ is_last (names_in bytes.now bytes.now shelf trips.now)
        (text_at bytes.now text) }
{
    if shelf.count == 0 {
        return false;
    }
    names::is_name(
        bytes,
        bytes,
        trips,
        shelf,
        shelf.count - 1,
        text.from,
        text.to,
    )
}

// Whose row it is.
fn trip_of(bytes: &[u8], trips: &[u32], shelf: Shelf, text: Span) -> Trip
    requires book { Book bytes.now bytes.now shelf trips.now }
    requires spanned { Spanned bytes.now text }
    ensures { result ≡ trip_is (names_in bytes.now bytes.now shelf trips.now)
        (text_at bytes.now text) }
{
    if is_last(bytes, trips, shelf, text) {
        return Trip::Last;
    }
    match names::find(bytes, bytes, trips, shelf, text.from, text.to) {
        Some(_) => Trip::Gone,
        None => Trip::New,
    }
}

// A row of this trip and this stop, while there is room.
#[tactic(auto, unfolding(crate::specs::Taking::plan_by))]
fn plan_by(room: Room, times: u32, trip: u32, stop: u32) -> Result<Numbers, Fault>
    ensures { result ≡ plan_by room times trip stop }
{
    if room.trips <= trip || room.stops <= stop || room.times <= times {
        return Err(Fault::Full);
    }
    Ok(Numbers { trip, stop })
}

// What becomes of a line.
pub fn plan_of(
    bytes: &[u8],
    stops: &[u32],
    trips: &[u32],
    room: Room,
    at: Reached,
    line: TimeSpans,
) -> Result<Numbers, Fault>
    requires book { Book bytes.now bytes.now (stop_shelf room at) stops.now }
    requires book_2 { Book bytes.now bytes.now (trip_shelf room at) trips.now }
    requires spanned { Spanned bytes.now line.trip }
    requires spanned_2 { Spanned bytes.now line.stop }
    ensures { result ≡ plan_of room (time_at bytes.now line)
        (names_in bytes.now bytes.now (stop_shelf room at) stops.now)
        (names_in bytes.now bytes.now (trip_shelf room at) trips.now) at }
{
    let stop = books::number_of(bytes, bytes, stops, at.stop_shelf(room), line.stop);
    match trip_of(bytes, trips, at.trip_shelf(room), line.trip) {
        Trip::Last => {
            if line.sequence <= at.last {
                return Err(Fault::Bad);
            }
            plan_by(room, at.times, at.trips - 1, stop)
        }
        Trip::New => plan_by(room, at.times, at.trips, stop),
        Trip::Gone => Err(Fault::Bad),
    }
}

// Takes a row: its names into the books where they are new, its words behind the others.
pub fn enter(
    bytes: &[u8],
    times: &mut [u32],
    stops: &mut [u32],
    trips: &mut [u32],
    room: Room,
    at: Reached,
    entry: Entry,
) -> Reached
    requires { Enters bytes.now room at entry times.old stops.old trips.old }
    ensures value { result ≡ after_entry at entry }
    ensures times_after { times.new ≡ with_bytes times.old (4 * at.times)
        (entry.trip ∷ entry.stop ∷ entry.line.arrival ∷ entry.line.departure ∷ []) }
    ensures booked { Booked bytes.now bytes.now (stop_shelf room result) stops.old stops.new
        (names_with (names_in bytes.now bytes.now (stop_shelf room at) stops.old) entry.stop
        (text_at bytes.now entry.line.stop)) }
    ensures booked_2 { Booked bytes.now bytes.now (trip_shelf room result) trips.old trips.new
        (names_with (names_in bytes.now bytes.now (trip_shelf room at) trips.old) entry.trip
        (text_at bytes.now entry.line.trip)) }
{
    let Entry { trip, stop, line } = entry;
    let named_trips = books::name(bytes, bytes, trips, at.trip_shelf(room), trip, line.trip);
    let named_stops = books::name(bytes, bytes, stops, at.stop_shelf(room), stop, line.stop);
    rows::put_row(times, at.times, trip, stop, line.arrival, line.departure);
    Reached {
        stops: named_stops,
        trips: named_trips,
        times: at.times + 1,
        last: line.sequence,
    }
}

// Takes the row of a line, or refuses it: then nothing is touched.
pub fn take(
    bytes: &[u8],
    times: &mut [u32],
    stops: &mut [u32],
    trips: &mut [u32],
    room: Room,
    at: Reached,
    line: TimeSpans,
) -> Result<Reached, Fault>
    requires { Takeable bytes.now room at line times.old stops.old trips.old }
    ensures { Takes bytes.now room at line result times.old stops.old trips.old
        times.new stops.new trips.new }
{
    let Numbers { trip, stop } = plan_of(bytes, stops, trips, room, at, line)?;
    let entry = Entry { trip, stop, line };
    Ok(enter(bytes, times, stops, trips, room, at, entry))
}
