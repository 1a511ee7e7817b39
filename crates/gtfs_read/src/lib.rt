// Reads stop_times.txt and transfers.txt into lent tables: every pair of files and every room is answered.
#![tactic(auto)]

ghost use Rattle.std.specs.Prelude.{◌≡◌, ◌≤◌, Err};
ghost use Rattle.gtfs_read.specs.Reads.{file_number, ending_number, lent_feed, rows_of, feed_room};
ghost use Rattle.gtfs_read.specs.Reads.{refused_long, told_by, split_of, Left, Reads};
ghost use Rattle.gtfs_read.specs.Parts.{ended_in, first_told, told_both, FilesLent};
ghost use Rattle.feed.specs.Reading.{read_feed};

use feed::{Room, Unread};
use gtfs_times::TimesTold;
use gtfs_transfers::TransfersTold;
use repository::limits;

// Which of the two files.
#[derive(Clone, Copy, Debug, PartialEq, Eq)]
pub enum File {
    StopTimes,
    Transfers,
}

// Why the reading ends before both files do: a file is too long for its places to fit 32 bits, "14 with its line for a bad line, 15
// for a table that is full".
#[derive(Clone, Copy, Debug, PartialEq, Eq)]
pub enum Unfinished {
    TooLong,
    Bad { file: File, line: u32 },
    Full,
}

// The number by which C and the documents know a file.
impl From<File> for u32 {
    ghost from_gives = { λ file number. number ≡ file_number file };

    fn from(file: File) -> u32 {
        match file {
            File::StopTimes => 1,
            File::Transfers => 2,
        }
    }
}

// And why a reading ends.
impl From<Unfinished> for u32 {
    ghost from_gives = { λ unfinished number. number ≡ ending_number (Err unfinished) };

    fn from(unfinished: Unfinished) -> u32 {
        match unfinished {
            Unfinished::TooLong => 1,
            Unfinished::Bad { .. } => 14,
            Unfinished::Full => 15,
        }
    }
}

// The answer: how the reading ended, and how much was taken. Stops below `split` are named in the first file.
#[derive(Clone, Copy)]
pub struct Told {
    pub ending: Result<(), Unfinished>,
    pub stops: u32,
    pub split: u32,
    pub trips: u32,
    pub times: u32,
    pub transfers: u32,
}

// How many rows of four words there are, up to a limit.
#[tactic(auto, unfolding(crate::specs::Reads::rows_of))]
fn rows_of(words: &[u32], most: usize) -> u32
    requires { most ≤ 4294967295 }
    ensures { result ≡ rows_of words.now most }
{
    (words.len() / 4).min(most) as u32
}

// The room of what is lent.
#[tactic(auto, unfolding(crate::specs::Reads::feed_room))]
fn room_of(times: &[u32], transfers: &[u32], stops: &[u32], trips: &[u32]) -> Room
    ensures { result ≡ feed_room (lent_feed times.now transfers.now stops.now trips.now) }
{
    Room {
        stops: rows_of(stops, limits::MOST_STOPS),
        trips: rows_of(trips, limits::MOST_TRIPS),
        times: rows_of(times, limits::MOST_STOP_TIMES),
        transfers: rows_of(transfers, limits::MOST_TRANSFERS),
    }
}

// A file whose places do not fit 32 bits: nothing is read.
#[tactic(auto, unfolding(crate::specs::Reads::refused_long))]
fn too_long() -> Told
    ensures { result ≡ refused_long }
{
    Told {
        ending: Err(Unfinished::TooLong),
        stops: 0,
        split: 0,
        trips: 0,
        times: 0,
        transfers: 0,
    }
}

// How the reading ends, by how that of one file does.
#[tactic(auto, unfolding(crate::specs::Parts::ended_in))]
fn ended_in(file: File, ending: Result<(), Unread>) -> Result<(), Unfinished>
    ensures { result ≡ ended_in file ending }
{
    match ending {
        Ok(()) => Ok(()),
        Err(Unread::Bad(line)) => Err(Unfinished::Bad { file, line }),
        Err(Unread::Full) => Err(Unfinished::Full),
    }
}

// The answer where the first file is not read to its end.
fn first_told(first: TimesTold) -> Told
    ensures { result ≡ first_told first }
{
    Told {
        ending: ended_in(File::StopTimes, first.ending),
        stops: first.stops,
        split: first.stops,
        trips: first.trips,
        times: first.times,
        transfers: 0,
    }
}

// The answer of both files.
fn both_told(first: TimesTold, second: TransfersTold) -> Told
    ensures { result ≡ told_both first second }
{
    Told {
        ending: ended_in(File::Transfers, second.ending),
        stops: second.stops,
        split: first.stops, // stops that only transfers.txt names come behind
        trips: first.trips,
        times: first.times,
        transfers: second.transfers,
    }
}

// Reads the first file, and the second where the first was read to its end.
fn read_files(
    stop_times: &[u8],
    transfers: &[u8],
    times: &mut [u32],
    paths: &mut [u32],
    stops: &mut [u32],
    trips: &mut [u32],
    room: Room,
) -> Told
    requires { FilesLent room stop_times.now transfers.now times.old paths.old stops.old trips.old }
    ensures value { result ≡ told_by (split_of room stop_times.now)
        (read_feed room stop_times.now transfers.now) }
    ensures left { Left room stop_times.now transfers.now
        (read_feed room stop_times.now transfers.now)
        (lent_feed times.old paths.old stops.old trips.old)
        (lent_feed times.new paths.new stops.new trips.new) }
{
    let first = gtfs_times::read_times(stop_times, times, stops, trips, room);
    if first.ending.is_err() {
        return first_told(first);
    }
    let second = gtfs_transfers::read_transfers(
        stop_times,
        transfers,
        paths,
        stops,
        room,
        first.stops,
    );
    both_told(first, second)
}

// A file's places fit 32 bits.
const MOST_BYTES: usize = 4_294_967_295;

// Reads both files, where neither is above 4,294,967,295 bytes; what is lent holds what the lines say that were taken.
pub fn read(
    stop_times: &[u8],
    transfers: &[u8],
    times: &mut [u32],
    paths: &mut [u32],
    stops: &mut [u32],
    trips: &mut [u32],
) -> Told
    ensures { Reads stop_times.now transfers.now
        (lent_feed times.old paths.old stops.old trips.old) result
        (lent_feed times.new paths.new stops.new trips.new) }
{
    if stop_times.len() > MOST_BYTES || transfers.len() > MOST_BYTES {
        return too_long();
    }
    let room = room_of(times, paths, stops, trips);
    read_files(stop_times, transfers, times, paths, stops, trips, room)
}
