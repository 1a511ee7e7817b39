// The feed's C face: the functions that a C or Rust program links to read and write a feed, over numbers and slices alone. A slice is a
// pointer and a length.
#![tactic(auto)]

ghost use Rattle.std.specs.Prelude.{◌≡◌, ◌∷◌, [], ◌≤◌, ◌<◌, length};
ghost use Rattle.base.specs.Put.{with_bytes};
ghost use Rattle.feed.specs.Rows.{time_rows_in, transfer_rows_in};
ghost use Rattle.feed.specs.Writing.{write_times, write_transfers};
ghost use Rattle.gtfs_write.specs.Refusing.{by_number};
ghost use Rattle.gtfs_write_times.specs.WrittenTimes.{written_times};
ghost use Rattle.gtfs_write_transfers.specs.WrittenTransfers.{written_transfers};
ghost use Rattle.gtfs_read.specs.Reads.{lent_feed, ending_number, ending_line, ending_file};
ghost use Rattle.gtfs_c.specs.FeedFace.{writing_number, writing_size, writing_words, writing_answer, writing_told, writing_left};
ghost use Rattle.gtfs_c.specs.FeedFace.{reading_words, reading_short, FeedFaced};

use gtfs_read::{Told, Unfinished};
use gtfs_rows::rows;
use gtfs_write::Unwritten;

// The number where what is told has no room.
const NO_ROOM: u32 = 6;

// A file's places fit 32 bits.
const MOST_BYTES: usize = 4_294_967_295;

// Tells of a writing, and gives its number.
#[tactic(auto, using(crate::proofs::Writings::two_put), unfolding(crate::specs::FeedFace::writing_number))]
fn tell_written(told: &mut [u32], written: Result<usize, Unwritten>) -> u32
    requires in_bounds { 2 ≤ length told.old }
    requires fits { writing_size (by_number written) < 4294967296 }
    ensures value { result ≡ writing_number (by_number written) }
    ensures told_after { told.new ≡ with_bytes told.old 0 (writing_words (by_number written)) }
{
    let (number, size) = match written {
        Ok(size) => (0, size as u32),
        Err(refusal) => (u32::from(refusal), 0),
    };
    told[0] = number;
    told[1] = size;
    number
}

// Writes rows of times as a file.
pub fn kiosk_gtfs_write_times(times: &[u32], out: &mut [u8], told: &mut [u32]) -> u32
    ensures value { result ≡ writing_answer (written_times times.now (length out.old)) told.old }
    ensures out_after { out.new ≡ writing_left (written_times times.now (length out.old)) told.old
        out.old (write_times (time_rows_in times.now)) }
    ensures told_after { told.new ≡ writing_told (written_times times.now (length out.old)) told.old }
{
    if told.len() < 2 {
        return NO_ROOM;
    }
    tell_written(told, gtfs_write_times::write_times(times, out))
}

// Writes rows of transfers as a file.
pub fn kiosk_gtfs_write_transfers(
    transfers: &[u32],
    stops: u32,
    out: &mut [u8],
    told: &mut [u32],
) -> u32
    ensures value { result ≡ writing_answer (written_transfers transfers.now stops (length out.old)) told.old }
    ensures out_after { out.new ≡ writing_left (written_transfers transfers.now stops (length out.old))
        told.old out.old (write_transfers (transfer_rows_in transfers.now)) }
    ensures told_after { told.new ≡ writing_told (written_transfers transfers.now stops (length out.old))
        told.old }
{
    if told.len() < 2 {
        return NO_ROOM;
    }
    tell_written(
        told,
        gtfs_write_transfers::write_transfers(transfers, stops, out),
    )
}

// The number of a reading.
fn number_of(ending: Result<(), Unfinished>) -> u32
    ensures { result ≡ ending_number ending }
{
    match ending {
        Ok(()) => 0,
        Err(unfinished) => unfinished.into(),
    }
}

// The line that is bad, or 0.
fn line_of(ending: Result<(), Unfinished>) -> u32
    ensures { result ≡ ending_line ending }
{
    match ending {
        Err(Unfinished::Bad { line, .. }) => line,
        _ => 0,
    }
}

// The file that has a bad line, or 0.
fn file_of(ending: Result<(), Unfinished>) -> u32
    ensures { result ≡ ending_file ending }
{
    match ending {
        Err(Unfinished::Bad { file, .. }) => file.into(),
        _ => 0,
    }
}

// Tells of a reading, and gives its number.
fn tell_read(told: &mut [u32], t: Told) -> u32
    requires { 8 ≤ length told.old }
    ensures value { result ≡ ending_number t.ending }
    ensures told_after { told.new ≡ with_bytes told.old 0 (reading_words t) }
{
    let number = number_of(t.ending);
    let (line, file) = (line_of(t.ending), file_of(t.ending));
    rows::put_row(told, 0, number, line, file, t.stops);
    rows::put_row(told, 1, t.split, t.trips, t.times, t.transfers);
    number
}

// The number where what is told has no room.
#[tactic(auto, unfolding(crate::specs::FeedFace::reading_short, gtfs_read::specs::Reads::is_too_long))]
fn short_number(stop_times: &[u8], transfers: &[u8]) -> u32
    ensures { result ≡ reading_short stop_times.now transfers.now }
{
    if stop_times.len() > MOST_BYTES || transfers.len() > MOST_BYTES {
        number_of(Err(Unfinished::TooLong))
    } else {
        NO_ROOM
    }
}

// Reads both files into what is lent.
pub fn kiosk_gtfs_read(
    stop_times: &[u8],
    transfers: &[u8],
    times: &mut [u32],
    paths: &mut [u32],
    stops: &mut [u32],
    trips: &mut [u32],
    told: &mut [u32],
) -> u32
    ensures { FeedFaced stop_times.now transfers.now
        (lent_feed times.old paths.old stops.old trips.old) told.old result
        (lent_feed times.new paths.new stops.new trips.new) told.new }
{
    if told.len() < 8 {
        return short_number(stop_times, transfers);
    }
    let t = gtfs_read::read(stop_times, transfers, times, paths, stops, trips);
    tell_read(told, t)
}
