// Writes stop times as a file: "ids as these numbers, sequences as positions, columns in GTFS's order". First every row is
// tested, then the text is measured, and only then is a byte written.
#![tactic(auto)]

ghost use Rattle.std.specs.Prelude.{◌≡◌, true, ◌+◌, ◌≤◌, ◌<◌, length};
ghost use Rattle.base.specs.Put.{with_bytes};
ghost use Rattle.model.specs.Limits.{MOST_STOP_TIMES};
ghost use Rattle.numbers.specs.Decimal.{digits};
ghost use Rattle.feed.specs.Orderly.{none_seen, trip_fits, is_moment, time_fault, times_fault};
ghost use Rattle.feed.specs.Rows.{time_with, time_rows_in};
ghost use Rattle.feed.specs.Writing.{position_after, time_text, write_times};
ghost use Rattle.gtfs_write.specs.Written.{LIMITS, Whole, held_after};
ghost use Rattle.gtfs_write.specs.Refusing.{fault_of, by_number};
ghost use Rattle.gtfs_write_times.specs.WrittenTimes.{seen_so, past_last, written_times};

use gtfs_write::Unwritten;
use repository::limits;

// "columns in GTFS's order"
const HEADER: &[u8] = b"trip_id,arrival_time,departure_time,stop_id,stop_sequence\n";

// The trip of the row before, or the next, while there is room.
#[tactic(auto, unfolding(feed::specs::Orderly::trip_fits))]
fn trip_fits(trips: u32, trip: u32) -> bool
    ensures { result ≡ trip_fits LIMITS trips trip }
{
    (trip as u64 + 1 == trips as u64 || trip == trips) && (trip as usize) < limits::MOST_TRIPS
}

// 0:00:00 to 99:59:59.
#[tactic(auto, unfolding(feed::specs::Orderly::is_moment))]
fn is_moment(moment: u32) -> bool
    ensures { result ≡ is_moment moment }
{
    (86_400..=446_399).contains(&moment)
}

// What is wrong with a row when so many stops and trips have appeared.
#[tactic(auto, unfolding(feed::specs::Orderly::time_fault, feed::specs::Rows::time_with))]
fn time_fault(
    stops: u32,
    trips: u32,
    trip: u32,
    stop: u32,
    arrival: u32,
    departure: u32,
) -> Result<(), Unwritten>
    ensures { fault_of result
        ≡ time_fault LIMITS (seen_so stops trips) (time_with trip stop arrival departure) }
{
    if !(gtfs_write::stop_fits(stops, stop) && trip_fits(trips, trip)) {
        return Err(Unwritten::Listing);
    }
    if !(is_moment(arrival) && is_moment(departure)) {
        return Err(Unwritten::Moments);
    }
    Ok(())
}

// What is wrong with the first row that is at fault.
fn times_fault(times: &[u32]) -> Result<(), Unwritten>
    requires { Whole MOST_STOP_TIMES times.now }
    ensures { fault_of result ≡ times_fault LIMITS none_seen (time_rows_in times.now) }
{
    let mut stops = 0;
    let mut trips = 0;
    let (rows, _) = times.as_chunks::<4>();
    for &[trip, stop, arrival, departure] in rows {
        time_fault(stops, trips, trip, stop, arrival, departure)?;
        stops = gtfs_write::seen_after(stops, stop);
        trips = gtfs_write::seen_after(trips, trip);
    }
    Ok(())
}

// The position of a row behind one of the trip `last` at `position`; there is no `last` before the first row.
#[tactic(auto, unfolding(feed::specs::Writing::position_after))]
fn position_after(last: Option<u32>, trip: u32, position: u32) -> u32
    requires { position < 4_294_967_295 }
    ensures { (result ≡ position_after (past_last last) trip position) × (result ≤ position + 1) }
{
    if last == Some(trip) { position + 1 } else { 0 }
}

// How many bytes a row takes: two moments of eight, four commas, a line feed, and three numbers.
fn time_size(trip: u32, stop: u32, position: u32) -> usize
    ensures { (result ≡ 21 + length (digits trip) + length (digits stop) + length (digits position))
        × (result ≤ 51) }
{
    21 + numbers::decimal_size(trip) + numbers::decimal_size(stop) + numbers::decimal_size(position)
}

// How many bytes the file takes.
fn times_size(times: &[u32]) -> usize
    requires { Whole MOST_STOP_TIMES times.now }
    ensures { result ≡ length (write_times (time_rows_in times.now)) }
{
    let mut size = HEADER.len();
    let mut last = None;
    let mut position = 0;
    let (rows, _) = times.as_chunks::<4>();
    for &[trip, stop, _, _] in rows {
        position = position_after(last, trip, position);
        size += time_size(trip, stop, position);
        last = Some(trip);
    }
    size
}

// Writes a row, and says where it ends.
fn write_time(
    out: &mut [u8],
    at: usize,
    trip: u32,
    stop: u32,
    arrival: u32,
    departure: u32,
    position: u32,
) -> usize
    requires in_bounds { at + length (time_text (time_with trip stop arrival departure) position)
        ≤ length out.old }
    requires arrival_value { is_moment arrival ≡ true }
    requires departure_value { is_moment departure ≡ true }
    ensures value { result ≡ at + length (time_text (time_with trip stop arrival departure) position) }
    ensures out_after { out.new
        ≡ with_bytes out.old at (time_text (time_with trip stop arrival departure) position) }
{
    let e = gtfs_write::write_cell(out, at, trip, b',');
    gtfs_write::write_moments(out, e, arrival, departure);
    gtfs_write::write_pair(out, e + 18, stop, position, b'\n')
}

// Writes the header and every row.
fn put_times(times: &[u32], out: &mut [u8])
    requires whole { Whole MOST_STOP_TIMES times.now }
    requires times_value { times_fault LIMITS none_seen (time_rows_in times.now) ≡ 0 }
    requires times_in_bounds { length (write_times (time_rows_in times.now)) ≤ length out.old }
    ensures { out.new ≡ with_bytes out.old 0 (write_times (time_rows_in times.now)) }
{
    gtfs_write::write_text(out, HEADER);
    let mut at = HEADER.len();
    let mut last = None;
    let mut position = 0;
    let (rows, _) = times.as_chunks::<4>();
    for &[trip, stop, arrival, departure] in rows {
        position = position_after(last, trip, position);
        at = write_time(out, at, trip, stop, arrival, departure, position);
        last = Some(trip);
    }
}

// Writes the rows that stand in the words, four words each: trip, stop, arrival, departure. Takes any words. Where it refuses,
// nothing is written.
pub fn write_times(times: &[u32], out: &mut [u8]) -> Result<usize, Unwritten>
    ensures value { by_number result ≡ written_times times.now (length out.old) }
    ensures out_after { out.new ≡ held_after result out.old (write_times (time_rows_in times.now)) }
{
    if !gtfs_write::whole_rows(times, limits::MOST_STOP_TIMES) {
        return Err(Unwritten::Shape);
    }
    times_fault(times)?;
    let size = times_size(times);
    if out.len() < size {
        return Err(Unwritten::Full);
    }
    put_times(times, out);
    Ok(size)
}
