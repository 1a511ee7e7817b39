// Where the lines of stop_times.txt and transfers.txt begin, and the places of their headers' columns.
#![tactic(auto)]

ghost use Rattle.std.specs.Prelude.{◌≡◌, ◌≤◌, length, drop};
ghost use Rattle.csv_text.specs.There.{if_there};
ghost use Rattle.csv_text.specs.Part.{part};
ghost use Rattle.csv_text.specs.Fields.{fields};
ghost use Rattle.columns.specs.Picks.{column_in};
ghost use Rattle.feed.specs.Columns.{only_place, any_place, times_columns, transfer_columns};
ghost use Rattle.feed.specs.Reading.{without_mark};
ghost use Rattle.gtfs_headers.specs.Headers.{times_placed, transfers_placed};

use columns::Column;
use feed::{TimesColumns, TransferColumns};

// Where a file's lines begin: behind the three bytes that mark UTF-8, where it begins with them.
pub fn start(bytes: &[u8]) -> usize
    ensures upper_bound { result ≤ length bytes.now }
    ensures bytes_value { drop result bytes.now ≡ without_mark bytes.now }
{
    if bytes.starts_with(b"\xef\xbb\xbf") {
        3
    } else {
        0
    }
}

// A column that must be there, once.
fn only(bytes: &[u8], a: usize, e: usize, name: &[u8]) -> Option<usize>
    requires a_le_e { a ≤ e }
    requires e_in_bounds { e ≤ length bytes.now }
    ensures { result ≡ only_place (column_in name.now (fields (part a e bytes.now))) }
{
    match columns::find_column(bytes, a, e, name) {
        Column::At(i) => Some(i),
        Column::Absent => None,
        Column::Twice => None,
    }
}

// A column that may be missing: its place is then behind the last.
fn any(bytes: &[u8], a: usize, e: usize, count: usize, name: &[u8]) -> Option<usize>
    requires a_le_e { a ≤ e }
    requires e_in_bounds { e ≤ length bytes.now }
    ensures { result ≡ any_place count (column_in name.now (fields (part a e bytes.now))) }
{
    match columns::find_column(bytes, a, e, name) {
        Column::At(i) => Some(i),
        Column::Absent => Some(count),
        Column::Twice => None,
    }
}

// A header of stop_times.txt with so many columns, by the places of those that are read.
fn times_columns(
    count: usize,
    trip: Option<usize>,
    arrival: Option<usize>,
    departure: Option<usize>,
    stop: Option<usize>,
    sequence: Option<usize>,
) -> Option<TimesColumns>
    ensures { result ≡ times_placed count trip arrival departure stop sequence }
{
    let trip = trip?;
    let arrival = arrival?;
    let departure = departure?;
    let stop = stop?;
    let sequence = sequence?;
    Some(TimesColumns {
        count,
        trip,
        arrival,
        departure,
        stop,
        sequence,
    })
}

fn transfer_columns(
    count: usize,
    from: Option<usize>,
    to: Option<usize>,
    kind: Option<usize>,
    span: Option<usize>,
) -> Option<TransferColumns>
    ensures { result ≡ transfers_placed count from to kind span }
{
    let from = from?;
    let to = to?;
    let kind = kind?;
    let span = span?;
    Some(TransferColumns {
        count,
        from,
        to,
        kind,
        span,
    })
}

// The columns of the header of stop_times.txt that stands from a up to below e.
pub fn times_header(bytes: &[u8], a: usize, e: usize) -> Option<TimesColumns>
    requires a_le_e { a ≤ e }
    requires e_in_bounds { e ≤ length bytes.now }
    ensures { result ≡ if_there (fields (part a e bytes.now)) times_columns }
{
    // Any five fields: only their count is asked for.
    let all = columns::pick(bytes, a, e, [0; 5])?;
    let trip = only(bytes, a, e, b"trip_id");
    let arrival = only(bytes, a, e, b"arrival_time");
    let departure = only(bytes, a, e, b"departure_time");
    let stop = only(bytes, a, e, b"stop_id");
    let sequence = only(bytes, a, e, b"stop_sequence");
    times_columns(all.count, trip, arrival, departure, stop, sequence)
}

// The columns of the header of transfers.txt.
pub fn transfers_header(bytes: &[u8], a: usize, e: usize) -> Option<TransferColumns>
    requires a_le_e { a ≤ e }
    requires e_in_bounds { e ≤ length bytes.now }
    ensures { result ≡ if_there (fields (part a e bytes.now)) transfer_columns }
{
    let all = columns::pick(bytes, a, e, [0; 5])?;
    let from = only(bytes, a, e, b"from_stop_id");
    let to = only(bytes, a, e, b"to_stop_id");
    let kind = only(bytes, a, e, b"transfer_type");
    let span = any(bytes, a, e, all.count, b"min_transfer_time");
    transfer_columns(all.count, from, to, kind, span)
}
