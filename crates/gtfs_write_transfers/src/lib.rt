// Writes transfers as a file: "ids as these numbers, .. columns in GTFS's order". First every row is tested, then the text is
// measured, and only then is a byte written.
#![tactic(auto)]

ghost use Rattle.std.specs.Prelude.{◌≡◌, ◌++◌, ◌+◌, ◌≤◌, ◌<◌, length};
ghost use Rattle.base.specs.Put.{with_bytes};
ghost use Rattle.model.specs.Limits.{MOST_TRANSFERS};
ghost use Rattle.numbers.specs.Decimal.{digits};
ghost use Rattle.feed.specs.Orderly.{fits_span, transfer_fault, after_transfer, transfers_fault};
ghost use Rattle.feed.specs.Rows.{transfer_with, transfer_rows_in};
ghost use Rattle.feed.specs.Writing.{span_text, transfer_text, write_transfers};
ghost use Rattle.gtfs_write.specs.Written.{LIMITS, Whole, held_after, cell};
ghost use Rattle.gtfs_write.specs.Refusing.{fault_of, by_number};
ghost use Rattle.gtfs_write_transfers.specs.WrittenTransfers.{written_transfers};

use gtfs_write::Unwritten;
use repository::limits;

// "columns in GTFS's order"
const HEADER: &[u8] = b"from_stop_id,to_stop_id,transfer_type,min_transfer_time\n";

// "an unstated span is MAX"
const UNSTATED: u32 = 4_294_967_295;

// "Only transfer_type 2 gives a stated span"; the types are 0 to 5.
#[tactic(auto, unfolding(feed::specs::Orderly::fits_span))]
fn span_fits(kind: u32, span: u32) -> bool
    ensures { result ≡ fits_span kind span }
{
    match kind {
        2 => span < UNSTATED,
        0..=5 => span == UNSTATED,
        _ => false,
    }
}

// How many stops have appeared after a row.
#[tactic(auto, unfolding(feed::specs::Orderly::after_transfer, feed::specs::Rows::transfer_with))]
fn after_transfer(stops: u32, from: u32, to: u32, kind: u32, span: u32) -> u32
    requires from_bound { from < 4_294_967_295 }
    requires to_bound { to < 4_294_967_295 }
    ensures { result ≡ after_transfer stops (transfer_with from to kind span) }
{
    gtfs_write::seen_after(gtfs_write::seen_after(stops, from), to)
}

// What is wrong with a row when so many stops have appeared.
#[tactic(auto, unfolding(feed::specs::Orderly::transfer_fault, feed::specs::Rows::transfer_with))]
fn transfer_fault(stops: u32, from: u32, to: u32, kind: u32, span: u32) -> Result<(), Unwritten>
    ensures { fault_of result ≡ transfer_fault LIMITS stops (transfer_with from to kind span) }
{
    if !gtfs_write::stop_fits(stops, from) {
        return Err(Unwritten::Listing);
    }
    if !gtfs_write::stop_fits(gtfs_write::seen_after(stops, from), to) {
        return Err(Unwritten::Listing);
    }
    if !span_fits(kind, span) {
        return Err(Unwritten::Transfers);
    }
    Ok(())
}

// What is wrong with the first row that is at fault.
fn transfers_fault(transfers: &[u32], stops: u32) -> Result<(), Unwritten>
    requires { Whole MOST_TRANSFERS transfers.now }
    ensures { fault_of result ≡ transfers_fault LIMITS stops (transfer_rows_in transfers.now) }
{
    let mut seen = stops;
    let (rows, _) = transfers.as_chunks::<4>();
    for &[from, to, kind, span] in rows {
        transfer_fault(seen, from, to, kind, span)?;
        seen = after_transfer(seen, from, to, kind, span);
    }
    Ok(())
}

// How many bytes a span takes; one that is not stated takes none.
#[tactic(auto, unfolding(feed::specs::Writing::span_text))]
fn span_size(kind: u32, span: u32) -> usize
    ensures { (result ≡ length (span_text kind span)) × (result ≤ 10) }
{
    if kind == 2 {
        numbers::decimal_size(span)
    } else {
        0
    }
}

// How many bytes a row takes: three commas, a line feed, three numbers and a span.
fn transfer_size(from: u32, to: u32, kind: u32, span: u32) -> usize
    ensures { (result
        ≡ 4 + length (digits from) + length (digits to) + length (digits kind) + length (span_text kind span))
        × (result ≤ 44) }
{
    let stops = numbers::decimal_size(from) + numbers::decimal_size(to);
    4 + stops + numbers::decimal_size(kind) + span_size(kind, span)
}

// How many bytes the file takes.
fn transfers_size(transfers: &[u32]) -> usize
    requires { Whole MOST_TRANSFERS transfers.now }
    ensures { result ≡ length (write_transfers (transfer_rows_in transfers.now)) }
{
    let mut size = HEADER.len();
    let (rows, _) = transfers.as_chunks::<4>();
    for &[from, to, kind, span] in rows {
        size += transfer_size(from, to, kind, span);
    }
    size
}

// Writes a span and a line feed, and says where they end.
fn write_span(out: &mut [u8], at: usize, kind: u32, span: u32) -> usize
    requires { at + length (cell (span_text kind span) 10) ≤ length out.old }
    ensures value { result ≡ at + length (cell (span_text kind span) 10) }
    ensures out_after { out.new ≡ with_bytes out.old at (cell (span_text kind span) 10) }
{
    if kind != 2 {
        out[at] = b'\n';
        return at + 1;
    }
    gtfs_write::write_cell(out, at, span, b'\n')
}

// Writes the type and the span, which end a row, and says where they end.
fn write_kind(out: &mut [u8], at: usize, kind: u32, span: u32) -> usize
    requires { at + length (cell (digits kind) 44 ++ cell (span_text kind span) 10) ≤ length out.old }
    ensures value { result ≡ at + length (cell (digits kind) 44 ++ cell (span_text kind span) 10) }
    ensures out_after { out.new
        ≡ with_bytes out.old at (cell (digits kind) 44 ++ cell (span_text kind span) 10) }
{
    let e = gtfs_write::write_cell(out, at, kind, b',');
    write_span(out, e, kind, span)
}

// Writes a row, and says where it ends.
fn write_transfer(out: &mut [u8], at: usize, from: u32, to: u32, kind: u32, span: u32) -> usize
    requires { at + length (transfer_text (transfer_with from to kind span)) ≤ length out.old }
    ensures value { result ≡ at + length (transfer_text (transfer_with from to kind span)) }
    ensures out_after { out.new ≡ with_bytes out.old at (transfer_text (transfer_with from to kind span)) }
{
    let e = gtfs_write::write_pair(out, at, from, to, b',');
    write_kind(out, e, kind, span)
}

// Writes the header and every row.
fn put_transfers(transfers: &[u32], out: &mut [u8])
    requires whole { Whole MOST_TRANSFERS transfers.now }
    requires transfers_in_bounds { length (write_transfers (transfer_rows_in transfers.now)) ≤ length out.old }
    ensures { out.new ≡ with_bytes out.old 0 (write_transfers (transfer_rows_in transfers.now)) }
{
    gtfs_write::write_text(out, HEADER);
    let mut at = HEADER.len();
    let (rows, _) = transfers.as_chunks::<4>();
    for &[from, to, kind, span] in rows {
        at = write_transfer(out, at, from, to, kind, span);
    }
}

// Writes the rows that stand in the words, four words each: from, to, type, span. `stops` is how many stops the stop times have
// named. Takes any words. Where it refuses, nothing is written.
pub fn write_transfers(transfers: &[u32], stops: u32, out: &mut [u8]) -> Result<usize, Unwritten>
    ensures value { by_number result ≡ written_transfers transfers.now stops (length out.old) }
    ensures out_after { out.new ≡ held_after result out.old (write_transfers (transfer_rows_in transfers.now)) }
{
    if !gtfs_write::whole_rows(transfers, limits::MOST_TRANSFERS) {
        return Err(Unwritten::Shape);
    }
    transfers_fault(transfers, stops)?;
    let size = transfers_size(transfers);
    if out.len() < size {
        return Err(Unwritten::Full);
    }
    put_transfers(transfers, out);
    Ok(size)
}
