// One line of stop_times.txt or transfers.txt as values: a row's ids, by where they stand, and its numbers. Nothing is written.
#![tactic(auto)]

ghost use Rattle.std.specs.Prelude.{◌≡◌, ◌≤◌, length, Some};
ghost use Rattle.csv_text.specs.There.{if_there};
ghost use Rattle.csv_text.specs.Part.{part};
ghost use Rattle.csv_text.specs.Fields.{fields};
ghost use Rattle.columns.specs.Picks.{five_in, picked_in, text_at, Spanned, AllSpanned};
ghost use Rattle.feed.specs.Times.{time_line};
ghost use Rattle.feed.specs.Transfers.{kind_of, span_of, transfer_line};
ghost use Rattle.gtfs_lines.specs.Values.{formed, time_read, TimeSpanned, transfer_read, TransferSpanned};

use columns::{Picked, Span};
use feed::{TimeSpans, TimesColumns, TransferColumns, TransferSpans};

// The wanted fields of the line from a up to below e, which has as many as the header, and of which the first two are ids.
fn row(bytes: &[u8], a: usize, e: usize, w: [usize; 5], count: usize) -> Option<Picked>
    requires a_le_e { a ≤ e }
    requires e_in_bounds { e ≤ length bytes.now }
    ensures result_value { picked_in bytes.now result
        ≡ if_there (five_in w (fields (part a e bytes.now))) (formed Some count) }
    ensures all_spanned { AllSpanned bytes.now result }
{
    let p = columns::pick(bytes, a, e, w)?;
    let [first, second, ..] = p.spans;
    if p.count == count && first.from < first.to && second.from < second.to {
        Some(p)
    } else {
        None
    }
}

// The row of stop_times.txt that stands from a up to below e.
pub fn time_line(bytes: &[u8], a: usize, e: usize, c: TimesColumns) -> Option<TimeSpans>
    requires a_le_e { a ≤ e }
    requires e_in_bounds { e ≤ length bytes.now }
    ensures result_value { time_read bytes.now result ≡ time_line c (part a e bytes.now) }
    ensures time_spanned { TimeSpanned bytes.now result }
{
    let wanted = [c.trip, c.stop, c.arrival, c.departure, c.sequence];
    let p = row(bytes, a, e, wanted, c.count)?;
    let [trip, stop, arrival, departure, sequence] = p.spans;
    Some(TimeSpans {
        trip,
        stop,
        arrival: numbers::clock(&bytes[arrival.from..arrival.to])?,
        departure: numbers::clock(&bytes[departure.from..departure.to])?,
        sequence: numbers::decimal(&bytes[sequence.from..sequence.to])?,
    })
}

// The type of a transfer whose text is at s: 0 to 5, and 0 where it is empty.
fn kind_at(bytes: &[u8], s: Span) -> Option<u32>
    requires { Spanned bytes.now s }
    ensures { result ≡ kind_of (text_at bytes.now s) }
{
    if s.to <= s.from {
        return Some(0);
    }
    let k = numbers::decimal(&bytes[s.from..s.to])?;
    if k <= 5 { Some(k) } else { None }
}

// The span of a transfer of type k whose text is at s: that of type 2 is stated, and of another one not looked at.
fn span_at(bytes: &[u8], k: u32, s: Span) -> Option<u32>
    requires { Spanned bytes.now s }
    ensures { result ≡ span_of k (text_at bytes.now s) }
{
    if k != 2 {
        return Some(u32::MAX);
    }
    let x = numbers::decimal(&bytes[s.from..s.to])?;
    if x < u32::MAX { Some(x) } else { None }
}

// The row of transfers.txt that stands from a up to below e. The fifth place is wanted by nobody.
pub fn transfer_line(bytes: &[u8], a: usize, e: usize, c: TransferColumns) -> Option<TransferSpans>
    requires a_le_e { a ≤ e }
    requires e_in_bounds { e ≤ length bytes.now }
    ensures result_value { transfer_read bytes.now result ≡ transfer_line c (part a e bytes.now) }
    ensures transfer_spanned { TransferSpanned bytes.now result }
{
    let wanted = [c.from, c.to, c.kind, c.span, c.count];
    let p = row(bytes, a, e, wanted, c.count)?;
    let [from, to, kind, span, _] = p.spans;
    let kind = kind_at(bytes, kind)?;
    let span = span_at(bytes, kind, span)?;
    Some(TransferSpans {
        from,
        to,
        kind,
        span,
    })
}
