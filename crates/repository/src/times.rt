// The moments of a trip. Its first row of times is looked up once, when it is boarded; the moments at its positions are
// then read by that row.
ghost use Rattle.std.specs.Prelude.{◌≡◌, ◌+◌, ◌<◌};
ghost use Rattle.repository.specs.Sections.{arrival_in, departure_in};
ghost use Rattle.repository.specs.Readable.{Readable};
ghost use Rattle.repository.specs.Rows.{trip_count, time_count, time_row};

use crate::{sections, words};
use shared::Time;

// The first row of a trip's times.
pub fn time_row(tables: &[u32], v: u32) -> u32
    requires readable { Readable tables.now }
    requires v_bound { v < trip_count tables.now }
    ensures { result ≡ time_row tables.now v }
{
    words::row_from(tables, sections::TIME_STARTS, v)
}

// When the trip whose times begin at a row arrives at position p.
pub fn arrival_in(tables: &[u32], row: u32, p: u32) -> Time
    requires readable { Readable tables.now }
    requires p_bound { row + p < time_count tables.now }
    ensures { result.0 ≡ arrival_in tables.now row p }
{
    let at = (row as usize + p as usize) * sections::TIME_WORDS;
    Time(words::word(tables, sections::TIMES, at))
}

// When it departs from there.
pub fn departure_in(tables: &[u32], row: u32, p: u32) -> Time
    requires readable { Readable tables.now }
    requires p_bound { row + p < time_count tables.now }
    ensures { result.0 ≡ departure_in tables.now row p }
{
    let at = (row as usize + p as usize) * sections::TIME_WORDS + sections::DEPARTURE;
    Time(words::word(tables, sections::TIMES, at))
}
