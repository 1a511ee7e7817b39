// The rules for the stops and the trips of routes.
ghost use Rattle.std.specs.Prelude.{◌≡◌, true, ◌<◌};
ghost use Rattle.repository.specs.Sections.{size, routes, ROUTE_TRIP_STARTS, ROUTE_TRIPS};
ghost use Rattle.repository.specs.Laid.{Laid};
ghost use Rattle.repository.specs.Listed.{under, route_stops, route_trips, time_each, trip_times};

use crate::once::marked_once;
use crate::range::in_range;
use repository::sections;
use repository::words::{entries_of, item, row_count, rows_under, size_of};

// Whether the stops of routes are in range.
#[tactic(auto, unfolding(repository::specs::Listed::route_stops))]
pub fn route_stops_ok(tables: &[u32]) -> bool
    requires { Laid tables.now }
    ensures { result ≡ route_stops tables.now }
{
    let n = size_of(tables, sections::STOP_LIST);
    in_range(tables, sections::ROUTE_STOPS, n)
}

// Whether each trip stands in exactly one route.
#[tactic(auto, unfolding(repository::specs::Listed::route_trips))]
pub fn route_trips_ok(tables: &[u32]) -> bool
    requires { Laid tables.now }
    ensures { result ≡ route_trips tables.now }
{
    let n = entries_of(tables, sections::TIME_STARTS);
    let m = size_of(tables, sections::ROUTE_TRIPS);
    let mut marks = [0u64; 256];
    in_range(tables, sections::ROUTE_TRIPS, n)
        && marked_once(tables, sections::ROUTE_TRIPS, 0..m, &mut marks)
}

#[tactic(auto, unfolding(repository::specs::Listed::time_each))]
fn time_each_ok(tables: &[u32], r: u32, i: u32) -> bool
    requires laid { Laid tables.now }
    requires tables_value { route_trips tables.now ≡ true }
    requires r_bound { r < routes tables.now }
    requires i_bound { i < size tables.now ROUTE_TRIPS }
    ensures { result ≡ time_each tables.now r i }
{
    let v = item(tables, sections::ROUTE_TRIPS, i as usize);
    row_count(tables, sections::TIME_STARTS, v) == row_count(tables, sections::ROUTE_STOP_STARTS, r)
}

// Whether each trip of route r has one stop time per position.
fn times_of_ok(tables: &[u32], r: u32) -> bool
    requires laid { Laid tables.now }
    requires tables_value { route_trips tables.now ≡ true }
    requires r_bound { r < routes tables.now }
    ensures { result ≡ under tables.now ROUTE_TRIP_STARTS (time_each tables.now) r }
{
    rows_under(tables, sections::ROUTE_TRIP_STARTS, r).all(|i| time_each_ok(tables, r, i))
}

// Whether each trip has one stop time per position of its route.
pub fn trip_times_ok(tables: &[u32]) -> bool
    requires laid { Laid tables.now }
    requires tables_value { route_trips tables.now ≡ true }
    ensures { result ≡ trip_times tables.now }
{
    let n = entries_of(tables, sections::ROUTE_STOP_STARTS);
    (0..n).all(|r| times_of_ok(tables, r))
}
