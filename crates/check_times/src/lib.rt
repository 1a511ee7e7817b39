// Numbers 3 and 4: the timetable of every route.
#![tactic(auto)]

ghost use Rattle.std.specs.Prelude.{◌≡◌, ◌+◌, ◌≤◌, ◌<◌};
ghost use Rattle.repository.specs.NetOf.{net_of};
ghost use Rattle.repository.specs.Laid.{Laid};
ghost use Rattle.repository.specs.Accepted.{Listed};
ghost use Rattle.repository.specs.Rows.{time_row, time_count};
ghost use Rattle.repository.specs.Checked.{timely, timed, ordered};
ghost use Rattle.check_times.specs.AtTrip.{AtTrip};

use repository::limits;

// When a trip arrives at a position, and when it departs from there.
#[derive(Clone, Copy)]
struct StopTime {
    arrival: u32,
    departure: u32,
}

// The first row of the times of the trip at place i of route r. The rows for all positions of the route stand there.
fn row_of(tables: &[u32], r: u32, i: u32) -> u32
    requires laid { Laid tables.now }
    requires listed { Listed tables.now }
    requires r_bound { r < (net_of tables.now).routes }
    requires i_bound { i < (net_of tables.now).trips r }
    ensures value { result ≡ time_row tables.now ((net_of tables.now).trip_at r i) }
    ensures r_bound_2 { result + (net_of tables.now).positions r ≤ time_count tables.now }
{
    let v = repository::routes::trip_at(tables, r, i);
    repository::times::time_row(tables, v)
}

fn stop_time(tables: &[u32], r: u32, p: u32, i: u32) -> StopTime
    requires { AtTrip tables.now r p i }
    ensures arrival_value { result.arrival ≡ (net_of tables.now).arrival ((net_of tables.now).trip_at r i) p }
    ensures departure_value { result.departure ≡ (net_of tables.now).departure ((net_of tables.now).trip_at r i) p }
{
    let row = row_of(tables, r, i);
    let arrival = repository::times::arrival_in(tables, row, p);
    let departure = repository::times::departure_in(tables, row, p);
    StopTime {
        arrival: arrival.0,
        departure: departure.0,
    }
}

// Whether the trip keeps its time at position p, and comes to the next position not before it left. `end` is how many
// positions the route has.
fn time_ok(tables: &[u32], r: u32, p: u32, i: u32, end: u32) -> bool
    requires at_trip { AtTrip tables.now r p i }
    requires end_value { end ≡ (net_of tables.now).positions r }
    ensures { result ≡ timely (net_of tables.now) r p i }
{
    let row = row_of(tables, r, i);
    let arrival = repository::times::arrival_in(tables, row, p);
    let departure = repository::times::departure_in(tables, row, p);
    let stays = (1 <= arrival.0)
        & (arrival.0 <= departure.0)
        & (departure.0 <= limits::LAST_MOMENT);
    if p + 1 < end {
        let next = repository::times::arrival_in(tables, row, p + 1);
        return stays & (departure.0 <= next.0);
    }
    stays
}

// Whether no trip has a number 3.
pub fn times_ok(tables: &[u32]) -> bool
    requires laid { Laid tables.now }
    requires listed { Listed tables.now }
    ensures { result ≡ timed (net_of tables.now) }
{
    let m = repository::routes::route_count(tables);
    let mut ok = true;
    'all: for r in 0..m {
        let end = repository::routes::route_len(tables, r);
        let count = repository::routes::trips_of_route(tables, r);
        for p in 0..end {
            for i in 0..count {
                let good = time_ok(tables, r, p, i, end);
                if !good {
                    ok = false;
                    break 'all;
                }
            }
        }
    }
    ok
}

// Whether the trips of every route stand in order. Before the first trip no moment was seen, which is 0.
pub fn order_ok(tables: &[u32]) -> bool
    requires laid { Laid tables.now }
    requires listed { Listed tables.now }
    ensures { result ≡ ordered (net_of tables.now) }
{
    let m = repository::routes::route_count(tables);
    let mut ok = true;
    'all: for r in 0..m {
        let end = repository::routes::route_len(tables, r);
        let count = repository::routes::trips_of_route(tables, r);
        for p in 0..end {
            let mut arrival: u32 = 0;
            let mut departure: u32 = 0;
            for i in 0..count {
                let t = stop_time(tables, r, p, i);
                let good = (arrival <= t.arrival) & (departure <= t.departure);
                if !good {
                    ok = false;
                    break 'all;
                }
                arrival = t.arrival;
                departure = t.departure;
            }
        }
    }
    ok
}
