// A seat on a trip: it is caught at a position, and proposes the stops that the trip comes to.
ghost use Rattle.std.specs.Prelude.{◌≡◌, ◌+◌, ◌*◌, ◌<◌, Some};
ghost use Rattle.repository.specs.Laid.{Laid};
ghost use Rattle.repository.specs.NetOf.{net_of};
ghost use Rattle.repository.specs.Rows.{time_count};
ghost use Rattle.discovery.specs.Trips.{trip_place};
ghost use Rattle.allocator.specs.Workspace.{Becomes};
ghost use Rattle.allocator.specs.Operations.{applied};
ghost use Rattle.explorer.specs.Fixed.{Fixed};
ghost use Rattle.explorer_rides.specs.Riding.{Seat, Seated, caught, ride_leg, OnRoute, Riding, reach_in, leave_in};

use super::{Call, Ride};
use allocator::{Offer, Workspace};
use explorer::Round;
use model::{Direction, Leg, LegType};
use shared::Time;

// The first trip that arrives at the position not before the label; in an arrival search the last not after it. The trip at place `near`
// is looked at first.
fn find_trip(tables: &[u32], round: Round, here: Call, near: u32) -> Option<u32>
    requires on_route { OnRoute tables.now here }
    requires label_nonzero { 0 < here.label.0 }
    ensures { result
        ≡ trip_place round.direction (net_of tables.now) here.route here.position here.label.0 }
{
    let r = here.route;
    let p = here.position;
    let label = here.label;
    let d = round.direction;
    match d {
        Direction::Departure => discovery::find_earliest_trip(tables, r, p, label, near),
        Direction::Arrival => discovery::find_latest_trip(tables, r, p, label, near),
    }
}

// A seat on the trip at place i of the route. Where it is the trip aboard, which it is more often than not, all but the position is known.
fn seat_at(tables: &[u32], here: Call, ride: Ride, i: u32) -> Ride
    requires on_route { OnRoute tables.now here }
    requires seated { Seated tables.now here.route ride }
    requires i_bound { i < (net_of tables.now).trips here.route }
    ensures { result ≡ caught tables.now here.route here.position ride (Some i) }
{
    let since = here.position;
    if i == ride.place {
        return Ride {
            trip: ride.trip,
            since,
            row: ride.row,
            place: i,
        };
    }
    let v = repository::routes::trip_at(tables, here.route, i);
    Ride {
        trip: v,
        since,
        row: repository::times::time_row(tables, v),
        place: i,
    }
}

// Boards that trip. Where there is none, the ride goes on.
pub fn catch_trip(tables: &[u32], round: Round, here: Call, ride: Ride) -> Ride
    requires on_route { OnRoute tables.now here }
    requires seated { Seated tables.now here.route ride }
    requires label_nonzero { 0 < here.label.0 }
    ensures { result
        ≡ caught tables.now here.route here.position ride
        (trip_place round.direction (net_of tables.now) here.route here.position here.label.0) }
{
    match find_trip(tables, round, here, ride.place) {
        Some(i) => seat_at(tables, here, ride, i),
        None => ride,
    }
}

// When a trip comes to position p, as the search goes: its times begin at the row.
pub fn reaches_at(tables: &[u32], d: Direction, row: u32, p: u32) -> Time
    requires laid { Laid tables.now }
    requires p_bound { row + p < time_count tables.now }
    ensures { result.0 ≡ reach_in d tables.now row p }
{
    match d {
        Direction::Departure => repository::times::arrival_in(tables, row, p),
        Direction::Arrival => repository::times::departure_in(tables, row, p),
    }
}

// When it goes on from there, as the search goes.
pub fn leaves_at(tables: &[u32], d: Direction, row: u32, p: u32) -> Time
    requires laid { Laid tables.now }
    requires p_bound { row + p < time_count tables.now }
    ensures { result.0 ≡ leave_in d tables.now row p }
{
    match d {
        Direction::Departure => repository::times::departure_in(tables, row, p),
        Direction::Arrival => repository::times::arrival_in(tables, row, p),
    }
}

// The leg of the trip aboard, from the position where it was boarded to this one, which it reaches at t.
fn leg_from(tables: &[u32], stops: &[u32], round: Round, here: Call, t: Time, ride: Ride) -> Leg
    requires riding { Riding tables.now round here.route stops.now }
    requires seat { Seat tables.now here.route ride }
    ensures { result ≡ ride_leg round.direction (net_of tables.now) here.route ride here.stop t.0 }
{
    let b = ride.since as usize;
    let near = stops[b];
    let d = round.direction;
    let x = leaves_at(tables, d, ride.row, ride.since);
    allocator::leg_of(d, LegType::Transit(ride.trip), near, x, here.stop, t)
}

// The trip aboard comes here.
pub fn propose(
    tables: &[u32],
    workspace: &mut Workspace,
    stops: &[u32],
    round: Round,
    here: Call,
    ride: Ride,
)
    requires fixed { Fixed tables.now workspace.old.stops workspace.old.routes }
    requires riding { Riding tables.now round here.route stops.now }
    requires on_route { OnRoute tables.now here }
    requires seat { Seat tables.now here.route ride }
    ensures { Becomes
        (applied round.direction (round.number * workspace.old.stops) here.stop
        (reach_in round.direction tables.now ride.row here.position)
        (ride_leg round.direction (net_of tables.now) here.route ride here.stop
        (reach_in round.direction tables.now ride.row here.position)))
        workspace.old workspace.new }
{
    let d = round.direction;
    let t = reaches_at(tables, d, ride.row, here.position);
    let g = leg_from(tables, stops, round, here, t, ride);
    let offer = Offer {
        stop: here.stop,
        moment: t,
        leg: g,
    };
    workspace.apply(d, round.number, offer);
}
