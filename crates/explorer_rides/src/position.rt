// One position of a scan: first the proposal, then the boarding. What both hang on is looked at together, by code made for each direction:
// this is where a search spends its time.
ghost use Rattle.std.specs.Prelude.{◌≡◌, ◌<◌, get_or};
ghost use Rattle.model.specs.Rides.{board as boards};
ghost use Rattle.repository.specs.NetOf.{net_of};
ghost use Rattle.allocator.specs.Workspace.{state, prev, best, Becomes};
ghost use Rattle.explorer.specs.Fixed.{Fixed};
ghost use Rattle.explorer.specs.Fused.{alight_work};
ghost use Rattle.explorer_rides.specs.Riding.{aboard, Seat, Seated, OnRoute, Riding, board_at};
ghost use Rattle.explorer_rides.specs.Looking.{meets, proposes_at, catches_at, look_at, rides_on};

use super::{Call, Ride};
use allocator::Workspace;
use explorer::Round;
use model::Direction;
use shared::Time;

// What a look at a call tells: whether the trip aboard proposes the stop, and whether the label catches a trip there.
#[derive(Clone, Copy)]
pub struct Seen {
    pub proposes: bool,
    pub catches: bool,
}

// Whether the moment at which the trip aboard comes here passes both tests: against the target, and against the best moment of the stop.
fn proposes(
    tables: &[u32],
    workspace: &Workspace,
    round: Round,
    d: Direction,
    here: Call,
    ride: Ride,
) -> bool
    requires on_route { OnRoute tables.now here }
    requires seat { Seat tables.now here.route ride }
    requires stop_lt_stops { here.stop < workspace.now.stops }
    ensures { result
        ≡ proposes_at d tables.now round.target.0
        (get_or (best workspace.now) here.stop 0) here ride }
{
    let t = super::seat::reaches_at(tables, d, ride.row, here.position);
    if allocator::is_ahead(d, t, round.target) {
        let best = workspace.best(here.stop);
        return allocator::is_better(d, t, best);
    }
    false
}

// Whether who is there at the label can take what goes on at t.
fn meets_at(d: Direction, t: Time, label: Time) -> bool
    ensures { result ≡ meets d t.0 label.0 }
{
    match d {
        Direction::Departure => label.0 <= t.0,
        Direction::Arrival => t.0 <= label.0,
    }
}

// Whether the label lets a trip be caught here, the one aboard or another. An absent label catches none.
fn catches(tables: &[u32], d: Direction, here: Call, ride: Ride) -> bool
    requires on_route { OnRoute tables.now here }
    requires seat { Seat tables.now here.route ride }
    ensures { result ≡ catches_at d tables.now here ride }
{
    let label = here.label;
    if label.0 == 0 {
        return false;
    }
    let t = super::seat::leaves_at(tables, d, ride.row, here.position);
    meets_at(d, t, label)
}

// Both, where a trip is aboard. The caller names the direction, so that the compiler makes code for each of the two.
fn look_by(
    tables: &[u32],
    workspace: &Workspace,
    round: Round,
    d: Direction,
    here: Call,
    ride: Ride,
) -> Seen
    requires on_route { OnRoute tables.now here }
    requires seat { Seat tables.now here.route ride }
    requires stop_lt_stops { here.stop < workspace.now.stops }
    ensures { result
        ≡ look_at d tables.now round.target.0
        (get_or (best workspace.now) here.stop 0) here ride }
{
    if proposes(tables, workspace, round, d, here, ride) {
        let also = catches(tables, d, here, ride);
        return Seen {
            proposes: true,
            catches: also,
        };
    }
    let only = catches(tables, d, here, ride);
    Seen {
        proposes: false,
        catches: only,
    }
}

// Both; where nobody is aboard, every label catches.
fn look(tables: &[u32], workspace: &Workspace, round: Round, here: Call, ride: Ride) -> Seen
    requires on_route { OnRoute tables.now here }
    requires seated { Seated tables.now here.route ride }
    requires stop_lt_stops { here.stop < workspace.now.stops }
    ensures { result
        ≡ look_at round.direction tables.now round.target.0
        (get_or (best workspace.now) here.stop 0) here ride }
{
    if ride.place == repository::MAX {
        let label = here.label;
        return Seen {
            proposes: false,
            catches: label.0 != 0,
        };
    }
    let d = round.direction;
    match d {
        Direction::Departure => look_by(tables, workspace, round, Direction::Departure, here, ride),
        Direction::Arrival => look_by(tables, workspace, round, Direction::Arrival, here, ride),
    }
}

// Who is aboard proposes when the trip comes to the stop of this position. Given back is whether the label catches a trip there.
fn alight(
    tables: &[u32],
    workspace: &mut Workspace,
    stops: &[u32],
    round: Round,
    here: Call,
    ride: Ride,
) -> bool
    requires fixed { Fixed tables.now workspace.old.stops workspace.old.routes }
    requires riding { Riding tables.now round here.route stops.now }
    requires on_route { OnRoute tables.now here }
    requires seated { Seated tables.now here.route ride }
    ensures does { Becomes
        (alight_work round.direction (net_of tables.now) round.number round.target.0
        here.route here.position (aboard ride))
        workspace.old workspace.new }
    ensures value { result ≡ catches_at round.direction tables.now here ride }
{
    let seen = look(tables, workspace, round, here, ride);
    if seen.proposes {
        super::seat::propose(tables, workspace, stops, round, here, ride);
        return seen.catches;
    }
    seen.catches
}

// The ride that goes on from this position.
fn board(tables: &[u32], round: Round, here: Call, ride: Ride, catches: bool) -> Ride
    requires on_route { OnRoute tables.now here }
    requires seated { Seated tables.now here.route ride }
    requires catches_value { catches ≡ catches_at round.direction tables.now here ride }
    ensures value { result ≡ rides_on round.direction tables.now here ride }
    ensures result_value { aboard result
        ≡ board_at round.direction (net_of tables.now) here.route here.position here.label.0 (aboard ride) }
    ensures seated_2 { Seated tables.now here.route result }
{
    if catches {
        return super::seat::catch_trip(tables, round, here, ride);
    }
    ride
}

// One position.
pub fn ride_at(
    tables: &[u32],
    workspace: &mut Workspace,
    stops: &[u32],
    round: Round,
    here: Call,
    ride: Ride,
) -> Ride
    requires fixed { Fixed tables.now workspace.old.stops workspace.old.routes }
    requires riding { Riding tables.now round here.route stops.now }
    requires on_route { OnRoute tables.now here }
    requires label_value { here.label.0 ≡ get_or (prev workspace.old) here.stop 0 }
    requires seated { Seated tables.now here.route ride }
    ensures does { Becomes
        (alight_work round.direction (net_of tables.now) round.number round.target.0
        here.route here.position (aboard ride))
        workspace.old workspace.new }
    ensures value { result ≡ rides_on round.direction tables.now here ride }
    ensures result_value { aboard result
        ≡ boards round.direction (net_of tables.now)
        (state workspace.old).prev
        here.route here.position (aboard ride) }
    ensures seated_2 { Seated tables.now here.route result }
{
    let caught = alight(tables, workspace, stops, round, here, ride);
    board(tables, round, here, ride, caught)
}
