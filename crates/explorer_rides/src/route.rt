// A route of the round from its mark, with time or against it: one position after the other.
ghost use Rattle.std.specs.Prelude.{◌≡◌, ◌<◌, get_or, None};
ghost use Rattle.model.specs.declared.Direction.TheVariants.{Arrival};
ghost use Rattle.model.specs.Moments.{MAX};
ghost use Rattle.model.specs.Rides.{course};
ghost use Rattle.repository.specs.NetOf.{net_of};
ghost use Rattle.allocator.specs.Workspace.{active, Becomes};
ghost use Rattle.explorer.specs.Fixed.{Fixed, InRound};
ghost use Rattle.explorer.specs.Fused.{scan_work, route_work};
ghost use Rattle.explorer_rides.specs.Riding.{Rideable};
ghost use Rattle.explorer_rides.specs.Course.{past_of, next_of};

use super::{Call, Ride};
use allocator::Workspace;
use explorer::Round;
use model::Direction;

// Where the scan of a route with positions below `end` ends. Below the first position is MAX.
fn past_of(round: Round, end: u32) -> u32
    ensures { result ≡ past_of round.direction end }
{
    let d = round.direction;
    match d {
        Direction::Departure => end,
        Direction::Arrival => repository::MAX,
    }
}

// The position that comes after p.
fn next_of(round: Round, p: u32) -> u32
    requires { p < MAX }
    ensures { result ≡ next_of round.direction p }
{
    let d = round.direction;
    match d {
        Direction::Departure => p + 1,
        Direction::Arrival => {
            if p == 0 {
                return repository::MAX;
            }
            p - 1
        }
    }
}

// The positions of route r from `start` on. Nobody is aboard there.
fn scan(tables: &[u32], workspace: &mut Workspace, stops: &[u32], round: Round, r: u32, start: u32)
    requires fixed { Fixed tables.now workspace.old.stops workspace.old.routes }
    requires rideable { Rideable tables.now round r stops.now }
    requires start_bound { start < (net_of tables.now).positions r }
    ensures { Becomes
        (scan_work round.direction (net_of tables.now) round.number round.target.0 r
        (course round.direction (net_of tables.now) r start) None)
        workspace.old workspace.new }
{
    let end = repository::routes::route_len(tables, r);
    let past = past_of(round, end);
    let mut ride = Ride {
        trip: 0,
        since: 0,
        row: 0,
        place: repository::MAX,
    };
    let mut p = start;
    // Stays a while: the two directions take the positions in two orders, which would be two loops over the same body.
    while p != past {
        let s = stops[p as usize];
        let label = workspace.prev(s);
        let here = Call {
            route: r,
            position: p,
            stop: s,
            label,
        };
        ride = super::position::ride_at(tables, workspace, stops, round, here, ride);
        p = next_of(round, p);
    }
}

// The route r, from its mark. A departure search has nothing to scan where the mark is no position.
pub fn explore_route(tables: &[u32], workspace: &mut Workspace, round: Round, r: u32)
    requires in_round { InRound tables.now workspace.old.stops workspace.old.routes round }
    requires r_lt_routes { r < workspace.old.routes }
    requires r_bound { round.direction ≡ Arrival
        → get_or (active workspace.old) r 0 < (net_of tables.now).positions r }
    ensures { Becomes
        (route_work round.direction (net_of tables.now) round.number round.target.0 r)
        workspace.old workspace.new }
{
    let from = workspace.active(r);
    if from < repository::routes::route_len(tables, r) {
        let stops = repository::routes::route_stops(tables, r);
        scan(tables, workspace, stops, round, r, from);
    }
}
