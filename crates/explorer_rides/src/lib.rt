// The rides of a round (explorer.rs), of both directions: every route that the round chose is scanned along its positions.
// A proposal is applied as it is made.
#![tactic(auto)]

pub mod seat; // seat.rt: a trip is caught, and what it proposes
pub mod position; // position.rt: what happens at one position
pub mod route; // route.rt: a route from its mark, one position after the other

ghost use Rattle.model.specs.Choosing.{Placed};
ghost use Rattle.repository.specs.NetOf.{net_of};
ghost use Rattle.allocator.specs.Workspace.{state, Becomes};
ghost use Rattle.explorer.specs.Fixed.{InRound};
ghost use Rattle.explorer.specs.Fused.{rides_work};

use allocator::Workspace;
use explorer::Round;
use shared::Time;

// Who is aboard: a trip since a position of the route, with the first row of the trip's times and its place in the route's order, where
// the next trip is looked for first. The place MAX is none. (An enum would carry bytes that hold nothing from position to position.)
#[derive(Clone, Copy)]
pub struct Ride {
    pub trip: u32,
    pub since: u32,
    pub row: u32,
    pub place: u32,
}

// A call: a position of a route, the stop there, and the label of that stop in the round before.
#[derive(Clone, Copy)]
pub struct Call {
    pub route: u32,
    pub position: u32,
    pub stop: u32,
    pub label: Time,
}

// The routes that the round chose, ascending.
pub fn explore_routes(tables: &[u32], workspace: &mut Workspace, round: Round)
    requires in_round { InRound tables.now workspace.old.stops workspace.old.routes round }
    requires placed { Placed round.direction (net_of tables.now) (state workspace.old) }
    ensures { Becomes
        (rides_work round.direction (net_of tables.now) round.number round.target.0)
        workspace.old workspace.new }
{
    let mut from: usize = 0;
    while let Some(r) = workspace.next_route(from) {
        route::explore_route(tables, workspace, round, r as u32);
        from = r + 1;
    }
}
