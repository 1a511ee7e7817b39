// What a query asks: whether it is refused with 7, 8 or 9, and the stops of its areas.
#![tactic(auto)]

ghost use Rattle.std.specs.Prelude.{◌≡◌, true, ◌++◌, ◌+◌, length};
ghost use Rattle.model.specs.Places.{exists as existing, barren};
ghost use Rattle.model.specs.Answer.{may_walk, moment_of, refusal};
ghost use Rattle.model.specs.Left.{placed};
ghost use Rattle.model.specs.Refusal.{number_given};
ghost use Rattle.repository.specs.Accepted.{Accepted};
ghost use Rattle.repository.specs.NetOf.{net_of};
ghost use Rattle.raptor_query.specs.Areas.{area_part};
ghost use Rattle.raptor_query.specs.Directed.{direction_of};

use model::{Direction, Location, Query, Refusal, TimeConstraint, Walks};
use shared::Time;

// Whether a place exists.
#[tactic(auto, unfolding(model::specs::Places::exists))]
fn exists(tables: &[u32], l: Location) -> bool
    requires { Accepted tables.now }
    ensures { result ≡ existing (net_of tables.now) l }
{
    match l {
        Location::Stop(s) => s < repository::places::stop_count(tables),
        Location::Area(a) => a < repository::places::area_count(tables),
    }
}

// Whether a place is an area without a served stop.
fn is_barren(tables: &[u32], l: Location) -> bool
    requires accepted { Accepted tables.now }
    requires l_value { existing (net_of tables.now) l ≡ true }
    ensures { result ≡ barren (net_of tables.now) l }
{
    match l {
        Location::Stop(_) => false,
        Location::Area(a) => discovery::places::area_size(tables, a) == 0,
    }
}

// The query moment.
#[tactic(auto, unfolding(model::specs::Answer::moment_of))]
pub fn moment_of(time: TimeConstraint) -> Time
    ensures { result.0 ≡ moment_of time }
{
    match time {
        TimeConstraint::Departure(t) | TimeConstraint::Arrival(t) => t,
    }
}

// The direction in which a query is searched.
pub fn direction_of(time: TimeConstraint) -> Direction
    ensures { result ≡ direction_of time }
{
    match time {
        TimeConstraint::Departure(_) => Direction::Departure,
        TimeConstraint::Arrival(_) => Direction::Arrival,
    }
}

// Walking is allowed where a query does not say.
#[tactic(auto, unfolding(model::specs::Answer::may_walk))]
pub fn may_walk(walks: Walks) -> bool
    ensures { result ≡ may_walk walks }
{
    matches!(walks, Walks::Unsaid | Walks::Allowed)
}

// Why a query is refused, if it is: the lowest of 7, 8 and 9 that applies.
#[tactic(auto, unfolding(model::specs::Answer::refusal))]
pub fn refusal(tables: &[u32], q: Query) -> Result<(), Refusal>
    requires { Accepted tables.now }
    ensures { number_given result ≡ refusal (net_of tables.now) q }
{
    if !exists(tables, q.from) || !exists(tables, q.to) {
        return Err(Refusal::Place);
    }
    let t = moment_of(q.time).0;
    if t < 1 || repository::limits::LAST_MOMENT < t {
        return Err(Refusal::Moment);
    }
    if is_barren(tables, q.from) || is_barren(tables, q.to) {
        return Err(Refusal::Barren);
    }
    Ok(())
}

// Writes the stops of an area and zeros behind them, for a stop zeros alone, and says how many stops were written.
fn write_place(tables: &[u32], half: &mut [u32], l: Location) -> usize
    requires accepted { Accepted tables.now }
    requires l_value { existing (net_of tables.now) l ≡ true }
    requires half_len { length half.old ≡ (net_of tables.now).stops }
    ensures half_after { half.new ≡ placed (net_of tables.now) l }
    ensures value { result ≡ length (area_part (net_of tables.now) l) }
{
    match l {
        Location::Stop(_) => {
            half.fill(0);
            0
        }
        Location::Area(a) => discovery::places::area_stops(tables, a, half),
    }
}

// How many stops stand in each half of the places.
#[derive(Clone, Copy)]
pub struct Sizes {
    pub origins: usize,
    pub goals: usize,
}

// Writes the stops of the areas that a query names: from's in the first half of the places, to's in the second.
pub fn write_places(
    tables: &[u32],
    places: &mut [u32],
    stops: u32,
    from: Location,
    to: Location,
) -> Sizes
    requires accepted { Accepted tables.now }
    requires stops_value { stops ≡ (net_of tables.now).stops }
    requires from_value { existing (net_of tables.now) from ≡ true }
    requires to_value { existing (net_of tables.now) to ≡ true }
    requires places_len { length places.old ≡ stops + stops }
    ensures places_after { places.new ≡ placed (net_of tables.now) from ++ placed (net_of tables.now) to }
    ensures origins_value { result.origins ≡ length (area_part (net_of tables.now) from) }
    ensures goals_value { result.goals ≡ length (area_part (net_of tables.now) to) }
{
    let half = stops as usize;
    let origins = write_place(tables, &mut places[..half], from);
    let goals = write_place(tables, &mut places[half..], to);
    Sizes { origins, goals }
}
