// The entry points (mod.rs): check, room, solve, and solve_checked for tables that were checked before.
#![tactic(auto)]

mod searching; // searching.rt: a query that nothing refuses is searched

ghost use Rattle.std.specs.Prelude.{◌≡◌, length};
ghost use Rattle.model.specs.Refusal.{number_given};
ghost use Rattle.repository.specs.Accepted.{Accepted};
ghost use Rattle.repository.specs.NetOf.{net_of};
ghost use Rattle.repository.specs.Checked.{check_of};
ghost use Rattle.raptor.specs.Lent.{lent};
ghost use Rattle.raptor.specs.Solved.{Solved};
ghost use Rattle.raptor.specs.Rooms.{lengths_of, room_of};

use model::{Answer, Error, Query, Refusal};

// Why the tables are refused, if they are: the lowest of 1 to 5 of which they have a fault.
pub fn check(tables: &[u32]) -> Result<(), Refusal>
    ensures { number_given result ≡ check_of tables.now }
{
    check_tables::check(tables)
}

// How long each slice of the workspace is.
#[derive(Clone, Copy, Debug, PartialEq, Eq)]
pub struct Lengths {
    pub words: usize,
    pub marks: usize,
    pub places: usize,
}

// The lengths that so many stops and routes ask for.
fn lengths_for(stops: u32, routes: u32) -> Lengths
    ensures { result ≡ lengths_of stops routes }
{
    Lengths {
        words: allocator::words_room(stops, routes),
        marks: allocator::marks_room(stops, routes),
        places: stops as usize + stops as usize,
    }
}

// The lengths that the tables ask for, or why they are refused.
pub fn room(tables: &[u32]) -> Result<Lengths, Refusal>
    ensures { result ≡ room_of tables.now }
{
    check(tables)?;
    let stops = repository::places::stop_count(tables);
    let routes = repository::routes::route_count(tables);
    Ok(lengths_for(stops, routes))
}

// `solve`, for tables that `check` does not refuse.
pub fn solve_checked(
    tables: &[u32],
    words: &mut [u32],
    marks: &mut [u64],
    places: &mut [u32],
    journey: &mut [u8],
    q: Query,
) -> Answer
    requires { Accepted tables.now }
    ensures { Solved tables.now q
        (lent words.old marks.old places.old journey.old) result
        (lent words.new marks.new places.new journey.new) }
{
    let ask = searching::ask_of(tables, q);
    let lent = Lengths {
        words: words.len(),
        marks: marks.len(),
        places: places.len(),
    };
    if lent != lengths_for(ask.stops, ask.routes) {
        return Err(Error::Refused(Refusal::Room));
    }
    raptor_query::refusal(tables, q)?;
    searching::run(tables, words, marks, places, journey, ask, q)
}

// The journey that a query asks for, or why there is none: the lowest refusal that applies. Everything is checked, and everything is
// answered.
pub fn solve(
    tables: &[u32],
    words: &mut [u32],
    marks: &mut [u64],
    places: &mut [u32],
    journey: &mut [u8],
    q: Query,
) -> Answer
    ensures { Solved tables.now q
        (lent words.old marks.old places.old journey.old) result
        (lent words.new marks.new places.new journey.new) }
{
    check(tables)?;
    solve_checked(tables, words, marks, places, journey, q)
}
