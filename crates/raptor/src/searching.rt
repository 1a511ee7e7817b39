// A query that nothing refuses: its places are written, it is searched, and the journey is told.
ghost use Rattle.std.specs.Prelude.{◌≡◌, ◌++◌, ◌+◌, ◌≤◌, ◌<◌, length};
ghost use Rattle.model.specs.Places.{place_stops};
ghost use Rattle.model.specs.Answer.{searched};
ghost use Rattle.model.specs.Left.{placed};
ghost use Rattle.model.specs.Limits.{MOST_STOPS};
ghost use Rattle.model.specs.Work.{state_of};
ghost use Rattle.repository.specs.Accepted.{Accepted};
ghost use Rattle.repository.specs.NetOf.{net_of};
ghost use Rattle.allocator.specs.Layout.{Sized, view};
ghost use Rattle.allocator.specs.Does.{Usable};
ghost use Rattle.raptor.specs.Lent.{lent};
ghost use Rattle.raptor.specs.Searching.{ask_of, Posed, Place, Written, Ran};

use model::{Answer, Direction, Location, Query, Target};
use raptor_query::Sizes;
use raptor_rounds::Ask;

// What the search is asked: the query's own, and the sizes of the tables.
pub fn ask_of(tables: &[u32], q: Query) -> Ask
    requires { Accepted tables.now }
    ensures { result ≡ ask_of (net_of tables.now) q }
{
    Ask {
        stops: repository::places::stop_count(tables),
        routes: repository::routes::route_count(tables),
        direction: raptor_query::direction_of(q.time),
        mode: q.mode,
        walking: raptor_query::may_walk(q.walks),
        moment: raptor_query::moment_of(q.time),
    }
}

// The stops of a place: a stop's stand in the tables, an area's in `area`.
fn stops_of<'a>(tables: &'a [u32], stops: u32, at: Location, area: &'a [u32]) -> &'a [u32]
    requires accepted { Accepted tables.now }
    requires place { Place (net_of tables.now) stops at area.now }
    ensures { result.now ≡ place_stops (net_of tables.now) at }
{
    match at {
        Location::Stop(s) => discovery::places::stops_of_stop(tables, s),
        Location::Area(_) => area,
    }
}

// The search of a query: a departure search goes from the origins, an arrival search from the destinations.
fn search_for<'a>(
    tables: &'a [u32],
    words: &mut [u32],
    marks: &mut [u64],
    origins: &'a [u32],
    goals: &'a [u32],
    a: Ask,
    q: Query,
) -> Target
    requires posed { Posed tables.now q a }
    requires sized { Sized a.stops a.routes words.old marks.old }
    requires place { Place (net_of tables.now) a.stops q.from origins.now }
    requires place_2 { Place (net_of tables.now) a.stops q.to goals.now }
    ensures result_after { state_of (view a.stops a.routes words.new marks.new) result
        ≡ searched (net_of tables.now) q }
    ensures usable { Usable a.stops a.routes words.new marks.new }
{
    let left = stops_of(tables, a.stops, q.from, origins);
    let reached = stops_of(tables, a.stops, q.to, goals);
    match a.direction {
        Direction::Departure => raptor_rounds::search(tables, words, marks, a, left, reached),
        Direction::Arrival => raptor_rounds::search(tables, words, marks, a, reached, left),
    }
}

// The same, with the areas' stops where `write_places` put them: in the first half of the places, and in the second.
fn search_in<'a>(
    tables: &'a [u32],
    words: &mut [u32],
    marks: &mut [u64],
    places: &'a [u32],
    sizes: Sizes,
    a: Ask,
    q: Query,
) -> Target
    requires posed { Posed tables.now q a }
    requires sized { Sized a.stops a.routes words.old marks.old }
    requires written { Written (net_of tables.now) q places.now sizes.origins sizes.goals }
    requires stops_bound { a.stops ≤ MOST_STOPS }
    requires origins_le_stops { sizes.origins ≤ a.stops }
    requires goals_le_stops { sizes.goals ≤ a.stops }
    requires places_len { length places.now ≡ a.stops + a.stops }
    ensures result_after { state_of (view a.stops a.routes words.new marks.new) result
        ≡ searched (net_of tables.now) q }
    ensures usable { Usable a.stops a.routes words.new marks.new }
{
    let half = a.stops as usize;
    let origins = &places[..sizes.origins];
    let goals = &places[half..half + sizes.goals];
    search_for(tables, words, marks, origins, goals, a, q)
}

// The places written, then the search.
fn place_and_search(
    tables: &[u32],
    words: &mut [u32],
    marks: &mut [u64],
    places: &mut [u32],
    a: Ask,
    q: Query,
) -> Target
    requires posed { Posed tables.now q a }
    requires sized { Sized a.stops a.routes words.old marks.old }
    requires places_len { length places.old ≡ a.stops + a.stops }
    ensures result_after { state_of (view a.stops a.routes words.new marks.new) result
        ≡ searched (net_of tables.now) q }
    ensures usable { Usable a.stops a.routes words.new marks.new }
    ensures places_after { places.new
        ≡ placed (net_of tables.now) q.from ++ placed (net_of tables.now) q.to }
{
    let sizes = raptor_query::write_places(tables, places, a.stops, q.from, q.to);
    search_in(tables, words, marks, places, sizes, a, q)
}

// The search and its answer.
pub fn run(
    tables: &[u32],
    words: &mut [u32],
    marks: &mut [u64],
    places: &mut [u32],
    journey: &mut [u8],
    a: Ask,
    q: Query,
) -> Answer
    requires posed { Posed tables.now q a }
    requires sized { Sized a.stops a.routes words.old marks.old }
    requires places_len { length places.old ≡ a.stops + a.stops }
    ensures { Ran (net_of tables.now) q journey.old result
        (lent words.new marks.new places.new journey.new) }
{
    let aimed = place_and_search(tables, words, marks, places, a, q);
    raptor_reply::reply(words, journey, a.stops, a.routes, a.direction, aimed)
}
