// The stops and the trips of a route, and the route of a trip.
ghost use Rattle.std.specs.Prelude.{◌≡◌, ◌<◌};
ghost use Rattle.base.specs.Tab.{tab};
ghost use Rattle.repository.specs.Laid.{Laid};
ghost use Rattle.repository.specs.Readable.{Readable};
ghost use Rattle.repository.specs.NetOf.{net_of};
ghost use Rattle.repository.specs.Rows.{trip_count, route_of_trip};

use crate::{sections, words};

pub fn route_count(tables: &[u32]) -> u32
    requires { Laid tables.now }
    ensures { result ≡ (net_of tables.now).routes }
{
    words::size_of(tables, sections::ROUTE_STOP_STARTS) - 1
}

// How many positions a route has.
pub fn route_len(tables: &[u32], r: u32) -> u32
    requires laid { Laid tables.now }
    requires r_bound { r < (net_of tables.now).routes }
    ensures { result ≡ (net_of tables.now).positions r }
{
    words::row_count(tables, sections::ROUTE_STOP_STARTS, r)
}

// The stop at a position of a route.
pub fn stop_at(tables: &[u32], r: u32, p: u32) -> u32
    requires laid { Laid tables.now }
    requires r_bound { r < (net_of tables.now).routes }
    requires p_bound { p < (net_of tables.now).positions r }
    ensures { result ≡ (net_of tables.now).stop_at r p }
{
    words::stop_on(tables, r, p)
}

// The stops of a route, as a part of the tables.
pub fn route_stops(tables: &[u32], r: u32) -> &[u32]
    requires laid { Laid tables.now }
    requires r_bound { r < (net_of tables.now).routes }
    ensures { result.now ≡ tab ((net_of tables.now).stop_at r) ((net_of tables.now).positions r) 0 }
{
    words::listing(tables, sections::ROUTE_STOP_STARTS, r)
}

// How many trips a route has.
pub fn trips_of_route(tables: &[u32], r: u32) -> u32
    requires readable { Readable tables.now }
    requires r_bound { r < (net_of tables.now).routes }
    ensures { result ≡ (net_of tables.now).trips r }
{
    words::row_count(tables, sections::ROUTE_TRIP_STARTS, r)
}

// Trip i of a route, in the route's order.
pub fn trip_at(tables: &[u32], r: u32, i: u32) -> u32
    requires readable { Readable tables.now }
    requires r_bound { r < (net_of tables.now).routes }
    requires i_bound { i < (net_of tables.now).trips r }
    ensures { result ≡ (net_of tables.now).trip_at r i }
{
    let a = words::row_from(tables, sections::ROUTE_TRIP_STARTS, r) as usize;
    words::word(tables, sections::ROUTE_TRIPS, a + i as usize)
}

pub fn trip_count(tables: &[u32]) -> u32
    requires { Laid tables.now }
    ensures { result ≡ trip_count tables.now }
{
    words::size_of(tables, sections::TIME_STARTS) - 1
}

// The route that a trip stands in.
pub fn route_of(tables: &[u32], v: u32) -> u32
    requires laid { Laid tables.now }
    requires v_bound { v < trip_count tables.now }
    ensures { result ≡ route_of_trip tables.now v }
{
    let at = v as usize * sections::STANDING_WORDS;
    words::word(tables, sections::STANDING, at)
}
