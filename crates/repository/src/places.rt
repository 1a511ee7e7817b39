// Stops, their stations and children, and areas.
ghost use Rattle.std.specs.Prelude.{◌≡◌, [], ◌∷◌, ◌<◌};
ghost use Rattle.repository.specs.Laid.{Laid};
ghost use Rattle.repository.specs.Accepted.{Accepted};
ghost use Rattle.repository.specs.NetOf.{net_of};

use crate::{sections, words};

pub fn stop_count(tables: &[u32]) -> u32
    requires { Laid tables.now }
    ensures { result ≡ (net_of tables.now).stops }
{
    words::size_of(tables, sections::STOP_LIST)
}

pub fn area_count(tables: &[u32]) -> u32
    requires { Laid tables.now }
    ensures { result ≡ (net_of tables.now).areas }
{
    words::size_of(tables, sections::AREA_STARTS) - 1
}

// The parent station of a stop, or none.
pub fn station_of(tables: &[u32], s: u32) -> Option<u32>
    requires laid { Laid tables.now }
    requires s_bound { s < (net_of tables.now).stops }
    ensures { result ≡ (net_of tables.now).station s }
{
    let p = words::word(tables, sections::STATIONS, s as usize);
    if p == super::MAX { None } else { Some(p) }
}

// The stops that name a stop as their station, as a part of the children list.
pub fn children(tables: &[u32], s: u32) -> &[u32]
    requires laid { Laid tables.now }
    requires s_bound { s < (net_of tables.now).stops }
    ensures { result.now ≡ (net_of tables.now).children s }
{
    words::listing(tables, sections::CHILD_STARTS, s)
}

// A stop by itself: its single entry in the stop list.
pub fn stop_entry(tables: &[u32], s: u32) -> &[u32]
    requires accepted { Accepted tables.now }
    requires s_bound { s < (net_of tables.now).stops }
    ensures { result.now ≡ s ∷ [] }
{
    words::part(tables, sections::STOP_LIST, s, s + 1)
}

// Whether a trip passes a stop.
pub fn served(tables: &[u32], s: u32) -> bool
    requires laid { Laid tables.now }
    requires s_bound { s < (net_of tables.now).stops }
    ensures { result ≡ (net_of tables.now).served s }
{
    words::word(tables, sections::SERVED, s as usize) == 1
}

// The stops that an area names, as a part of the area list.
pub fn stops_named(tables: &[u32], a: u32) -> &[u32]
    requires laid { Laid tables.now }
    requires a_bound { a < (net_of tables.now).areas }
    ensures { result.now ≡ (net_of tables.now).area_stops a }
{
    words::listing(tables, sections::AREA_STARTS, a)
}
