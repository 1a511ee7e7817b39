// What the search looks up (discovery.rs): moments, trips by halving, first positions, spans, and the stops of a place.
#![tactic(auto)]

pub mod places; // places.rt: the stops of a stop or an area

ghost use Rattle.std.specs.Prelude.{◌≡◌, ℕ, ◌<◌};
ghost use Rattle.base.specs.Halving.{Bracket};
ghost use Rattle.model.specs.Lists.{upto};
ghost use Rattle.model.specs.declared.Direction.TheVariants.{Departure, Arrival};
ghost use Rattle.model.specs.Choosing.{first_position};
ghost use Rattle.repository.specs.Sections.{call_route, call_first};
ghost use Rattle.repository.specs.Readable.{Readable, Searchable};
ghost use Rattle.repository.specs.NetOf.{transfer_row, walk_row, net_of};
ghost use Rattle.repository.specs.Rows.{calls, transfers, walks, row_count, OfStop, Stands};
ghost use Rattle.discovery.specs.Trips.{Along, not_before, first_not_before, trip_place};

use shared::{Duration, Time};

// When a trip arrives at its position p.
pub fn get_arrival_time(tables: &[u32], v: u32, p: u32) -> Time
    requires readable { Readable tables.now }
    requires stands { Stands tables.now v p }
    ensures { result.0 ≡ (net_of tables.now).arrival v p }
{
    let row = repository::times::time_row(tables, v);
    repository::times::arrival_in(tables, row, p)
}

// When it departs from there.
pub fn get_departure_time(tables: &[u32], v: u32, p: u32) -> Time
    requires readable { Readable tables.now }
    requires stands { Stands tables.now v p }
    ensures { result.0 ≡ (net_of tables.now).departure v p }
{
    let row = repository::times::time_row(tables, v);
    repository::times::departure_in(tables, row, p)
}

// Whether the trip at place i of a route arrives at position p not before x. (That x is wider than a label lets it be the second after
// any.)
fn is_not_before(tables: &[u32], r: u32, p: u32, x: usize, i: u32) -> bool
    requires along { Along tables.now r p }
    requires i_bound { i < (net_of tables.now).trips r }
    ensures { result ≡ not_before (net_of tables.now) r p x i }
{
    let v = repository::routes::trip_at(tables, r, i);
    let a = get_arrival_time(tables, v, p);
    x <= a.0 as usize
}

// The place of the first trip of a route that arrives at position p not before x: it is not before `from`, nor after `to`. By halving twice
// in a step: the three times are read side by side, where halving once would wait for each before it asks for the next.
fn first_between(tables: &[u32], r: u32, p: u32, x: usize, from: u32, to: u32) -> u32
    requires along { Along tables.now r p }
    requires bracket { Bracket (not_before (net_of tables.now) r p x) ((net_of tables.now).trips r) from to }
    ensures { result ≡ first_not_before (net_of tables.now) r p x }
{
    let mut lo = from;
    let mut hi = to;
    // Stays a while: it goes on by quarters of a bracket, which no iterator does.
    while lo < hi {
        let mid = lo + (hi - lo) / 2;
        let low = lo + (mid - lo) / 2;
        let high = mid + (hi - mid) / 2;
        let a = is_not_before(tables, r, p, x, low);
        let b = is_not_before(tables, r, p, x, mid);
        let c = is_not_before(tables, r, p, x, high);
        if b {
            if a {
                hi = low;
            } else {
                lo = low + 1;
                hi = mid;
            }
        } else if c {
            lo = mid + 1;
            hi = high;
        } else {
            lo = high + 1;
        }
    }
    lo
}

// That place, which is not after `to`: it is looked for there and just before, then by halving.
fn first_down(tables: &[u32], r: u32, p: u32, x: usize, to: u32) -> u32
    requires along { Along tables.now r p }
    requires bracket { Bracket (not_before (net_of tables.now) r p x) ((net_of tables.now).trips r) 0 to }
    ensures { result ≡ first_not_before (net_of tables.now) r p x }
{
    let mut hi = to;
    for _ in 0..2u32 {
        if hi == 0 {
            return 0;
        }
        let before = hi - 1;
        if !is_not_before(tables, r, p, x, before) {
            return hi;
        }
        hi = before;
    }
    first_between(tables, r, p, x, 0, hi)
}

// That place, which is not before `from`, nor after `to`: it is looked for there and just after, then by halving.
fn first_up(tables: &[u32], r: u32, p: u32, x: usize, from: u32, to: u32) -> u32
    requires along { Along tables.now r p }
    requires bracket { Bracket (not_before (net_of tables.now) r p x) ((net_of tables.now).trips r) from to }
    ensures { result ≡ first_not_before (net_of tables.now) r p x }
{
    let mut lo = from;
    for _ in 0..2u32 {
        if lo == to {
            return to;
        }
        if is_not_before(tables, r, p, x, lo) {
            return lo;
        }
        lo += 1;
    }
    first_between(tables, r, p, x, lo, to)
}

// That place, looked for around `near` first, which may be any number; the route has n trips. Along a route it is nearly always that of the
// trip aboard or one beside it; only elsewhere the halving is paid for, in which each step waits for the one before.
fn first_near(tables: &[u32], r: u32, p: u32, x: usize, near: usize, n: u32) -> u32
    requires along { Along tables.now r p }
    requires n_value { n ≡ (net_of tables.now).trips r }
    ensures { result ≡ first_not_before (net_of tables.now) r p x }
{
    if near >= n as usize {
        return first_between(tables, r, p, x, 0, n);
    }
    let i = near as u32;
    if is_not_before(tables, r, p, x, i) {
        first_down(tables, r, p, x, i)
    } else {
        first_up(tables, r, p, x, i + 1, n)
    }
}

// The first trip of a route that arrives at position p not before the label, by its place in the route's order. The label
// is a moment: an absent one is passed over before any lookup. The trip at place `near` is looked at first.
pub fn find_earliest_trip(tables: &[u32], r: u32, p: u32, label: Time, near: u32) -> Option<u32>
    requires searchable { Searchable tables.now }
    requires r_bound { r < (net_of tables.now).routes }
    requires p_bound { p < (net_of tables.now).positions r }
    requires label_nonzero { 0 < label.0 }
    ensures { result ≡ trip_place Departure (net_of tables.now) r p label.0 }
{
    let n = repository::routes::trips_of_route(tables, r);
    let i = first_near(tables, r, p, label.0 as usize, near as usize, n);
    if i < n { Some(i) } else { None }
}

// The last trip of a route that arrives at position p not after the label, which is a moment: it stands before the first that arrives a
// second later or more. The trip at place `near` is looked at first.
pub fn find_latest_trip(tables: &[u32], r: u32, p: u32, label: Time, near: u32) -> Option<u32>
    requires searchable { Searchable tables.now }
    requires r_bound { r < (net_of tables.now).routes }
    requires p_bound { p < (net_of tables.now).positions r }
    requires label_nonzero { 0 < label.0 }
    ensures { result ≡ trip_place Arrival (net_of tables.now) r p label.0 }
{
    let n = repository::routes::trips_of_route(tables, r);
    let i = first_near(tables, r, p, label.0 as usize + 1, near as usize + 1, n);
    i.checked_sub(1)
}

// The first position, in the route of row j, of the stop whose row it is. The tables hold it, so that no search walks
// along the route.
pub fn index_in_route(tables: &[u32], j: u32) -> u32
    requires searchable { Searchable tables.now }
    requires j_bound { j < row_count calls tables.now }
    ensures value { result ≡ call_first tables.now j }
    ensures by_index { (s : ℕ) → OfStop calls tables.now s j
        → result ≡ first_position (net_of tables.now) (call_route tables.now j) s
        (upto ((net_of tables.now).positions (call_route tables.now j)) 0) }
{
    repository::calls::call_first(tables, j)
}

// The span of transfer j: the stated one, or the walking span of its metres.
pub fn transfer_duration(tables: &[u32], j: u32) -> Duration
    requires searchable { Searchable tables.now }
    requires j_bound { j < row_count transfers tables.now }
    ensures { result.0 ≡ (transfer_row tables.now j).span }
{
    let stated = repository::footpaths::transfer_stated(tables, j);
    if stated.0 != repository::MAX {
        return stated;
    }
    shared::time_to_walk(repository::footpaths::transfer_metres(tables, j))
}

// The span of walk j.
pub fn walk_duration(tables: &[u32], j: u32) -> Duration
    requires searchable { Searchable tables.now }
    requires j_bound { j < row_count walks tables.now }
    ensures { result.0 ≡ (walk_row tables.now j).span }
{
    shared::time_to_walk(repository::footpaths::walk_metres(tables, j))
}
