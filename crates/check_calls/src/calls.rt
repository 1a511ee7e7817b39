// The rules for a stop's route list: the calls.
ghost use Rattle.std.specs.Prelude.{◌≡◌, true, ◌+◌, ◌-◌, ◌≤◌, ◌<◌};
ghost use Rattle.base.specs.Halving.{Rising, Bracket};
ghost use Rattle.repository.specs.Sections.{stops, routes, rows, CALL_STARTS, CALLS, ROUTE_STOP_STARTS, CALL_WORDS};
ghost use Rattle.repository.specs.NetOf.{count};
ghost use Rattle.repository.specs.Laid.{Laid};
ghost use Rattle.repository.specs.Listed.{under, route_stops, call, later, ascending, calls, called, called_along};
ghost use Rattle.repository.specs.Listed.{calls_hold, calls_rise, calls_all, stop_routes};
ghost use Rattle.check_calls.specs.Reached.{reached};

use repository::sections;
use repository::words::{entries_of, item, row_count, rows_under, size_of, stop_on};

#[tactic(auto, unfolding(repository::specs::Listed::call))]
fn call_ok(tables: &[u32], s: u32, j: u32) -> bool
    requires laid { Laid tables.now }
    requires j_bound { j < rows tables.now CALLS CALL_WORDS }
    ensures { result ≡ call tables.now s j }
{
    let at = j as usize * sections::CALL_WORDS;
    let r = item(tables, sections::CALLS, at);
    if r >= entries_of(tables, sections::ROUTE_STOP_STARTS) {
        return false;
    }
    let n = row_count(tables, sections::ROUTE_STOP_STARTS, r);
    let first = item(tables, sections::CALLS, at + sections::CALL_FIRST);
    let last = item(tables, sections::CALLS, at + sections::CALL_LAST);
    first < n && last < n && stop_on(tables, r, first) == s && stop_on(tables, r, last) == s
}

// Whether each call of stop s names a route in which the stop stands at the first and the last position that it names.
fn calls_of_ok(tables: &[u32], s: u32) -> bool
    requires laid { Laid tables.now }
    requires s_bound { s < stops tables.now }
    ensures { result ≡ under tables.now CALL_STARTS (call tables.now) s }
{
    rows_under(tables, sections::CALL_STARTS, s).all(|j| call_ok(tables, s, j))
}

// Whether each call names a route in which the stop stands at the first and the last position that it names.
fn calls_hold_ok(tables: &[u32]) -> bool
    requires { Laid tables.now }
    ensures { result ≡ calls_hold tables.now }
{
    let n = size_of(tables, sections::STOP_LIST);
    (0..n).all(|s| calls_of_ok(tables, s))
}

#[tactic(auto, unfolding(repository::specs::Listed::later))]
fn later_ok(tables: &[u32], j: u32) -> bool
    requires laid { Laid tables.now }
    requires le_j { 1 ≤ j }
    requires j_bound { j < rows tables.now CALLS CALL_WORDS }
    ensures { result ≡ later tables.now j }
{
    let at = (j - 1) as usize * sections::CALL_WORDS;
    let before = item(tables, sections::CALLS, at);
    before < item(tables, sections::CALLS, j as usize * sections::CALL_WORDS)
}

// Whether the routes that stop s calls at ascend.
fn ascending_ok(tables: &[u32], s: u32) -> bool
    requires laid { Laid tables.now }
    requires s_bound { s < stops tables.now }
    ensures { result ≡ ascending tables.now s }
{
    let rows = rows_under(tables, sections::CALL_STARTS, s);
    rows.is_empty() || (rows.start + 1..rows.end).all(|j| later_ok(tables, j))
}

fn calls_rise_ok(tables: &[u32]) -> bool
    requires { Laid tables.now }
    ensures { result ≡ calls_rise tables.now }
{
    let n = size_of(tables, sections::STOP_LIST);
    (0..n).all(|s| ascending_ok(tables, s))
}

// How many of the n rows from a on name a route before r. They ascend, so halves are tried.
fn rows_before(tables: &[u32], a: u32, n: u32, r: u32) -> u32
    requires laid { Laid tables.now }
    requires n_bound { a + n ≤ rows tables.now CALLS CALL_WORDS }
    requires rising { Rising (reached tables.now a r) n }
    ensures { Bracket (reached tables.now a r) n result result }
{
    let mut lo: u32 = 0;
    let mut hi = n;
    while lo < hi {
        let mid = lo + (hi - lo) / 2;
        let q = item(
            tables,
            sections::CALLS,
            (a as usize + mid as usize) * sections::CALL_WORDS,
        );
        if q < r {
            lo = mid + 1;
        } else {
            hi = mid;
        }
    }
    lo
}

// Whether the i-th row from a on names route r, with p from the first position to the last.
#[tactic(auto, unfolding(repository::specs::Listed::calls))]
fn row_calls(tables: &[u32], r: u32, p: u32, a: u32, i: u32) -> bool
    requires laid { Laid tables.now }
    requires i_bound { a + i < rows tables.now CALLS CALL_WORDS }
    ensures { result ≡ calls tables.now r p (a + i) }
{
    let at = (a as usize + i as usize) * sections::CALL_WORDS;
    item(tables, sections::CALLS, at) == r
        && item(tables, sections::CALLS, at + sections::CALL_FIRST) <= p
        && p <= item(tables, sections::CALLS, at + sections::CALL_LAST)
}

// Whether the stop at position p of route r has a call for it.
fn called_ok(tables: &[u32], r: u32, p: u32) -> bool
    requires laid { Laid tables.now }
    requires tables_value { route_stops tables.now ≡ true }
    requires tables_value_2 { calls_rise tables.now ≡ true }
    requires r_bound { r < routes tables.now }
    requires p_bound { p < count tables.now ROUTE_STOP_STARTS r }
    ensures { result ≡ called tables.now r p }
{
    let s = stop_on(tables, r, p);
    let from = item(tables, sections::CALL_STARTS, s as usize);
    let n = row_count(tables, sections::CALL_STARTS, s);
    let i = rows_before(tables, from, n, r);
    i < n && row_calls(tables, r, p, from, i)
}

// Whether every position of route r is called.
fn called_along_ok(tables: &[u32], r: u32) -> bool
    requires laid { Laid tables.now }
    requires tables_value { route_stops tables.now ≡ true }
    requires tables_value_2 { calls_rise tables.now ≡ true }
    requires r_bound { r < routes tables.now }
    ensures { result ≡ called_along tables.now r }
{
    let n = row_count(tables, sections::ROUTE_STOP_STARTS, r);
    (0..n).all(|p| called_ok(tables, r, p))
}

// Whether every position of every route is called.
fn calls_all_ok(tables: &[u32]) -> bool
    requires laid { Laid tables.now }
    requires tables_value { route_stops tables.now ≡ true }
    requires tables_value_2 { calls_rise tables.now ≡ true }
    ensures { result ≡ calls_all tables.now }
{
    let n = entries_of(tables, sections::ROUTE_STOP_STARTS);
    (0..n).all(|r| called_along_ok(tables, r))
}

// Whether a stop's route list names exactly the routes that contain it, once each, ascending.
#[tactic(auto, unfolding(repository::specs::Listed::stop_routes))]
pub fn stop_routes_ok(tables: &[u32]) -> bool
    requires laid { Laid tables.now }
    requires tables_value { route_stops tables.now ≡ true }
    ensures { result ≡ stop_routes tables.now }
{
    calls_hold_ok(tables) && calls_rise_ok(tables) && calls_all_ok(tables)
}
