// The rule for served marks.
ghost use Rattle.std.specs.Prelude.{◌≡◌, true, ◌<◌};
ghost use Rattle.repository.specs.Sections.{stops, routes, rows, CALLS, CALL_WORDS, call_route};
ghost use Rattle.repository.specs.Laid.{Laid};
ghost use Rattle.repository.specs.Listed.{calls_hold, running, passes, served_mark, served};

use repository::sections;
use repository::words::{item, row_count, rows_under, size_of};

// Whether the route of row j of the calls has a trip.
#[tactic(auto, unfolding(repository::specs::Listed::running))]
fn running_ok(tables: &[u32], j: u32) -> bool
    requires laid { Laid tables.now }
    requires j_bound { j < rows tables.now CALLS CALL_WORDS }
    requires route_bound { call_route tables.now j < routes tables.now }
    ensures { result ≡ running tables.now j }
{
    let r = item(tables, sections::CALLS, j as usize * sections::CALL_WORDS);
    row_count(tables, sections::ROUTE_TRIP_STARTS, r) > 0
}

// Whether a trip passes stop s.
fn passed(tables: &[u32], s: u32) -> bool
    requires laid { Laid tables.now }
    requires tables_value { calls_hold tables.now ≡ true }
    requires s_bound { s < stops tables.now }
    ensures { result ≡ passes tables.now s }
{
    rows_under(tables, sections::CALL_STARTS, s).any(|j| running_ok(tables, j))
}

#[tactic(auto, unfolding(repository::specs::Listed::served_mark))]
fn served_mark_ok(tables: &[u32], s: u32) -> bool
    requires laid { Laid tables.now }
    requires tables_value { calls_hold tables.now ≡ true }
    requires s_bound { s < stops tables.now }
    ensures { result ≡ served_mark tables.now s }
{
    item(tables, sections::SERVED, s as usize) == u32::from(passed(tables, s))
}

// Whether each stop's served mark is set exactly when a trip passes it.
pub fn served_ok(tables: &[u32]) -> bool
    requires laid { Laid tables.now }
    requires tables_value { calls_hold tables.now ≡ true }
    ensures { result ≡ served tables.now }
{
    let n = size_of(tables, sections::STOP_LIST);
    (0..n).all(|s| served_mark_ok(tables, s))
}
