// The rules for areas.
ghost use Rattle.std.specs.Prelude.{◌≡◌, true, ◌<◌};
ghost use Rattle.repository.specs.Sections.{stops, areas, AREA_STOPS};
ghost use Rattle.repository.specs.Laid.{Laid};
ghost use Rattle.repository.specs.Listed.{in_range, area_once, areas_once, areas_listed};

use crate::once::marked_once;
use crate::range::in_range;
use repository::sections;
use repository::words::{entries_of, rows_under, size_of};

// Whether area a names no stop twice.
#[tactic(auto, unfolding(repository::specs::Listed::area_once))]
fn area_once_ok(tables: &[u32], a: u32) -> bool
    requires laid { Laid tables.now }
    requires tables_value { in_range tables.now AREA_STOPS (stops tables.now) ≡ true }
    requires a_bound { a < areas tables.now }
    ensures { result ≡ area_once tables.now a }
{
    let places = rows_under(tables, sections::AREA_STARTS, a);
    let mut marks = [0u64; 64];
    marked_once(tables, sections::AREA_STOPS, places, &mut marks)
}

fn areas_once_ok(tables: &[u32]) -> bool
    requires laid { Laid tables.now }
    requires tables_value { in_range tables.now AREA_STOPS (stops tables.now) ≡ true }
    ensures { result ≡ areas_once tables.now }
{
    let n = entries_of(tables, sections::AREA_STARTS);
    (0..n).all(|a| area_once_ok(tables, a))
}

// Whether areas name stops, and each area no stop twice.
#[tactic(auto, unfolding(repository::specs::Listed::areas_listed))]
pub fn areas_ok(tables: &[u32]) -> bool
    requires { Laid tables.now }
    ensures { result ≡ areas_listed tables.now }
{
    let n = size_of(tables, sections::STOP_LIST);
    in_range(tables, sections::AREA_STOPS, n) && areas_once_ok(tables)
}
