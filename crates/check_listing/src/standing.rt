// The rule for where a trip stands: its row names its route, and its place there.
ghost use Rattle.std.specs.Prelude.{◌≡◌, ◌<◌};
ghost use Rattle.repository.specs.Sections.{trips};
ghost use Rattle.repository.specs.Laid.{Laid};
ghost use Rattle.repository.specs.Listed.{standing, standings};

use repository::sections;
use repository::words::{entries_of, item, rows_under};

#[tactic(auto, unfolding(repository::specs::Listed::standing))]
fn standing_ok(tables: &[u32], v: u32) -> bool
    requires laid { Laid tables.now }
    requires v_bound { v < trips tables.now }
    ensures { result ≡ standing tables.now v }
{
    let at = v as usize * sections::STANDING_WORDS;
    let r = item(tables, sections::STANDING, at);
    if r >= entries_of(tables, sections::ROUTE_STOP_STARTS) {
        return false;
    }
    let j = item(tables, sections::STANDING, at + sections::STANDING_PLACE);
    let places = rows_under(tables, sections::ROUTE_TRIP_STARTS, r);
    places.contains(&j) && item(tables, sections::ROUTE_TRIPS, j as usize) == v
}

// Whether each trip stands where its row says.
pub fn standings_ok(tables: &[u32]) -> bool
    requires { Laid tables.now }
    ensures { result ≡ standings tables.now }
{
    let n = entries_of(tables, sections::TIME_STARTS);
    (0..n).all(|v| standing_ok(tables, v))
}
