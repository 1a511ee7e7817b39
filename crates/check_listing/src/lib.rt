// Number 2 of the table check: whether every index is in range and every list keeps the listing rules.
#![tactic(auto)]

ghost use Rattle.std.specs.Prelude.{◌≡◌};
ghost use Rattle.repository.specs.Laid.{Laid};
ghost use Rattle.repository.specs.Listed.{framed, well_listed};

mod areas;
mod children;
mod once;
mod paths;
mod range;
mod routes;
mod standing;
mod stops;

// Whether stops, stations and routes keep their rules.
#[tactic(auto, unfolding(repository::specs::Listed::framed))]
fn framed_ok(tables: &[u32]) -> bool
    requires { Laid tables.now }
    ensures { result ≡ framed tables.now }
{
    stops::stop_list_ok(tables)
        && stops::stations_ok(tables)
        && children::children_ok(tables)
        && routes::route_stops_ok(tables)
        && routes::route_trips_ok(tables)
        && routes::trip_times_ok(tables)
        && standing::standings_ok(tables)
}

// Whether laid tables have no number 2.
#[tactic(auto, unfolding(repository::specs::Listed::well_listed))]
pub fn listing_ok(tables: &[u32]) -> bool
    requires { Laid tables.now }
    ensures { result ≡ well_listed tables.now }
{
    framed_ok(tables)
        && check_calls::calls::stop_routes_ok(tables)
        && check_calls::served::served_ok(tables)
        && paths::transfers_ok(tables)
        && paths::walks_ok(tables)
        && areas::areas_ok(tables)
}
