// Whether a stop is one of the stops of a place. No list is written: an area's stops are looked through where they stand.
ghost use Rattle.std.specs.Prelude.{◌≡◌, true, ◌<◌};
ghost use Rattle.model.specs.Places.{exists, stops_of_area, place_stops};
ghost use Rattle.repository.specs.Accepted.{Accepted};
ghost use Rattle.repository.specs.NetOf.{net_of};
ghost use Rattle.handheld.specs.Verdict.{is_listed};
ghost use Rattle.judge_paths.specs.Areas.{child_of};

use model::Location;

// Whether s is one of the stops.
fn is_listed(stops: &[u32], s: u32) -> bool
    ensures { result ≡ is_listed s stops.now }
{
    stops.contains(&s)
}

// Whether s is a child of a stop that the area names.
fn is_child(tables: &[u32], a: u32, s: u32) -> bool
    requires accepted { Accepted tables.now }
    requires a_bound { a < (net_of tables.now).areas }
    ensures { result ≡ child_of (net_of tables.now) s ((net_of tables.now).area_stops a) }
{
    for p in repository::places::stops_named(tables, a) {
        if is_listed(repository::places::children(tables, *p), s) {
            return true;
        }
    }
    false
}

// Whether s is one of an area's stops: a served child of a stop that it names.
#[tactic(auto, using(crate::proofs::Listed::area_served, crate::proofs::Listed::area_unserved, crate::proofs::Listed::area_beyond))]
fn in_area(tables: &[u32], a: u32, s: u32) -> bool
    requires accepted { Accepted tables.now }
    requires a_bound { a < (net_of tables.now).areas }
    ensures { result ≡ is_listed s (stops_of_area (net_of tables.now) a) }
{
    s < repository::places::stop_count(tables)
        && repository::places::served(tables, s)
        && is_child(tables, a, s)
}

// Whether s is one of a place's stops.
pub fn in_place(tables: &[u32], l: Location, s: u32) -> bool
    requires accepted { Accepted tables.now }
    requires l_value { exists (net_of tables.now) l ≡ true }
    ensures { result ≡ is_listed s (place_stops (net_of tables.now) l) }
{
    match l {
        Location::Stop(t) => is_listed(discovery::places::stops_of_stop(tables, t), s),
        Location::Area(a) => in_area(tables, a, s),
    }
}
