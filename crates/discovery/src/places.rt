// The stops of a place (`stops_by_location`). A stop's are a part of the tables; an area's are written where the caller
// wants them.
ghost use Rattle.std.specs.Prelude.{◌≡◌, [], ◌∷◌, ◌+◌, ◌≤◌, ◌<◌, length, replicate};
ghost use Rattle.model.specs.declared.Location.TheVariants.{Stop, Area};
ghost use Rattle.model.specs.Places.{or_itself, served_of, stops_of_area, place_stops};
ghost use Rattle.model.specs.Left.{placed};
ghost use Rattle.repository.specs.Laid.{Laid};
ghost use Rattle.repository.specs.Accepted.{Accepted};
ghost use Rattle.repository.specs.NetOf.{net_of};
ghost use Rattle.base.specs.Below.{Below};
ghost use Rattle.discovery.specs.Served.{puts};

// A stop's own children; the stop itself where it has none.
fn own_or_itself(tables: &[u32], s: u32) -> &[u32]
    requires accepted { Accepted tables.now }
    requires s_bound { s < (net_of tables.now).stops }
    ensures { result.now ≡ or_itself s ((net_of tables.now).children s) }
{
    let own = repository::places::children(tables, s);
    if own.len() == 0 {
        return repository::places::stop_entry(tables, s);
    }
    own
}

// The stops of a stop: its station's children, its own, or itself.
pub fn stops_of_stop(tables: &[u32], s: u32) -> &[u32]
    requires accepted { Accepted tables.now }
    requires s_bound { s < (net_of tables.now).stops }
    ensures { result.now ≡ place_stops (net_of tables.now) (Stop s) }
{
    match repository::places::station_of(tables, s) {
        Some(p) => repository::places::children(tables, p),
        None => own_or_itself(tables, s),
    }
}

// How many of the stops are served.
fn count_served(tables: &[u32], stops: &[u32]) -> usize
    requires laid { Laid tables.now }
    requires below { Below (net_of tables.now).stops stops.now }
    ensures { result ≡ length (served_of (net_of tables.now) stops.now) }
{
    let mut k: usize = 0;
    for &s in stops {
        k += usize::from(repository::places::served(tables, s));
    }
    k
}

// How many stops an area has: the served children of those it names.
pub fn area_size(tables: &[u32], a: u32) -> usize
    requires accepted { Accepted tables.now }
    requires a_bound { a < (net_of tables.now).areas }
    ensures { result ≡ length (stops_of_area (net_of tables.now) a) }
{
    let named = repository::places::stops_named(tables, a);
    let mut k: usize = 0;
    for &s in named {
        let children = repository::places::children(tables, s);
        k += count_served(tables, children);
    }
    k
}

// Writes a served stop at place k, and says which place is next.
fn put_if_served(tables: &[u32], s: u32, places: &mut [u32], k: usize) -> usize
    requires laid { Laid tables.now }
    requires s_bound { s < (net_of tables.now).stops }
    requires s_in_bounds { k + length (served_of (net_of tables.now) (s ∷ [])) ≤ length places.old }
    ensures places_after { places.new ≡ puts places.old k (served_of (net_of tables.now) (s ∷ [])) }
    ensures value { result ≡ k + length (served_of (net_of tables.now) (s ∷ [])) }
{
    if repository::places::served(tables, s) {
        places[k] = s;
        return k + 1;
    }
    k
}

// Writes the served of the stops from place k on.
fn put_served(tables: &[u32], stops: &[u32], places: &mut [u32], k: usize) -> usize
    requires laid { Laid tables.now }
    requires below { Below (net_of tables.now).stops stops.now }
    requires stops_in_bounds { k + length (served_of (net_of tables.now) stops.now) ≤ length places.old }
    ensures places_after { places.new ≡ puts places.old k (served_of (net_of tables.now) stops.now) }
    ensures value { result ≡ k + length (served_of (net_of tables.now) stops.now) }
{
    let mut m = k;
    for &s in stops {
        m = put_if_served(tables, s, places, m);
    }
    m
}

// Fills the places with 0.
pub fn clear(places: &mut [u32])
    ensures { places.new ≡ replicate (length places.old) 0 }
{
    places.fill(0);
}

// Writes the stops of an area, 0 behind them, and says how many they are. There are never more than there are stops.
pub fn area_stops(tables: &[u32], a: u32, places: &mut [u32]) -> usize
    requires accepted { Accepted tables.now }
    requires a_bound { a < (net_of tables.now).areas }
    requires places_len { length places.old ≡ (net_of tables.now).stops }
    ensures places_after { places.new ≡ placed (net_of tables.now) (Area a) }
    ensures value { result ≡ length (stops_of_area (net_of tables.now) a) }
{
    clear(places);
    let named = repository::places::stops_named(tables, a);
    let mut k: usize = 0;
    for &s in named {
        let children = repository::places::children(tables, s);
        k = put_served(tables, children, places, k);
    }
    k
}
