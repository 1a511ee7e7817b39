// Number 1 of the table check: whether the tables are laid, so that every index that a reader computes is in range.
// Nothing is known of the words at first: the header is tested before a section is read, and the sizes before a
// starts section is.
#![tactic(auto)]

ghost use Rattle.std.specs.Prelude.{◌≡◌, ◌+◌, ◌-◌, ◌/◌, ◌≤◌, ◌<◌, length};
ghost use Rattle.base.specs.All.{all};
ghost use Rattle.repository.specs.Sections.{size, ROUTE_STOP_STARTS, SECTIONS};
ghost use Rattle.repository.specs.NetOf.{count};
ghost use Rattle.repository.specs.Laid.{headed, well_sized, limited, starts_section, well_started, positioned, laid};
ghost use Rattle.check_shape.specs.Shape.{Headed, Roomy, no_fall, route_fits, stop_sized};

use repository::{limits, sections, words};

// How many words section k has.
fn size_of(tables: &[u32], k: usize) -> usize
    requires headed { Headed tables.now }
    requires k_bound { k < SECTIONS }
    ensures value { result ≡ size tables.now k }
    ensures upper_bound { result ≤ length tables.now }
{
    (words::head(tables, k + 1) - words::head(tables, k)) as usize
}

// How many entries the starts section k has: its last word only ends the list.
fn entries(tables: &[u32], k: usize) -> usize
    requires headed { Headed tables.now }
    requires k_bound { k < SECTIONS }
    ensures value { result ≡ size tables.now k - 1 }
    ensures upper_bound { result ≤ length tables.now }
{
    size_of(tables, k).saturating_sub(1)
}

// Whether the n + 1 words from o on never fall.
fn never_falls(tables: &[u32], o: usize, n: usize) -> bool
    requires { o + n < length tables.now }
    ensures { result ≡ all (no_fall tables.now o) 0 n }
{
    (0..n).all(|i| tables[o + i] <= tables[o + (i + 1)])
}

// Whether the header is one.
#[tactic(auto, unfolding(repository::specs::Laid::headed, crate::specs::Shape::no_fall, base::specs::All::all, base::specs::All::every))]
fn header_ok(tables: &[u32]) -> bool
    ensures { result ≡ headed tables.now }
{
    if tables.len() < sections::HEADER {
        return false;
    }
    let first = words::head(tables, sections::STOP_LIST) as usize;
    let last = words::head(tables, sections::SECTIONS) as usize;
    first == sections::HEADER && last == tables.len() && never_falls(tables, 0, sections::SECTIONS)
}

// Whether each section that has a word or an entry for each stop has as many.
#[tactic(auto, unfolding(crate::specs::Shape::stop_sized))]
fn stop_sizes_ok(tables: &[u32]) -> bool
    requires { Headed tables.now }
    ensures { result ≡ stop_sized tables.now }
{
    let s = size_of(tables, sections::STOP_LIST);
    size_of(tables, sections::STATIONS) == s
        && size_of(tables, sections::CHILD_STARTS) == s + 1
        && size_of(tables, sections::CALL_STARTS) == s + 1
        && size_of(tables, sections::SERVED) == s
        && size_of(tables, sections::TRANSFER_STARTS) == s + 1
        && size_of(tables, sections::WALK_STARTS) == s + 1
}

// Whether each section has the words that the counts of stops, routes and trips ask for, and whole rows.
#[tactic(auto, unfolding(repository::specs::Laid::well_sized, crate::specs::Shape::stop_sized))]
fn sizes_ok(tables: &[u32]) -> bool
    requires { Headed tables.now }
    ensures { result ≡ well_sized tables.now }
{
    let r = size_of(tables, sections::ROUTE_STOP_STARTS);
    let t = entries(tables, sections::TIME_STARTS);
    stop_sizes_ok(tables)
        && 1 <= r
        && size_of(tables, sections::ROUTE_TRIP_STARTS) == r
        && 1 <= size_of(tables, sections::TIME_STARTS)
        && size_of(tables, sections::ROUTE_TRIPS) == t
        && 1 <= size_of(tables, sections::AREA_STARTS)
        && size_of(tables, sections::CALLS) % sections::CALL_WORDS == 0
        && size_of(tables, sections::TRANSFERS) % sections::TRANSFER_WORDS == 0
        && size_of(tables, sections::WALKS) % sections::WALK_WORDS == 0
        && size_of(tables, sections::TIMES) % sections::TIME_WORDS == 0
        && size_of(tables, sections::STANDING) == t * sections::STANDING_WORDS
}

// Whether no count is over its limit.
#[tactic(auto, unfolding(repository::specs::Laid::limited))]
fn limits_ok(tables: &[u32]) -> bool
    requires { Headed tables.now }
    ensures { result ≡ limited tables.now }
{
    size_of(tables, sections::STOP_LIST) <= limits::MOST_STOPS
        && entries(tables, sections::ROUTE_STOP_STARTS) <= limits::MOST_ROUTES
        && entries(tables, sections::TIME_STARTS) <= limits::MOST_TRIPS
        && size_of(tables, sections::TIMES) / sections::TIME_WORDS <= limits::MOST_STOP_TIMES
        && size_of(tables, sections::TRANSFERS) / sections::TRANSFER_WORDS <= limits::MOST_TRANSFERS
        && size_of(tables, sections::WALKS) / sections::WALK_WORDS <= limits::MOST_WALKS
        && entries(tables, sections::AREA_STARTS) <= limits::MOST_AREAS
        && size_of(tables, sections::AREA_STOPS) <= limits::MOST_AREA_ENTRIES
}

// Whether section k is a starts section of n entries, for the list behind it, whose rows have `wide` words.
#[tactic(auto, unfolding(repository::specs::Laid::starts_section, repository::specs::Sections::sec, crate::specs::Shape::no_fall))]
fn starts_ok(tables: &[u32], k: usize, n: usize, wide: usize) -> bool
    requires headed { Headed tables.now }
    requires k_bound { k + 1 < SECTIONS }
    requires n_bound { n < size tables.now k }
    requires wide_nonzero { 0 < wide }
    ensures { result ≡ starts_section tables.now k n (size tables.now (k + 1) / wide) }
{
    let first = words::word(tables, k, 0);
    let last = words::word(tables, k, n) as usize;
    let rows = size_of(tables, k + 1) / wide;
    let o = words::head(tables, k) as usize;
    first == 0 && last == rows && never_falls(tables, o, n)
}

// Whether every starts section is one.
#[tactic(auto, unfolding(repository::specs::Laid::well_started))]
fn all_starts_ok(tables: &[u32]) -> bool
    requires headed { Headed tables.now }
    requires roomy { Roomy tables.now }
    ensures { result ≡ well_started tables.now }
{
    let s = size_of(tables, sections::STOP_LIST);
    let r = entries(tables, sections::ROUTE_STOP_STARTS);
    let t = entries(tables, sections::TIME_STARTS);
    let a = entries(tables, sections::AREA_STARTS);
    starts_ok(tables, sections::CHILD_STARTS, s, 1)
        && starts_ok(tables, sections::CALL_STARTS, s, sections::CALL_WORDS)
        && starts_ok(
            tables,
            sections::TRANSFER_STARTS,
            s,
            sections::TRANSFER_WORDS,
        )
        && starts_ok(tables, sections::WALK_STARTS, s, sections::WALK_WORDS)
        && starts_ok(tables, sections::ROUTE_STOP_STARTS, r, 1)
        && starts_ok(tables, sections::ROUTE_TRIP_STARTS, r, 1)
        && starts_ok(tables, sections::TIME_STARTS, t, sections::TIME_WORDS)
        && starts_ok(tables, sections::AREA_STARTS, a, 1)
}

// How many rows entry i of the starts section k has.
#[tactic(auto, unfolding(repository::specs::NetOf::count))]
fn count_of(tables: &[u32], k: usize, i: usize) -> usize
    requires headed { Headed tables.now }
    requires k_bound { k < SECTIONS }
    requires i_bound { i + 1 < size tables.now k }
    ensures { result ≡ count tables.now k i }
{
    let from = words::word(tables, k, i) as usize;
    let to = words::word(tables, k, i + 1) as usize;
    to.saturating_sub(from)
}

// Whether route r has a stop, and not too many positions.
#[tactic(auto, unfolding(crate::specs::Shape::route_fits))]
fn route_ok(tables: &[u32], r: usize) -> bool
    requires headed { Headed tables.now }
    requires r_bound { r + 1 < size tables.now ROUTE_STOP_STARTS }
    ensures { result ≡ route_fits tables.now r }
{
    let n = count_of(tables, sections::ROUTE_STOP_STARTS, r);
    1 <= n && n <= limits::MOST_POSITIONS
}

// Whether every route has a stop, and none too many positions.
fn positions_ok(tables: &[u32]) -> bool
    requires { Headed tables.now }
    ensures { result ≡ positioned tables.now }
{
    let routes = entries(tables, sections::ROUTE_STOP_STARTS);
    (0..routes).all(|r| route_ok(tables, r))
}

// Whether the tables are laid: no number 1.
#[tactic(auto, unfolding(repository::specs::Laid::laid))]
pub fn shape_ok(tables: &[u32]) -> bool
    ensures { result ≡ laid tables.now }
{
    if !header_ok(tables) {
        return false;
    }
    sizes_ok(tables) && limits_ok(tables) && all_starts_ok(tables) && positions_ok(tables)
}
