// Whether a footpath leg fits one of the footpaths that are listed under the stop that it leaves. `walk` says which list: the walks, or the
// transfers.
ghost use Rattle.std.specs.Prelude.{◌≡◌, ◌<◌, ◌≤◌};
ghost use Rattle.repository.specs.Laid.{Laid};
ghost use Rattle.repository.specs.Accepted.{Accepted};
ghost use Rattle.repository.specs.Readable.{Searchable};
ghost use Rattle.repository.specs.NetOf.{net_of};
ghost use Rattle.repository.specs.Rows.{first_row, past_row, row_count};
ghost use Rattle.handheld.specs.Any.{any};
ghost use Rattle.handheld.specs.Fitting.{fits_foot, fits_path};
ghost use Rattle.judge_paths.specs.Paths.{listing_of, path_row, paths_of};

use model::Leg;
use shared::Duration;

// The first row of a stop's list.
#[tactic(auto, unfolding(crate::specs::Paths::listing_of))]
fn first_row(tables: &[u32], walk: bool, s: u32) -> u32
    requires laid { Laid tables.now }
    requires s_bound { s < (net_of tables.now).stops }
    ensures { result ≡ first_row (listing_of walk) tables.now s }
{
    if walk {
        repository::footpaths::walks_from(tables, s)
    } else {
        repository::footpaths::transfers_from(tables, s)
    }
}

// The row past its last.
#[tactic(auto, unfolding(crate::specs::Paths::listing_of))]
fn past_row(tables: &[u32], walk: bool, s: u32) -> u32
    requires laid { Laid tables.now }
    requires s_bound { s < (net_of tables.now).stops }
    ensures value { result ≡ past_row (listing_of walk) tables.now s }
    ensures upper_bound { result ≤ row_count (listing_of walk) tables.now }
{
    if walk {
        repository::footpaths::walks_to(tables, s)
    } else {
        repository::footpaths::transfers_to(tables, s)
    }
}

// The stop that row j leads to.
#[tactic(auto, unfolding(crate::specs::Paths::listing_of, crate::specs::Paths::path_row))]
fn row_to(tables: &[u32], walk: bool, j: u32) -> u32
    requires laid { Laid tables.now }
    requires j_bound { j < row_count (listing_of walk) tables.now }
    ensures { result ≡ (path_row walk tables.now j).to }
{
    if walk {
        repository::footpaths::walk_to(tables, j)
    } else {
        repository::footpaths::transfer_to(tables, j)
    }
}

// Its span.
#[tactic(auto, unfolding(crate::specs::Paths::listing_of, crate::specs::Paths::path_row))]
fn row_span(tables: &[u32], walk: bool, j: u32) -> Duration
    requires searchable { Searchable tables.now }
    requires j_bound { j < row_count (listing_of walk) tables.now }
    ensures { result.0 ≡ (path_row walk tables.now j).span }
{
    if walk {
        discovery::walk_duration(tables, j)
    } else {
        discovery::transfer_duration(tables, j)
    }
}

// Whether row j leads to the leg's last stop and lasts as long as the leg.
#[tactic(auto, unfolding(handheld::specs::Fitting::fits_foot))]
fn row_fits(tables: &[u32], walk: bool, g: Leg, j: u32) -> bool
    requires searchable { Searchable tables.now }
    requires j_bound { j < row_count (listing_of walk) tables.now }
    requires departure_le_arrival { g.departure.0 ≤ g.arrival.0 }
    ensures { result ≡ fits_foot g (path_row walk tables.now j) }
{
    row_to(tables, walk, j) == g.to && row_span(tables, walk, j).0 == g.arrival.0 - g.departure.0
}

// Whether one of a stop's rows does.
fn some_row_fits(tables: &[u32], walk: bool, g: Leg) -> bool
    requires searchable { Searchable tables.now }
    requires from_bound { g.from < (net_of tables.now).stops }
    requires departure_le_arrival { g.departure.0 ≤ g.arrival.0 }
    ensures { result ≡ any (fits_foot g) (paths_of walk (net_of tables.now) g.from) }
{
    for j in first_row(tables, walk, g.from)..past_row(tables, walk, g.from) {
        if row_fits(tables, walk, g, j) {
            return true;
        }
    }
    false
}

// Whether the leg is one of the footpaths under its first stop. The bytes hold any moments: they are compared before one is taken from the
// other.
#[tactic(auto, unfolding(handheld::specs::Fitting::fits_path))]
pub fn fits_path(tables: &[u32], walk: bool, g: Leg) -> bool
    requires { Accepted tables.now }
    ensures { result ≡ fits_path (net_of tables.now) g (paths_of walk (net_of tables.now) g.from) }
{
    g.from < repository::places::stop_count(tables)
        && g.departure.0 <= g.arrival.0
        && some_row_fits(tables, walk, g)
}
