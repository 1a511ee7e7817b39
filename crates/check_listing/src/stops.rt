// The rules for stops and their stations.
ghost use Rattle.std.specs.Prelude.{◌≡◌, ◌<◌};
ghost use Rattle.repository.specs.Sections.{stops};
ghost use Rattle.repository.specs.Laid.{Laid};
ghost use Rattle.repository.specs.Listed.{station, stations, stop_list};

use repository::sections;
use repository::words::{item, size_of};

// Whether the stop list holds s at place s.
pub fn stop_list_ok(tables: &[u32]) -> bool
    requires { Laid tables.now }
    ensures { result ≡ stop_list tables.now }
{
    let n = size_of(tables, sections::STOP_LIST);
    (0..n).all(|s| item(tables, sections::STOP_LIST, s as usize) == s)
}

#[tactic(auto, unfolding(repository::specs::Listed::station))]
fn station_ok(tables: &[u32], s: u32) -> bool
    requires laid { Laid tables.now }
    requires s_bound { s < stops tables.now }
    ensures { result ≡ station tables.now s }
{
    let p = item(tables, sections::STATIONS, s as usize);
    p == repository::MAX || p < size_of(tables, sections::STOP_LIST)
}

// Whether every stop has a station in range, or none.
pub fn stations_ok(tables: &[u32]) -> bool
    requires { Laid tables.now }
    ensures { result ≡ stations tables.now }
{
    let n = size_of(tables, sections::STOP_LIST);
    (0..n).all(|s| station_ok(tables, s))
}
