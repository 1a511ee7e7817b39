// The rules for footpaths: transfers and walks.
ghost use Rattle.std.specs.Prelude.{◌≡◌, ◌<◌};
ghost use Rattle.repository.specs.Sections.{rows, stops, TRANSFER_STARTS, TRANSFERS, TRANSFER_WORDS};
ghost use Rattle.repository.specs.Laid.{Laid};
ghost use Rattle.repository.specs.Listed.{under, transfer, transfers, walks};

use repository::sections;
use repository::words::{item, rows_of, rows_under, size_of};

#[tactic(auto, unfolding(repository::specs::Listed::transfer))]
fn transfer_ok(tables: &[u32], s: u32, j: u32) -> bool
    requires laid { Laid tables.now }
    requires j_bound { j < rows tables.now TRANSFERS TRANSFER_WORDS }
    ensures { result ≡ transfer tables.now s j }
{
    let at = j as usize * sections::TRANSFER_WORDS;
    item(tables, sections::TRANSFERS, at) == s
        && item(tables, sections::TRANSFERS, at + sections::TRANSFER_TO)
            < size_of(tables, sections::STOP_LIST)
}

// Whether the transfers that are listed under stop s leave it, and lead to stops.
fn transfers_of_ok(tables: &[u32], s: u32) -> bool
    requires laid { Laid tables.now }
    requires s_bound { s < stops tables.now }
    ensures { result ≡ under tables.now TRANSFER_STARTS (transfer tables.now) s }
{
    rows_under(tables, sections::TRANSFER_STARTS, s).all(|j| transfer_ok(tables, s, j))
}

// Whether each transfer is listed under the stop that it leaves, and leads to a stop.
pub fn transfers_ok(tables: &[u32]) -> bool
    requires { Laid tables.now }
    ensures { result ≡ transfers tables.now }
{
    let n = size_of(tables, sections::STOP_LIST);
    (0..n).all(|s| transfers_of_ok(tables, s))
}

// Whether each walk leads to a stop.
pub fn walks_ok(tables: &[u32]) -> bool
    requires { Laid tables.now }
    ensures { result ≡ walks tables.now }
{
    let limit = size_of(tables, sections::STOP_LIST);
    let n = rows_of(tables, sections::WALKS, sections::WALK_WORDS);
    (0..n).all(|j| item(tables, sections::WALKS, j * sections::WALK_WORDS) < limit)
}
