// The footpaths that are listed under a stop: rows of the transfers, and rows of the walks.
ghost use Rattle.std.specs.Prelude.{◌≡◌, ◌<◌, ◌≤◌};
ghost use Rattle.shared.specs.Walk.{Stretch};
ghost use Rattle.repository.specs.Sections.{transfer_stated, transfer_metres, walk_metres};
ghost use Rattle.repository.specs.Laid.{Laid};
ghost use Rattle.repository.specs.Readable.{Searchable};
ghost use Rattle.repository.specs.NetOf.{net_of, transfer_row, walk_row};
ghost use Rattle.repository.specs.Rows.{transfers, walks, first_row, past_row, row_count};

use crate::{sections, words};
use shared::{Distance, Duration};

// The first transfer of a stop.
pub fn transfers_from(tables: &[u32], s: u32) -> u32
    requires laid { Laid tables.now }
    requires s_bound { s < (net_of tables.now).stops }
    ensures { result ≡ first_row transfers tables.now s }
{
    words::row_from(tables, sections::TRANSFER_STARTS, s)
}

// The row past its last.
pub fn transfers_to(tables: &[u32], s: u32) -> u32
    requires laid { Laid tables.now }
    requires s_bound { s < (net_of tables.now).stops }
    ensures value { result ≡ past_row transfers tables.now s }
    ensures upper_bound { result ≤ row_count transfers tables.now }
{
    words::row_to(tables, sections::TRANSFER_STARTS, s)
}

// The stop that transfer j leads to.
pub fn transfer_to(tables: &[u32], j: u32) -> u32
    requires laid { Laid tables.now }
    requires j_bound { j < row_count transfers tables.now }
    ensures { result ≡ (transfer_row tables.now j).to }
{
    let at = j as usize * sections::TRANSFER_WORDS + sections::TRANSFER_TO;
    words::word(tables, sections::TRANSFERS, at)
}

// Its stated span; MAX is an unstated one.
pub fn transfer_stated(tables: &[u32], j: u32) -> Duration
    requires laid { Laid tables.now }
    requires j_bound { j < row_count transfers tables.now }
    ensures { result.0 ≡ transfer_stated tables.now j }
{
    let at = j as usize * sections::TRANSFER_WORDS + sections::TRANSFER_STATED;
    Duration(words::word(tables, sections::TRANSFERS, at))
}

// Its metres.
pub fn transfer_metres(tables: &[u32], j: u32) -> Distance
    requires searchable { Searchable tables.now }
    requires j_bound { j < row_count transfers tables.now }
    ensures result_value { result.0 ≡ transfer_metres tables.now j }
    ensures stretch { Stretch result.0 }
{
    let at = j as usize * sections::TRANSFER_WORDS + sections::TRANSFER_METRES;
    let bits = words::word(tables, sections::TRANSFERS, at);
    shared::distance_of(bits)
}

// The first walk of a stop.
pub fn walks_from(tables: &[u32], s: u32) -> u32
    requires laid { Laid tables.now }
    requires s_bound { s < (net_of tables.now).stops }
    ensures { result ≡ first_row walks tables.now s }
{
    words::row_from(tables, sections::WALK_STARTS, s)
}

// The row past its last.
pub fn walks_to(tables: &[u32], s: u32) -> u32
    requires laid { Laid tables.now }
    requires s_bound { s < (net_of tables.now).stops }
    ensures value { result ≡ past_row walks tables.now s }
    ensures upper_bound { result ≤ row_count walks tables.now }
{
    words::row_to(tables, sections::WALK_STARTS, s)
}

// The stop that walk j leads to.
pub fn walk_to(tables: &[u32], j: u32) -> u32
    requires laid { Laid tables.now }
    requires j_bound { j < row_count walks tables.now }
    ensures { result ≡ (walk_row tables.now j).to }
{
    let at = j as usize * sections::WALK_WORDS;
    words::word(tables, sections::WALKS, at)
}

// Its metres.
pub fn walk_metres(tables: &[u32], j: u32) -> Distance
    requires searchable { Searchable tables.now }
    requires j_bound { j < row_count walks tables.now }
    ensures result_value { result.0 ≡ walk_metres tables.now j }
    ensures stretch { Stretch result.0 }
{
    let at = j as usize * sections::WALK_WORDS + sections::WALK_METRES;
    let bits = words::word(tables, sections::WALKS, at);
    shared::distance_of(bits)
}
