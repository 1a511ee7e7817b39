// The routes that contain a stop: rows of the calls, ascending by route.
ghost use Rattle.std.specs.Prelude.{◌≡◌, ◌<◌, ◌≤◌};
ghost use Rattle.repository.specs.Sections.{call_route, call_first};
ghost use Rattle.repository.specs.Laid.{Laid};
ghost use Rattle.repository.specs.NetOf.{net_of};
ghost use Rattle.repository.specs.Rows.{calls, first_row, past_row, row_count};

use crate::{sections, words};

// The first row of a stop.
pub fn calls_from(tables: &[u32], s: u32) -> u32
    requires laid { Laid tables.now }
    requires s_bound { s < (net_of tables.now).stops }
    ensures { result ≡ first_row calls tables.now s }
{
    words::row_from(tables, sections::CALL_STARTS, s)
}

// The row past its last.
pub fn calls_to(tables: &[u32], s: u32) -> u32
    requires laid { Laid tables.now }
    requires s_bound { s < (net_of tables.now).stops }
    ensures value { result ≡ past_row calls tables.now s }
    ensures upper_bound { result ≤ row_count calls tables.now }
{
    words::row_to(tables, sections::CALL_STARTS, s)
}

// The route that row j names.
pub fn call_route(tables: &[u32], j: u32) -> u32
    requires laid { Laid tables.now }
    requires j_bound { j < row_count calls tables.now }
    ensures { result ≡ call_route tables.now j }
{
    let at = j as usize * sections::CALL_WORDS;
    words::word(tables, sections::CALLS, at)
}

// The first position of the row's stop in that route.
pub fn call_first(tables: &[u32], j: u32) -> u32
    requires laid { Laid tables.now }
    requires j_bound { j < row_count calls tables.now }
    ensures { result ≡ call_first tables.now j }
{
    let at = j as usize * sections::CALL_WORDS + sections::CALL_FIRST;
    words::word(tables, sections::CALLS, at)
}
