// Number 5: the distances, and the transfers' stated spans.
ghost use Rattle.std.specs.Prelude.{◌≡◌, ◌<◌};
ghost use Rattle.base.specs.All.{all};
ghost use Rattle.repository.specs.Sections.{rows, TRANSFERS, WALKS, TRANSFER_WORDS, WALK_WORDS};
ghost use Rattle.repository.specs.Laid.{Laid};
ghost use Rattle.repository.specs.Checked.{measured};
ghost use Rattle.check_tables.specs.Distances.{transfer_fit, walk_fit};

use repository::{limits, sections, words};

#[tactic(auto, unfolding(crate::specs::Distances::transfer_fit))]
fn transfer_ok(tables: &[u32], j: usize) -> bool
    requires laid { Laid tables.now }
    requires j_bound { j < rows tables.now TRANSFERS TRANSFER_WORDS }
    ensures { result ≡ transfer_fit tables.now j }
{
    let at = j * sections::TRANSFER_WORDS;
    let span = words::word(tables, sections::TRANSFERS, at + sections::TRANSFER_STATED);
    let bits = words::word(tables, sections::TRANSFERS, at + sections::TRANSFER_METRES);
    (span == repository::MAX || span <= limits::LONGEST_SPAN) && shared::distance_ok(bits)
}

#[tactic(auto, unfolding(crate::specs::Distances::walk_fit))]
fn walk_ok(tables: &[u32], j: usize) -> bool
    requires laid { Laid tables.now }
    requires j_bound { j < rows tables.now WALKS WALK_WORDS }
    ensures { result ≡ walk_fit tables.now j }
{
    let at = j * sections::WALK_WORDS + sections::WALK_METRES;
    shared::distance_ok(words::word(tables, sections::WALKS, at))
}

fn transfers_ok(tables: &[u32]) -> bool
    requires { Laid tables.now }
    ensures { result ≡ all (transfer_fit tables.now) 0 (rows tables.now TRANSFERS TRANSFER_WORDS) }
{
    let n = words::rows_of(tables, sections::TRANSFERS, sections::TRANSFER_WORDS);
    (0..n).all(|j| transfer_ok(tables, j))
}

fn walks_ok(tables: &[u32]) -> bool
    requires { Laid tables.now }
    ensures { result ≡ all (walk_fit tables.now) 0 (rows tables.now WALKS WALK_WORDS) }
{
    let n = words::rows_of(tables, sections::WALKS, sections::WALK_WORDS);
    (0..n).all(|j| walk_ok(tables, j))
}

// Whether there is no number 5.
#[tactic(auto, unfolding(repository::specs::Checked::measured, crate::specs::Distances::transfer_fit, crate::specs::Distances::walk_fit))]
pub fn distances_ok(tables: &[u32]) -> bool
    requires { Laid tables.now }
    ensures { result ≡ measured tables.now }
{
    transfers_ok(tables) && walks_ok(tables)
}
