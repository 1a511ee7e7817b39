// Whether the numbers of a list are indices below a limit.
ghost use Rattle.std.specs.Prelude.{◌≡◌, ◌<◌};
ghost use Rattle.repository.specs.Sections.{SECTIONS};
ghost use Rattle.repository.specs.Laid.{Laid};
ghost use Rattle.repository.specs.Listed.{in_range};

use repository::words::{item, size_of};

// Whether every word of section k is below the limit.
pub fn in_range(tables: &[u32], k: usize, limit: u32) -> bool
    requires laid { Laid tables.now }
    requires k_bound { k < SECTIONS }
    ensures { result ≡ in_range tables.now k limit }
{
    let n = size_of(tables, k);
    (0..n).all(|i| item(tables, k, i as usize) < limit)
}
