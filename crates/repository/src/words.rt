// Words by section: its size, an entry of a starts section, a row, a part. The tables are laid, but for `head` and `word`.
ghost use Rattle.std.specs.Prelude.{◌≡◌, ◌+◌, ◌-◌, ◌≤◌, ◌<◌, length};
ghost use Rattle.base.specs.Tab.{tab};
ghost use Rattle.repository.specs.Sections.{start, size, sec, routes, rows, ROUTE_STOP_STARTS, SECTIONS, stop_on};
ghost use Rattle.repository.specs.NetOf.{count, list_of};
ghost use Rattle.repository.specs.Laid.{Laid};
ghost use Rattle.repository.specs.Entries.{Entry, Part, EntryWords};

use crate::sections;
use std::ops::Range;

// Where section k begins.
pub fn head(tables: &[u32], k: usize) -> u32
    requires { k < length tables.now }
    ensures { result ≡ start tables.now k }
{
    tables[k]
}

// Word i of section k.
pub fn word(tables: &[u32], k: usize, i: usize) -> u32
    requires k_in_bounds { k < length tables.now }
    requires i_in_bounds { start tables.now k + i < length tables.now }
    ensures { result ≡ sec tables.now k i }
{
    let at = tables[k] as usize + i;
    tables[at]
}

// How many words section k has.
pub fn size_of(tables: &[u32], k: usize) -> u32
    requires laid { Laid tables.now }
    requires k_bound { k < SECTIONS }
    ensures { result ≡ size tables.now k }
{
    head(tables, k + 1) - head(tables, k)
}

// How many entries the starts section k has: its last word only ends the list.
pub fn entries_of(tables: &[u32], k: usize) -> u32
    requires laid { Laid tables.now }
    requires k_bound { k < SECTIONS }
    requires bound { 1 ≤ size tables.now k }
    ensures { result ≡ size tables.now k - 1 }
{
    size_of(tables, k) - 1
}

// How many rows of `wide` words section k has.
pub fn rows_of(tables: &[u32], k: usize, wide: usize) -> usize
    requires laid { Laid tables.now }
    requires k_bound { k < SECTIONS }
    requires wide_nonzero { 0 < wide }
    ensures { result ≡ rows tables.now k wide }
{
    size_of(tables, k) as usize / wide
}

// Word i of section k of laid tables.
pub fn item(tables: &[u32], k: usize, i: usize) -> u32
    requires laid { Laid tables.now }
    requires k_bound { k < SECTIONS }
    requires i_bound { i < size tables.now k }
    ensures { result ≡ sec tables.now k i }
{
    word(tables, k, i)
}

// The first row of entry i of the starts section k.
pub fn row_from(tables: &[u32], k: usize, i: u32) -> u32
    requires laid { Laid tables.now }
    requires entry { Entry tables.now k i }
    ensures { result ≡ sec tables.now k i }
{
    word(tables, k, i as usize)
}

// The row past its last.
pub fn row_to(tables: &[u32], k: usize, i: u32) -> u32
    requires laid { Laid tables.now }
    requires entry { Entry tables.now k i }
    ensures { result ≡ sec tables.now k (i + 1) }
{
    word(tables, k, i as usize + 1)
}

// Its rows.
pub fn rows_under(tables: &[u32], k: usize, i: u32) -> Range<u32>
    requires laid { Laid tables.now }
    requires entry { Entry tables.now k i }
    ensures start { result.start ≡ sec tables.now k i }
    ensures end { result.end ≡ sec tables.now k (i + 1) }
{
    row_from(tables, k, i)..row_to(tables, k, i)
}

// How many rows it has.
pub fn row_count(tables: &[u32], k: usize, i: u32) -> u32
    requires laid { Laid tables.now }
    requires entry { Entry tables.now k i }
    ensures { result ≡ count tables.now k i }
{
    row_to(tables, k, i) - row_from(tables, k, i)
}

// Words a, .., b - 1 of section k.
pub fn part(tables: &[u32], k: usize, a: u32, b: u32) -> &[u32]
    requires laid { Laid tables.now }
    requires part { Part tables.now k a b }
    ensures { result.now ≡ tab (sec tables.now k) (b - a) a }
{
    let base = head(tables, k) as usize;
    &tables[base + a as usize..base + b as usize]
}

// The words of section k + 1 that stand under entry i of the starts section k.
pub fn listing(tables: &[u32], k: usize, i: u32) -> &[u32]
    requires laid { Laid tables.now }
    requires entry_words { EntryWords tables.now k i }
    ensures { result.now ≡ list_of tables.now k (sec tables.now (k + 1)) i }
{
    let rows = rows_under(tables, k, i);
    part(tables, k + 1, rows.start, rows.end)
}

// The stop at position p of route r.
pub fn stop_on(tables: &[u32], r: u32, p: u32) -> u32
    requires laid { Laid tables.now }
    requires r_bound { r < routes tables.now }
    requires p_bound { p < count tables.now ROUTE_STOP_STARTS r }
    ensures { result ≡ stop_on tables.now r p }
{
    let from = item(tables, sections::ROUTE_STOP_STARTS, r as usize) as usize;
    item(tables, sections::ROUTE_STOPS, from + p as usize)
}
