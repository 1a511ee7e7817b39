// The rules for a station's children.
ghost use Rattle.std.specs.Prelude.{◌≡◌, ◌*◌, ◌≤◌, ◌<◌, length};
ghost use Rattle.marks.specs.Marks.{Stand};
ghost use Rattle.repository.specs.Sections.{size, stops, CHILD_STARTS, CHILDREN};
ghost use Rattle.repository.specs.Laid.{Laid};
ghost use Rattle.repository.specs.Listed.{among, under, child, children, children_name, children_all, of_station};

use crate::once::marked_once;
use repository::sections;
use repository::words::{item, rows_under, size_of};

#[tactic(auto, unfolding(repository::specs::Listed::child))]
fn child_ok(tables: &[u32], p: u32, j: u32) -> bool
    requires laid { Laid tables.now }
    requires j_bound { j < size tables.now CHILDREN }
    ensures { result ≡ child tables.now p j }
{
    let s = item(tables, sections::CHILDREN, j as usize);
    s < size_of(tables, sections::STOP_LIST) && item(tables, sections::STATIONS, s as usize) == p
}

// Whether the children of stop p name it.
fn children_of_ok(tables: &[u32], p: u32) -> bool
    requires laid { Laid tables.now }
    requires p_bound { p < stops tables.now }
    ensures { result ≡ under tables.now CHILD_STARTS (child tables.now) p }
{
    rows_under(tables, sections::CHILD_STARTS, p).all(|j| child_ok(tables, p, j))
}

// Whether every child names the station that it stands under.
fn children_name_ok(tables: &[u32]) -> bool
    requires { Laid tables.now }
    ensures { result ≡ children_name tables.now }
{
    let n = size_of(tables, sections::STOP_LIST);
    (0..n).all(|p| children_of_ok(tables, p))
}

#[tactic(auto, unfolding(repository::specs::Listed::of_station))]
fn of_station_ok(tables: &[u32], marks: &[u64], s: u32) -> bool
    requires laid { Laid tables.now }
    requires stand { Stand marks.now (among tables.now CHILDREN 0 (size tables.now CHILDREN)) }
    requires tables_bound { stops tables.now ≤ 64 * length marks.now }
    requires s_bound { s < stops tables.now }
    ensures { result ≡ of_station tables.now s }
{
    item(tables, sections::STATIONS, s as usize) == repository::MAX
        || marks::is_marked(marks, s as usize)
}

// Whether every stop that names a station is a child. The children are marked.
fn children_all_ok(tables: &[u32], marks: &[u64]) -> bool
    requires laid { Laid tables.now }
    requires stand { Stand marks.now (among tables.now CHILDREN 0 (size tables.now CHILDREN)) }
    requires tables_bound { stops tables.now ≤ 64 * length marks.now }
    ensures { result ≡ children_all tables.now }
{
    let n = size_of(tables, sections::STOP_LIST);
    (0..n).all(|s| of_station_ok(tables, marks, s))
}

// Whether the children of each station are the stops naming it, once each.
#[tactic(auto, unfolding(repository::specs::Listed::children))]
pub fn children_ok(tables: &[u32]) -> bool
    requires { Laid tables.now }
    ensures { result ≡ children tables.now }
{
    let n = size_of(tables, sections::CHILDREN);
    let mut marks = [0u64; 64];
    children_name_ok(tables)
        && marked_once(tables, sections::CHILDREN, 0..n, &mut marks)
        && children_all_ok(tables, &marks)
}
