// Whether a number stands twice in a list, found with a mark for each number: one step for each place of the list.
ghost use Rattle.std.specs.Prelude.{◌≡◌, length};
ghost use Rattle.repository.specs.Laid.{Laid};
ghost use Rattle.repository.specs.Listed.{distinct};
ghost use Rattle.check_listing.specs.Fitting.{Fitting, Unmarked, JustMarked, marked_by};

use repository::words::item;
use std::ops::Range;

// Whether no two of the words at these places of section k are the same. If so, these are marked, and nothing else; if
// not, those before the first that repeats another.
pub fn marked_once(tables: &[u32], k: usize, places: Range<u32>, marks: &mut [u64]) -> bool
    requires laid { Laid tables.now }
    requires fitting { Fitting tables.now k places.start places.end (length marks.old) }
    requires unmarked { Unmarked marks.old }
    ensures value { result ≡ distinct tables.now k places.start places.end }
    ensures marks_after { marks.new ≡ marked_by tables.now k places.start places.end marks.old }
    ensures just_marked { JustMarked result marks.new tables.now k places.start places.end }
{
    for i in places.start..places.end {
        let s = item(tables, k, i as usize) as usize;
        if marks::is_marked(marks, s) {
            return false;
        }
        marks::set_mark(marks, s);
    }
    true
}
