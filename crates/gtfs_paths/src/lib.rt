// A row of transfers.txt: whether it is taken, and how.
#![tactic(auto)]

ghost use Rattle.std.specs.Prelude.{◌≡◌, ◌*◌, ◌<◌};
ghost use Rattle.base.specs.Put.{with_bytes};
ghost use Rattle.columns.specs.Picks.{text_at, Spanned};
ghost use Rattle.names.specs.Book.{Book, names_in};
ghost use Rattle.names.specs.Booked.{Booked};
ghost use Rattle.feed.specs.Feed.{named, number_of};
ghost use Rattle.feed.specs.Orderly.{seen_after};
ghost use Rattle.gtfs_rows.specs.Named.{counting};
ghost use Rattle.gtfs_paths.specs.Taking.{path_plan, path_shelf, path_named, path_words, after_path};
ghost use Rattle.gtfs_paths.specs.Taking.{PathNames, PathEnters, PathTakeable, PathTakes};

use columns::Span;
use feed::{Room, TransferSpans};
use gtfs_rows::{books, rows};
use names::Shelf;

// So many names of stops stand in the first file, so many in both, and so many rows are taken.
#[derive(Clone, Copy)]
pub struct PathsReached {
    pub split: u32,
    pub stops: u32,
    pub transfers: u32,
}

impl PathsReached {
    // The stops that are named so far, as the book of both files has them.
    fn shelf(self, room: Room) -> Shelf
        ensures { result ≡ path_shelf room self }
    {
        Shelf {
            cap: room.stops,
            split: self.split,
            count: self.stops,
        }
    }
}

// The numbers of a row's two stops.
#[derive(Clone, Copy)]
pub struct PathNumbers {
    pub from: u32,
    pub to: u32,
}

// A row that is taken: the numbers of its stops, and the values of its line.
#[derive(Clone, Copy)]
pub struct PathEntry {
    pub from: u32,
    pub to: u32,
    pub line: TransferSpans,
}

// The number of a row's second stop, once the first has its number `from`.
fn second_number(
    first: &[u8],
    second: &[u8],
    stops: &[u32],
    shelf: Shelf,
    from: u32,
    near: Span,
    far: Span,
) -> u32
    requires book { Book first.now second.now shelf stops.now }
    requires spanned { Spanned second.now near }
    requires spanned_2 { Spanned second.now far }
    requires from_value { from ≡ number_of (names_in first.now second.now shelf stops.now) (text_at second.now near) }
    requires from_lt_cap { from < shelf.cap }
    ensures { result ≡ number_of (named (names_in first.now second.now shelf stops.now)
        (text_at second.now near)) (text_at second.now far) }
{
    let to = books::number_of(first, second, stops, shelf, far);
    if from < shelf.count {
        return to;
    }
    if csv_text::same(second, far.from, far.to, second, near.from, near.to) {
        return from;
    }
    if to < shelf.count {
        return to;
    }
    shelf.count + 1
}

// The numbers of a line's stops; nothing where there is no room.
#[tactic(auto, unfolding(crate::specs::Taking::path_plan, crate::specs::Taking::path_by))]
pub fn plan_of(
    first: &[u8],
    second: &[u8],
    stops: &[u32],
    room: Room,
    at: PathsReached,
    line: TransferSpans,
) -> Option<PathNumbers>
    requires book { Book first.now second.now (path_shelf room at) stops.now }
    requires spanned { Spanned second.now line.from }
    requires spanned_2 { Spanned second.now line.to }
    ensures { result ≡ path_plan room (names_in first.now second.now (path_shelf room at) stops.now)
        at.transfers (text_at second.now line.from) (text_at second.now line.to) }
{
    let shelf = at.shelf(room);
    let from = books::number_of(first, second, stops, shelf, line.from);
    if room.stops <= from {
        return None;
    }
    let to = second_number(first, second, stops, shelf, from, line.from, line.to);
    if room.stops <= to || room.transfers <= at.transfers {
        return None;
    }
    Some(PathNumbers { from, to })
}

// Puts the two stops of a row into the book where they are new; how many stops have a name then.
fn name_both(
    first: &[u8],
    second: &[u8],
    stops: &mut [u32],
    room: Room,
    at: PathsReached,
    entry: PathEntry,
) -> u32
    requires { PathNames first.now second.now room at entry stops.old }
    ensures value { result ≡ seen_after (seen_after at.stops entry.from) entry.to }
    ensures booked { Booked first.now second.now (counting (path_shelf room at) result) stops.old
        stops.new (path_named first.now second.now room at entry stops.old) }
{
    let shelf = at.shelf(room);
    let one = books::name(first, second, stops, shelf, entry.from, entry.line.from);
    let wider = Shelf {
        cap: room.stops,
        split: at.split,
        count: one,
    };
    books::name(first, second, stops, wider, entry.to, entry.line.to)
}

// Takes a row: its names into the book, its words behind the others.
pub fn enter(
    first: &[u8],
    second: &[u8],
    paths: &mut [u32],
    stops: &mut [u32],
    room: Room,
    at: PathsReached,
    entry: PathEntry,
) -> PathsReached
    requires { PathEnters first.now second.now room at entry paths.old stops.old }
    ensures value { result ≡ after_path at entry }
    ensures paths_after { paths.new ≡ with_bytes paths.old (4 * at.transfers) (path_words entry) }
    ensures booked { Booked first.now second.now (path_shelf room result) stops.old stops.new
        (path_named first.now second.now room at entry stops.old) }
{
    let line = entry.line;
    let named = name_both(first, second, stops, room, at, entry);
    rows::put_row(
        paths,
        at.transfers,
        entry.from,
        entry.to,
        line.kind,
        line.span,
    );
    PathsReached {
        split: at.split,
        stops: named,
        transfers: at.transfers + 1,
    }
}

// Takes the row of a line, or leaves all as it is.
pub fn take(
    first: &[u8],
    second: &[u8],
    paths: &mut [u32],
    stops: &mut [u32],
    room: Room,
    at: PathsReached,
    line: TransferSpans,
) -> Option<PathsReached>
    requires { PathTakeable first.now second.now room at line paths.old stops.old }
    ensures { PathTakes first.now second.now room at line result paths.old stops.old
        paths.new stops.new }
{
    let PathNumbers { from, to } = plan_of(first, second, stops, room, at, line)?;
    let entry = PathEntry { from, to, line };
    Some(enter(first, second, paths, stops, room, at, entry))
}
