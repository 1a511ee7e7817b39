// A text's number in a book, and the book with it.
ghost use Rattle.std.specs.Prelude.{◌≡◌, ◌≤◌, ◌<◌, length};
ghost use Rattle.columns.specs.Picks.{text_at, Spanned};
ghost use Rattle.names.specs.Book.{Book, names_in};
ghost use Rattle.names.specs.Booked.{Booked};
ghost use Rattle.feed.specs.Feed.{number_of};
ghost use Rattle.feed.specs.Orderly.{seen_after};
ghost use Rattle.gtfs_rows.specs.Named.{names_with, counting};

use columns::Span;
use names::Shelf;

// The number of the text, the next one where it is new.
pub fn number_of(first: &[u8], second: &[u8], book: &[u32], shelf: Shelf, text: Span) -> u32
    requires book { Book first.now second.now shelf book.now }
    requires spanned { Spanned second.now text }
    ensures { result ≡ number_of (names_in first.now second.now shelf book.now)
        (text_at second.now text) }
{
    names::find(first, second, book, shelf, text.from, text.to).unwrap_or(shelf.count)
}

// Puts the text into the book where its number is the next; how many names there are then.
pub fn name(
    first: &[u8],
    second: &[u8],
    book: &mut [u32],
    shelf: Shelf,
    number: u32,
    text: Span,
) -> u32
    requires book { Book first.now second.now shelf book.old }
    requires spanned { Spanned second.now text }
    requires second_len_bound { length second.now ≤ 4294967295 }
    requires split_le_count { shelf.split ≤ shelf.count }
    requires number_le_count { number ≤ shelf.count }
    requires number_lt_cap { number < shelf.cap }
    ensures value { result ≡ seen_after shelf.count number }
    ensures booked { Booked first.now second.now (counting shelf result) book.old book.new
        (names_with (names_in first.now second.now shelf book.old) number
        (text_at second.now text)) }
{
    if number < shelf.count {
        return shelf.count;
    }
    names::add(first, second, book, shelf, text.from as u32, text.to as u32);
    shelf.count + 1
}
