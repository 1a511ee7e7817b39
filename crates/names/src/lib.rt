// Names of two texts that are lent as bytes, numbered in the order of their first appearance. Nothing is copied: a name is where it stands.
#![tactic(auto)]

ghost use Rattle.std.specs.Prelude.{◌≡◌, ◌+◌, ◌*◌, ◌≤◌, ◌<◌, length};
ghost use Rattle.csv_text.specs.Part.{part};
ghost use Rattle.csv_text.specs.Texts.{same_text};
ghost use Rattle.names.specs.Names.{place_among};
ghost use Rattle.names.specs.Book.{slot_of, name_at, one_more, Book, Added, Empty};
ghost use Rattle.names.specs.Told.{found_as};

// How a book is shared: room for `cap` names, `count` of them taken, those below `split` in the first file.
#[derive(Clone, Copy)]
pub struct Shelf {
    pub cap: u32,
    pub split: u32,
    pub count: u32,
}

// The slot of a text.
fn slot(text: &[u8], cap: u32) -> usize
    requires { 0 < cap }
    ensures value { result ≡ slot_of cap text.now }
    ensures upper_bound { result < cap }
{
    let mut h: u64 = 0;
    for &x in text {
        h = (h * 31 + u64::from(x)) % 4294967296;
    }
    (h % u64::from(cap)) as usize
}

// Where the three words of name i begin.
fn row_of(cap: u32, i: u32) -> usize
    ensures { result ≡ cap + 3 * i }
{
    cap as usize + 3 * (i as usize)
}

// Whether the text of the second file is name i.
pub fn is_name(
    first: &[u8],
    second: &[u8],
    book: &[u32],
    shelf: Shelf,
    i: u32,
    a: usize,
    e: usize,
) -> bool
    requires book { Book first.now second.now shelf book.now }
    requires i_lt_count { i < shelf.count }
    requires a_le_e { (a ≤ e) × (e ≤ length second.now) }
    ensures { result ≡ same_text (part a e second.now)
        (name_at first.now second.now shelf book.now i) }
{
    let row = row_of(shelf.cap, i);
    let s = book[row] as usize;
    let t = book[row + 1] as usize;
    if i < shelf.split {
        csv_text::same(second, a, e, first, s, t)
    } else {
        csv_text::same(second, a, e, second, s, t)
    }
}

// The number of the text of the second file among the names that the book holds.
pub fn find(
    first: &[u8],
    second: &[u8],
    book: &[u32],
    shelf: Shelf,
    a: usize,
    e: usize,
) -> Option<u32>
    requires book { Book first.now second.now shelf book.now }
    requires a_le_e { (a ≤ e) × (e ≤ length second.now) }
    ensures { result ≡ found_as (place_among (name_at first.now second.now shelf book.now)
        (part a e second.now) shelf.count) }
{
    if shelf.cap == 0 {
        return None;
    }
    let mut p = book[slot(&second[a..e], shelf.cap)];
    // Stays a while: each name says which one is looked at next.
    while 0 < p {
        let i = p - 1;
        if is_name(first, second, book, shelf, i, a, e) {
            return Some(i);
        }
        p = book[row_of(shelf.cap, i) + 2];
    }
    None
}

// Puts the text of the second file behind the names.
pub fn add(first: &[u8], second: &[u8], book: &mut [u32], shelf: Shelf, a: u32, e: u32)
    requires book { Book first.now second.now shelf book.old }
    requires count_lt_cap { shelf.count < shelf.cap }
    requires split_le_count { shelf.split ≤ shelf.count }
    requires a_le_e { (a ≤ e) × (e ≤ length second.now) }
    ensures book_2 { Book first.now second.now (one_more shelf) book.new }
    ensures added { Added first.now second.now shelf book.old book.new
        (part a e second.now) }
{
    let cap = shelf.cap;
    let n = shelf.count;
    let b = slot(&second[a as usize..e as usize], cap);
    let last = book[b];
    let row = row_of(cap, n);
    book[row] = a;
    book[row + 1] = e;
    book[row + 2] = last;
    book[b] = n + 1;
}

// A book of no names: every slot is empty.
pub fn clear(book: &mut [u32], cap: u32)
    requires { 4 * cap ≤ length book.old }
    ensures { Empty cap book.old book.new }
{
    book[..cap as usize].fill(0);
}
