// What the writers of rows share: how they answer, tests of both kinds of rows, a text at the beginning, and cells with the
// byte behind them.
#![tactic(auto)]

ghost use Rattle.std.specs.Prelude.{◌≡◌, true, ◌++◌, ◌+◌, ◌≤◌, ◌<◌, length};
ghost use Rattle.base.specs.Put.{with_bytes};
ghost use Rattle.numbers.specs.Decimal.{digits};
ghost use Rattle.numbers.specs.Clock.{clock_text};
ghost use Rattle.feed.specs.Orderly.{stop_fits, seen_after, is_moment};
ghost use Rattle.gtfs_write.specs.Written.{LIMITS, whole_rows, cell};
ghost use Rattle.gtfs_write.specs.Refusing.{unwritten_number};

use repository::limits;

// Why rows are not written: nothing is written then.
#[derive(Clone, Copy, Debug, PartialEq, Eq)]
pub enum Unwritten {
    Shape, // the words are no rows, or too many
    Listing, // a trip or a stop that is neither known nor the next
    Moments, // a moment before 0:00:00 or after 99:59:59
    Transfers, // a type or a span that is none
    Full, // the buffer is too short
}

// The number by which C and the documents know it.
impl From<Unwritten> for u32 {
    ghost from_gives = { λ refusal number. number ≡ unwritten_number refusal };

    fn from(refusal: Unwritten) -> u32 {
        match refusal {
            Unwritten::Shape => 1,
            Unwritten::Listing => 2,
            Unwritten::Moments => 3,
            Unwritten::Transfers => 5,
            Unwritten::Full => 15,
        }
    }
}

// Whether the words are whole rows, and no more than `most`.
#[tactic(auto, unfolding(crate::specs::Written::whole_rows))]
pub fn whole_rows(words: &[u32], most: usize) -> bool
    ensures { result ≡ whole_rows most words.now }
{
    words.len() % 4 == 0 && words.len() / 4 <= most
}

// A stop that has appeared or is the next, while there is room.
#[tactic(auto, unfolding(feed::specs::Orderly::stop_fits))]
pub fn stop_fits(stops: u32, s: u32) -> bool
    ensures { result ≡ stop_fits LIMITS stops s }
{
    s <= stops && (s as usize) < limits::MOST_STOPS
}

// How many have appeared after s has.
#[tactic(auto, unfolding(feed::specs::Orderly::seen_after))]
pub fn seen_after(seen: u32, s: u32) -> u32
    requires { s < 4_294_967_295 }
    ensures { result ≡ seen_after seen s }
{
    if s == seen { seen + 1 } else { seen }
}

// Writes a text at the buffer's beginning.
#[tactic(auto, unfolding(base::specs::Put::with_bytes))]
pub fn write_text(out: &mut [u8], text: &[u8])
    requires { length text.now ≤ length out.old }
    ensures { out.new ≡ with_bytes out.old 0 text.now }
{
    out[..text.len()].copy_from_slice(text);
}

// Writes a number and the byte behind it, and says where they end.
pub fn write_cell(out: &mut [u8], at: usize, n: u32, end: u8) -> usize
    requires { at + length (cell (digits n) end) ≤ length out.old }
    ensures value { result ≡ at + length (cell (digits n) end) }
    ensures out_after { out.new ≡ with_bytes out.old at (cell (digits n) end) }
{
    let e = numbers::write_decimal(out, at, n);
    out[e] = end;
    e + 1
}

// Writes two numbers with a comma between them and a byte behind them, and says where they end.
pub fn write_pair(out: &mut [u8], at: usize, m: u32, n: u32, end: u8) -> usize
    requires { at + length (cell (digits m) 44 ++ cell (digits n) end) ≤ length out.old }
    ensures value { result ≡ at + length (cell (digits m) 44 ++ cell (digits n) end) }
    ensures out_after { out.new ≡ with_bytes out.old at (cell (digits m) 44 ++ cell (digits n) end) }
{
    let e = write_cell(out, at, m, 44);
    write_cell(out, e, n, end)
}

// Writes a moment and a comma.
fn write_moment(out: &mut [u8], at: usize, m: u32)
    requires at_in_bounds { at + 9 ≤ length out.old }
    requires m_value { is_moment m ≡ true }
    ensures { out.new ≡ with_bytes out.old at (cell (clock_text m) 44) }
{
    numbers::write_clock(out, at, m);
    out[at + 8] = 44;
}

// Writes both moments of a row.
pub fn write_moments(out: &mut [u8], at: usize, a: u32, d: u32)
    requires at_in_bounds { at + 18 ≤ length out.old }
    requires a_value { is_moment a ≡ true }
    requires d_value { is_moment d ≡ true }
    ensures { out.new ≡ with_bytes out.old at (cell (clock_text a) 44 ++ cell (clock_text d) 44) }
{
    write_moment(out, at, a);
    write_moment(out, at + 9, d);
}
