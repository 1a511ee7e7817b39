// The C face: the functions that a C or Rust program links, over numbers and slices alone. A slice is a pointer and a length.
#![tactic(auto)]

ghost use Rattle.std.specs.Prelude.{◌≡◌};
ghost use Rattle.repository.specs.Accepted.{Accepted};
ghost use Rattle.repository.specs.Checked.{check_of};
ghost use Rattle.raptor.specs.Lent.{lent};
ghost use Rattle.kiosk_words.specs.Words.{query_of};
ghost use Rattle.kiosk_c.specs.Face.{short_number, Faced, room_number, room_left};

// The number where what is told has no room; the workspace's (`Refusal::Room`).
const NO_ROOM: u32 = 6;

pub mod judging; // judging.rt: journeys that handhelds send
pub mod legs; // legs.rt: journey bytes, read

// 0 where the tables are accepted, else the lowest number, 1 to 5, of which they have a fault.
pub fn kiosk_check(tables: &[u32]) -> u32
    ensures { result ≡ check_of tables.now }
{
    match raptor::check(tables) {
        Ok(()) => 0,
        Err(r) => r.into(),
    }
}

// The three lengths that a search on these tables asks for: words, marks, places. 1 to 5 for tables that are refused, 6 where there are
// not three words for the lengths.
pub fn kiosk_room(tables: &[u32], room: &mut [u32]) -> u32
    ensures value { result ≡ room_number tables.now room.old }
    ensures room_after { room.new ≡ room_left tables.now room.old }
{
    let lengths = match raptor::room(tables) {
        Ok(lengths) => lengths,
        Err(r) => return r.into(),
    };
    if room.len() < 3 {
        return NO_ROOM;
    }
    let words = [
        lengths.words as u32,
        lengths.marks as u32,
        lengths.places as u32,
    ];
    room[..3].copy_from_slice(&words);
    0
}

// The number where the answer has no room: the tables' own, or 6.
#[tactic(auto, unfolding(crate::specs::Face::short_number))]
fn short_number(tables: &[u32]) -> u32
    ensures { result ≡ short_number (check_of tables.now) }
{
    match kiosk_check(tables) {
        0 => NO_ROOM,
        number => number,
    }
}

// Checks everything, then searches: the number, which is also the first word of the answer.
pub fn kiosk_solve(
    tables: &[u32],
    words: &mut [u32],
    marks: &mut [u64],
    places: &mut [u32],
    journey: &mut [u8],
    from_kind: u32,
    from: u32,
    to_kind: u32,
    to: u32,
    when: u32,
    moment: u32,
    walks: u32,
    mode: u32,
    answer: &mut [u32],
) -> u32
    ensures { Faced tables.now (query_of from_kind from to_kind to when moment walks mode)
        (lent words.old marks.old places.old journey.old) answer.old result
        (lent words.new marks.new places.new journey.new) answer.new }
{
    if answer.len() < 5 {
        return short_number(tables);
    }
    let q = kiosk_words::query_of(from_kind, from, to_kind, to, when, moment, walks, mode);
    let a = raptor::solve(tables, words, marks, places, journey, q);
    kiosk_words::tell(answer, a)
}

// The same, for tables that `kiosk_check` answered with 0.
pub fn kiosk_solve_checked(
    tables: &[u32],
    words: &mut [u32],
    marks: &mut [u64],
    places: &mut [u32],
    journey: &mut [u8],
    from_kind: u32,
    from: u32,
    to_kind: u32,
    to: u32,
    when: u32,
    moment: u32,
    walks: u32,
    mode: u32,
    answer: &mut [u32],
) -> u32
    requires { Accepted tables.now }
    ensures { Faced tables.now (query_of from_kind from to_kind to when moment walks mode)
        (lent words.old marks.old places.old journey.old) answer.old result
        (lent words.new marks.new places.new journey.new) answer.new }
{
    if answer.len() < 5 {
        return NO_ROOM;
    }
    let q = kiosk_words::query_of(from_kind, from, to_kind, to, when, moment, walks, mode);
    let a = raptor::solve_checked(tables, words, marks, places, journey, q);
    kiosk_words::tell(answer, a)
}
