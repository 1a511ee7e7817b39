// The C face as C links it: each function of `kiosk_c` under its own name, with the same clauses.
#![tactic(auto)]

ghost use Rattle.std.specs.Prelude.{◌≡◌};
ghost use Rattle.repository.specs.Accepted.{Accepted};
ghost use Rattle.repository.specs.Checked.{check_of};
ghost use Rattle.raptor.specs.Lent.{lent};
ghost use Rattle.kiosk_words.specs.Words.{query_of};
ghost use Rattle.kiosk_c.specs.Face.{Faced, room_number, room_left};
ghost use Rattle.model.specs.Bytes.{read as read_all};
ghost use Rattle.journey.specs.Reading.{leg_from, reading_of};
ghost use Rattle.kiosk_c.specs.Legs.{leg_number, leg_left, read_number, read_left};
ghost use Rattle.kiosk_c.specs.Judging.{judge_number, judge_left};

// 0 where the tables are accepted, else the lowest number, 1 to 5, of which they have a fault.
#[unsafe(no_mangle)]
pub extern "C" fn kiosk_check(tables: &[u32]) -> u32
    ensures { result ≡ check_of tables.now }
{
    kiosk_c::kiosk_check(tables)
}

// The three lengths that a search on these tables asks for: words, marks, places. 1 to 5 for tables that are refused, 6 where there are
// not three words for the lengths.
#[unsafe(no_mangle)]
pub extern "C" fn kiosk_room(tables: &[u32], room: &mut [u32]) -> u32
    ensures value { result ≡ room_number tables.now room.old }
    ensures room_after { room.new ≡ room_left tables.now room.old }
{
    kiosk_c::kiosk_room(tables, room)
}

// Checks everything, then searches: the number, which is also the first word of the answer.
#[unsafe(no_mangle)]
pub extern "C" fn kiosk_solve(
    tables: &[u32],
    words: &mut [u32],
    marks: &mut [u64],
    places: &mut [u32],
    journey: &mut [u8],
    from_kind: u32,
    from: u32,
    to_kind: u32,
    to: u32,
    when: u32,
    moment: u32,
    walks: u32,
    mode: u32,
    answer: &mut [u32],
) -> u32
    ensures { Faced tables.now (query_of from_kind from to_kind to when moment walks mode)
        (lent words.old marks.old places.old journey.old) answer.old result
        (lent words.new marks.new places.new journey.new) answer.new }
{
    kiosk_c::kiosk_solve(
        tables, words, marks, places, journey, from_kind, from, to_kind, to, when, moment, walks,
        mode, answer,
    )
}

// The same, for tables that `kiosk_check` answered with 0.
#[unsafe(no_mangle)]
pub extern "C" fn kiosk_solve_checked(
    tables: &[u32],
    words: &mut [u32],
    marks: &mut [u64],
    places: &mut [u32],
    journey: &mut [u8],
    from_kind: u32,
    from: u32,
    to_kind: u32,
    to: u32,
    when: u32,
    moment: u32,
    walks: u32,
    mode: u32,
    answer: &mut [u32],
) -> u32
    requires { Accepted tables.now }
    ensures { Faced tables.now (query_of from_kind from to_kind to when moment walks mode)
        (lent words.old marks.old places.old journey.old) answer.old result
        (lent words.new marks.new places.new journey.new) answer.new }
{
    kiosk_c::kiosk_solve_checked(
        tables, words, marks, places, journey, from_kind, from, to_kind, to, when, moment, walks,
        mode, answer,
    )
}

// Reads journey bytes: 0 where they are legs, whose number is told; 13 where they are not, and the offset of the bad leg's first byte is
// told; 6 where there is no word to tell it in.
#[unsafe(no_mangle)]
pub extern "C" fn kiosk_read(bytes: &[u8], told: &mut [u64]) -> u32
    ensures value { result ≡ read_number (reading_of (read_all bytes.now)) told.old }
    ensures told_after { told.new ≡ read_left (reading_of (read_all bytes.now)) told.old }
{
    kiosk_c::legs::kiosk_read(bytes, told)
}

// The leg that starts at an offset: how many bytes it takes, 0 where no byte is left there, 13 where it is none; 6 where there are not six
// words for it.
#[unsafe(no_mangle)]
pub extern "C" fn kiosk_leg(bytes: &[u8], at: usize, leg: &mut [u32]) -> u32
    ensures value { result ≡ leg_number (leg_from bytes.now at) leg.old }
    ensures leg_after { leg.new ≡ leg_left (leg_from bytes.now at) leg.old }
{
    kiosk_c::legs::kiosk_leg(bytes, at, leg)
}

// Whether journey bytes are a journey that the query asks for: 0, and 1 is told for yes, 0 for no; 13, and the offset of the bad leg's
// first byte is told; 1 to 5, 7, 8, 9. Where there is no word to tell it in, the tables' own number, or 6.
#[unsafe(no_mangle)]
pub extern "C" fn kiosk_judge(
    tables: &[u32],
    bytes: &[u8],
    from_kind: u32,
    from: u32,
    to_kind: u32,
    to: u32,
    when: u32,
    moment: u32,
    walks: u32,
    told: &mut [u64],
) -> u32
    ensures value { result ≡ judge_number tables.now (query_of from_kind from to_kind to when moment walks 0)
        bytes.now told.old }
    ensures told_after { told.new ≡ judge_left tables.now (query_of from_kind from to_kind to when moment walks 0)
        bytes.now told.old }
{
    kiosk_c::judging::kiosk_judge(
        tables, bytes, from_kind, from, to_kind, to, when, moment, walks, told,
    )
}

// The same, for tables that `kiosk_check` answered with 0.
#[unsafe(no_mangle)]
pub extern "C" fn kiosk_judge_checked(
    tables: &[u32],
    bytes: &[u8],
    from_kind: u32,
    from: u32,
    to_kind: u32,
    to: u32,
    when: u32,
    moment: u32,
    walks: u32,
    told: &mut [u64],
) -> u32
    requires { Accepted tables.now }
    ensures value { result ≡ judge_number tables.now (query_of from_kind from to_kind to when moment walks 0)
        bytes.now told.old }
    ensures told_after { told.new ≡ judge_left tables.now (query_of from_kind from to_kind to when moment walks 0)
        bytes.now told.old }
{
    kiosk_c::judging::kiosk_judge_checked(
        tables, bytes, from_kind, from, to_kind, to, when, moment, walks, told,
    )
}
