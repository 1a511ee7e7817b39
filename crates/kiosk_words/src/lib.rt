// A query, an answer and a leg as words: what the C face takes and gives.
#![tactic(auto)]

ghost use Rattle.std.specs.Prelude.{◌≡◌, [], ◌++◌, ◌≤◌, ◌<◌, length, drop};
ghost use Rattle.model.specs.Answer.{given};
ghost use Rattle.model.specs.Bytes.{leg_size};
ghost use Rattle.kiosk_words.specs.Words.{place_of, time_of, walks_of, mode_of, query_of, told_in, leg_told_in};

use model::{Answer, Error, Leg, LegType, Location, Mode, Query, TimeConstraint, Walks};
use shared::Time;

// 0 names a stop, 1 an area; any other kind a stop that does not exist.
#[tactic(auto, unfolding(crate::specs::Words::place_of))]
fn place_of(kind: u32, at: u32) -> Location
    ensures { result ≡ place_of kind at }
{
    match kind {
        0 => Location::Stop(at),
        1 => Location::Area(at),
        _ => Location::Stop(shared::MAX),
    }
}

// 0 departs at the moment, 1 arrives by it; a word that means nothing asks for a moment that may not be asked.
#[tactic(auto, unfolding(crate::specs::Words::time_of))]
fn time_of(when: u32, moment: u32, walks: u32, mode: u32) -> TimeConstraint
    ensures { result ≡ time_of when moment walks mode }
{
    if when > 1 || walks > 2 || mode > 1 {
        return TimeConstraint::Departure(Time(0));
    }
    if when == 0 {
        TimeConstraint::Departure(Time(moment))
    } else {
        TimeConstraint::Arrival(Time(moment))
    }
}

// 0 does not say, 1 allows walks, 2 bars them.
#[tactic(auto, unfolding(crate::specs::Words::walks_of))]
fn walks_of(walks: u32) -> Walks
    ensures { result ≡ walks_of walks }
{
    match walks {
        0 => Walks::Unsaid,
        1 => Walks::Allowed,
        _ => Walks::Barred,
    }
}

// 0 is the source's mode, 1 the rescan mode.
#[tactic(auto, unfolding(crate::specs::Words::mode_of))]
fn mode_of(mode: u32) -> Mode
    ensures { result ≡ mode_of mode }
{
    match mode {
        0 => Mode::Source,
        _ => Mode::Rescan,
    }
}

// The query that the words are.
#[tactic(auto, unfolding(crate::specs::Words::query_of))]
pub fn query_of(
    from_kind: u32,
    from: u32,
    to_kind: u32,
    to: u32,
    when: u32,
    moment: u32,
    walks: u32,
    mode: u32,
) -> Query
    ensures { result ≡ query_of from_kind from to_kind to when moment walks mode }
{
    Query {
        from: place_of(from_kind, from),
        to: place_of(to_kind, to),
        time: time_of(when, moment, walks, mode),
        walks: walks_of(walks),
        mode: mode_of(mode),
    }
}

// Writes words over the first of a slice.
fn put<const N: usize>(to: &mut [u32], words: [u32; N])
    requires { N ≤ length to.old }
    ensures { to.new ≡ words.entry ++ drop N to.old }
{
    to[..N].copy_from_slice(&words);
}

// The five words of an answer.
#[tactic(auto, unfolding(model::specs::Answer::given, crate::specs::Words::told_in))]
fn words_of(a: Answer) -> [u32; 5]
    requires { (given a).length < 4294967296 }
    ensures { result ≡ told_in (given a) [] }
{
    match a {
        Ok(f) => [0, f.time.0, f.stop, f.round, f.length as u32],
        Err(Error::Refused(r)) => [u32::from(r), 0, 0, 0, 0],
        Err(Error::NoRouteFound) => [10, 0, 0, 0, 0],
        Err(Error::FailedToBuildRoute) => [11, 0, 0, 0, 0],
        Err(Error::TooLong(length)) => [12, 0, 0, 0, length as u32],
    }
}

// Writes an answer, and gives its number.
#[tactic(auto, unfolding(crate::specs::Words::told_in))]
pub fn tell(answer: &mut [u32], a: Answer) -> u32
    requires in_bounds { 5 ≤ length answer.old }
    requires a_bound { (given a).length < 4294967296 }
    ensures value { result ≡ (given a).number }
    ensures answer_after { answer.new ≡ told_in (given a) answer.old }
{
    let words = words_of(a);
    put(answer, words);
    words[0]
}

// Writes a leg, and gives how many bytes it takes.
#[tactic(auto, unfolding(model::specs::Bytes::kind_byte, model::specs::Bytes::leg_size, crate::specs::Words::leg_told_in))]
pub fn tell_leg(leg: &mut [u32], g: Leg) -> u32
    requires { 6 ≤ length leg.old }
    ensures value { result ≡ leg_size g.kind }
    ensures leg_after { leg.new ≡ leg_told_in g leg.old }
{
    let (kind, trip, size) = match g.kind {
        LegType::Transit(trip) => (1, trip, 21),
        LegType::Transfer => (2, shared::MAX, 17),
        LegType::Walk => (3, shared::MAX, 17),
    };
    put(leg, [kind, g.from, g.to, trip, g.departure.0, g.arrival.0]);
    size
}
