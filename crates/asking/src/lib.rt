// What the programs share: a query from the words of a line, and its answer, with the workspace cut from slices that are large enough.
#![tactic(auto)]

ghost use Rattle.std.specs.Prelude.{◌≡◌};
ghost use Rattle.asking.specs.Queries.{place_in, when_in, walks_in, mode_in, query_in};
ghost use Rattle.raptor.specs.Lent.{lent};
ghost use Rattle.asking.specs.Tells.{Tells};

use model::{Answer, Error, Location, Mode, Query, TimeConstraint, Walks};
use shared::Time;

// `s` for a stop, `a` for an area.
fn place_of(kind: u32, at: u32) -> Option<Location>
    ensures { result ≡ place_in kind at }
{
    const STOP: u32 = b's' as u32;
    const AREA: u32 = b'a' as u32;
    match kind {
        STOP => Some(Location::Stop(at)),
        AREA => Some(Location::Area(at)),
        _ => None,
    }
}

// `d` departs at the moment, `a` arrives by it.
fn moment_of(kind: u32, moment: u32) -> Option<TimeConstraint>
    ensures { result ≡ when_in kind moment }
{
    const DEPART: u32 = b'd' as u32;
    const ARRIVE: u32 = b'a' as u32;
    match kind {
        DEPART => Some(TimeConstraint::Departure(Time(moment))),
        ARRIVE => Some(TimeConstraint::Arrival(Time(moment))),
        _ => None,
    }
}

// 0 bars walks, 1 allows them, anything else does not say.
fn walks(word: u32) -> Walks
    ensures { result ≡ walks_in word }
{
    match word {
        0 => Walks::Barred,
        1 => Walks::Allowed,
        _ => Walks::Unsaid,
    }
}

// `r` is the rescan mode, anything else the source's.
fn mode(word: u32) -> Mode
    ensures { result ≡ mode_in word }
{
    if word == u32::from(b'r') {
        Mode::Rescan
    } else {
        Mode::Source
    }
}

// The query that the words `fromkind from tokind to d|a moment walks` are, in a mode.
pub fn query(line: &[u32], how: u32) -> Option<Query>
    ensures { result ≡ query_in line.now how }
{
    if line.len() < 7 {
        return None;
    }
    Some(Query {
        from: place_of(line[0], line[1])?,
        to: place_of(line[2], line[3])?,
        time: moment_of(line[4], line[5])?,
        walks: walks(line[6]),
        mode: mode(how),
    })
}

// The answer of `solve`, in a workspace of just the size that the tables ask for. None, where a slice is too small for the tables.
pub fn ask(
    tables: &[u32],
    words: &mut [u32],
    marks: &mut [u64],
    places: &mut [u32],
    journey: &mut [u8],
    q: Query,
) -> Option<Answer>
    ensures { Tells tables.now q
        (lent words.old marks.old places.old journey.old) result
        (lent words.new marks.new places.new journey.new) }
{
    let needed = match raptor::room(tables) {
        Ok(lengths) => lengths,
        Err(refusal) => return Some(Err(Error::Refused(refusal))),
    };
    if words.len() < needed.words {
        return None;
    }
    if marks.len() < needed.marks {
        return None;
    }
    if places.len() < needed.places {
        return None;
    }
    let answer = raptor::solve(
        tables,
        &mut words[..needed.words],
        &mut marks[..needed.marks],
        &mut places[..needed.places],
        journey,
        q,
    );
    Some(answer)
}
