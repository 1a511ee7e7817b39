// The query that the arguments of a program are: two places, a direction, a moment and the options. Nothing is read or printed here.
#![tactic(auto)]

ghost use Rattle.std.specs.Prelude.{◌≡◌, ◌+◌};
ghost use Rattle.arguments.specs.Moment.{fits};
ghost use Rattle.questions.specs.Asking.{spot_of, direction_said, walks_for, mode_for, midnight_for, time_for, asks, asked_for};

use arguments::bytes::NoNumber;
use arguments::moment::NoMoment;
use arguments::options::Options;
use arguments::place::Place;
use model::{Direction, Location, Mode, Query, TimeConstraint, Walks};
use shared::Time;

// A query, the place of the argument that names a file of tables, the timetable's midnight, and whether the journey is asked for as bytes.
#[derive(Clone, Copy)]
pub struct Question {
    pub query: Query,
    pub file: Option<usize>,
    pub midnight: u32,
    pub bytes: bool,
}

// Why nothing is asked: an argument is no direction, or there is no moment.
#[derive(Clone, Copy, Debug, PartialEq, Eq)]
pub enum NoQuestion {
    NoDirection,
    NoMoment(NoMoment),
}

impl From<NoMoment> for NoQuestion {
    ghost use Rattle.questions.specs.Asking.{no_moment};

    ghost from_gives = { λ e q. q ≡ no_moment e };

    fn from(e: NoMoment) -> NoQuestion {
        NoQuestion::NoMoment(e)
    }
}

// The place of the search that an argument's place is; none where the argument is no place.
pub fn spot_of(place: Result<Place, NoNumber>) -> Option<Location>
    ensures { result ≡ spot_of place }
{
    match place {
        Ok(Place::Stop(n)) => Some(Location::Stop(n)),
        Ok(Place::Area(n)) => Some(Location::Area(n)),
        Err(_) => None,
    }
}

// Whether an argument asks for the departure or the arrival.
pub fn direction_of(arg: &[u8]) -> Option<Direction>
    ensures { result ≡ direction_said arg.now }
{
    if arguments::bytes::is(arg, b"depart") {
        return Some(Direction::Departure);
    }
    if arguments::bytes::is(arg, b"arrive") {
        return Some(Direction::Arrival);
    }
    None
}

fn walks_of(said: Option<bool>) -> Walks
    ensures { result ≡ walks_for said }
{
    match said {
        Some(true) => Walks::Allowed,
        Some(false) => Walks::Barred,
        None => Walks::Unsaid,
    }
}

fn mode_of(rescan: Option<bool>) -> Mode
    ensures { result ≡ mode_for rescan }
{
    match rescan {
        Some(true) => Mode::Rescan,
        _ => Mode::Source,
    }
}

// The earliest departure or the latest arrival.
fn constraint_of(direction: Direction, t: u32) -> TimeConstraint
    ensures { result ≡ time_for direction t }
{
    match direction {
        Direction::Departure => TimeConstraint::Departure(Time(t)),
        Direction::Arrival => TimeConstraint::Arrival(Time(t)),
    }
}

// The seconds of midnight that the options say.
fn midnight_of(o: Options) -> u32
    ensures { result ≡ midnight_for o }
{
    o.midnight.unwrap_or(0)
}

// What is asked at the time c with the options o.
fn asked_at(from: Location, to: Location, c: TimeConstraint, o: Options) -> Question
    ensures { result ≡ asks from to c o }
{
    let query = Query {
        from,
        to,
        time: c,
        walks: walks_of(o.walks),
        mode: mode_of(o.rescan),
    };
    Question {
        query,
        file: o.file,
        midnight: midnight_of(o),
        bytes: o.bytes,
    }
}

// What is asked between two places at the moment t, in the direction that an argument is: the options say which midnight that moment counts
// from, and it may not fit.
pub fn question_of(
    from: Location,
    to: Location,
    direction: Option<Direction>,
    t: u32,
    o: Options,
) -> Result<Question, NoQuestion>
    ensures { result ≡ asked_for from to direction (fits (t + midnight_for o)) o }
{
    let direction = direction.ok_or(NoQuestion::NoDirection)?;
    let moment = arguments::moment::moved(t, midnight_of(o))?;
    let c = constraint_of(direction, moment);
    Ok(asked_at(from, to, c, o))
}
