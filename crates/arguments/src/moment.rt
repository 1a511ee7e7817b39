// A moment that a person writes, as seconds or H:MM:SS, and one that a clock shows. Where a timetable counts from another midnight than 0,
// its seconds are added to what is asked and taken off what is shown.
ghost use Rattle.std.specs.Prelude.{◌≡◌, ◌+◌};
ghost use Rattle.arguments.specs.Moment.{fits, sum_of, of_clock, of_seconds, has_clock_form, moment_said};
ghost use Rattle.arguments.specs.Moment.{face as face_of, clock_of};
ghost use Rattle.arguments.specs.declared.bytes.NoNumber.{NoNumber};

use super::bytes;
use super::bytes::NoNumber;
use std::fmt;

// Why an argument is no moment.
#[derive(Clone, Copy, Debug, PartialEq, Eq)]
pub enum NoMoment {
    NoForm,
    NoMinutes,
    TooLarge,
}

impl From<NoNumber> for NoMoment {
    ghost use Rattle.arguments.specs.Moment.{moment_fault};

    ghost from_gives = { λ e m. m ≡ moment_fault e };

    fn from(e: NoNumber) -> NoMoment {
        match e {
            NoNumber::NoDigits => NoMoment::NoForm,
            NoNumber::TooLarge => NoMoment::TooLarge,
        }
    }
}

// So many seconds, where they fit.
fn fitting(t: u64) -> Result<u32, NoMoment>
    ensures { result ≡ fits t }
{
    if t < 4294967296 {
        Ok(t as u32)
    } else {
        Err(NoMoment::TooLarge)
    }
}

// So many hours, minutes and seconds.
fn sum(hours: u32, minutes: u32, seconds: u32) -> Result<u32, NoMoment>
    ensures { result ≡ sum_of hours minutes seconds }
{
    if 59 < minutes || 59 < seconds {
        return Err(NoMoment::NoMinutes);
    }
    fitting(hours as u64 * 3600 + minutes as u64 * 60 + seconds as u64)
}

fn of_clock(
    hours: Result<u32, NoNumber>,
    minutes: Result<u32, NoNumber>,
    seconds: Result<u32, NoNumber>,
) -> Result<u32, NoMoment>
    ensures { result ≡ of_clock hours minutes seconds }
{
    let (Ok(m), Ok(s)) = (minutes, seconds) else {
        return Err(NoMoment::NoForm);
    };
    sum(hours?, m, s)
}

fn of_seconds(seconds: Result<u32, NoNumber>) -> Result<u32, NoMoment>
    ensures { result ≡ of_seconds seconds }
{
    Ok(seconds?)
}

// Whether an argument ends as H:MM:SS does: two digits each, since 7:5:00 could be meant as 7:50:00.
fn has_clock_form(arg: &[u8]) -> bool
    ensures { result ≡ has_clock_form arg.now }
{
    let n = arg.len();
    6 <= n && arg[n - 6] == b':' && arg[n - 3] == b':'
}

// The moment that an argument is.
pub fn moment_of(arg: &[u8]) -> Result<u32, NoMoment>
    ensures { result ≡ moment_said arg.now }
{
    if has_clock_form(arg) {
        let h = arg.len() - 6;
        let hours = bytes::number_in(arg, 0, h);
        let minutes = bytes::number_in(arg, h + 1, h + 3);
        let seconds = bytes::number_in(arg, h + 4, h + 6);
        return of_clock(hours, minutes, seconds);
    }
    of_seconds(bytes::number_in(arg, 0, arg.len()))
}

// A moment that is asked, against a midnight of the timetable.
pub fn moved(t: u32, midnight: u32) -> Result<u32, NoMoment>
    ensures { result ≡ fits (t + midnight) }
{
    fitting(t as u64 + midnight as u64)
}

// What a clock shows, and how many days before the day asked.
#[derive(Clone, Copy)]
pub struct Clock {
    pub days: u32,
    pub hours: u32,
    pub minutes: u32,
    pub seconds: u32,
}

// H:MM:SS, and which day before where it is before midnight.
impl fmt::Display for Clock {
    fn fmt<W: fmt::Write>(&self, f: &mut fmt::Formatter<W>) -> fmt::Result {
        let Clock {
            days,
            hours,
            minutes,
            seconds,
        } = *self;
        write!(f, "{hours}:{minutes:02}:{seconds:02}")?;
        match days {
            0 => Ok(()),
            1 => write!(f, " the day before"),
            _ => write!(f, " {days} days before"),
        }
    }
}

fn face(days: u32, s: u32) -> Clock
    ensures { result ≡ face_of days s }
{
    Clock {
        days,
        hours: s / 3600,
        minutes: s / 60 % 60,
        seconds: s % 60,
    }
}

// A moment of the timetable as a clock shows it.
pub fn clock_of(t: u32, midnight: u32) -> Clock
    ensures { result ≡ clock_of t midnight }
{
    if midnight <= t {
        return face(0, t - midnight);
    }
    let early = midnight - t - 1;
    face(early / 86400 + 1, 86399 - early % 86400)
}
