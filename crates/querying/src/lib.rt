// The query that the arguments are, or a line that says which argument is bad and why. Which query that is stands in `questions`.
#![tactic(auto)]

mod options; // options.rt: the options that the arguments say

ghost use Rattle.std.specs.Prelude.{◌≡◌, ◌≤◌, length, IfOk, IfSome};
ghost use Rattle.arguments.specs.Place.{place_said};
ghost use Rattle.questions.specs.Asking.{spot_of, direction_said};

use arguments::bytes::NoNumber;
use arguments::moment::NoMoment;
use arguments::options::Options;
use model::{Direction, Location};
use questions::{NoQuestion, Question};
use std::env::FillError;
use std::io;
use std::rt::Env;

// Says what is wrong with an argument.
fn say(rt: &impl Print, name: &str, arg: &[u8], why: &str) -> io::Result<()> {
    print!(rt; "{name}: ")?;
    print::text(rt, arg)?;
    println!(rt; "{why}")
}

fn say_too_long(rt: &impl Print, name: &str) -> io::Result<()> {
    say(rt, name, b"", "is longer than 1,024 bytes")
}

// The bytes of argument i, which go to the buffer's beginning; says so where it is not given, or not whole in its buffer.
fn read_arg<'a>(
    rt: &(impl Env + Print),
    buffer: &'a mut [u8],
    i: usize,
    name: &str,
) -> io::Result<Option<&'a [u8]>>
    ensures { IfOk result (λ o. IfSome o (λ arg. length arg.now ≤ length buffer.old)) }
{
    match rt.arg(i, buffer) {
        Ok(n) => Ok(Some(&buffer[..n])),
        Err(FillError::NotPresent) => {
            say(rt, name, b"", "is not given")?;
            Ok(None)
        }
        Err(FillError::TooLong) => {
            say_too_long(rt, name)?;
            Ok(None)
        }
    }
}

// The same where nothing is said: an argument that is not given, or not whole in its buffer, has no byte.
fn quiet_arg<'a>(rt: &impl Env, buffer: &'a mut [u8], i: usize) -> &'a [u8]
    ensures { length result.now ≤ length buffer.old }
{
    let n = rt.arg(i, buffer).unwrap_or(0);
    &buffer[..n]
}

// Says why an argument is no place.
fn say_no_place(rt: &impl Print, name: &str, arg: &[u8], why: NoNumber) -> io::Result<()> {
    let why = match why {
        NoNumber::NoDigits => " is no place: give the number of a stop, or area: and a number",
        NoNumber::TooLarge => " is no place: a number is at most 4294967295",
    };
    say(rt, name, arg, why)
}

// The place that an argument is; says why it is none.
fn place_of(rt: &impl Print, name: &str, arg: &[u8]) -> io::Result<Option<Location>>
    ensures { IfOk result (λ s. s ≡ spot_of (place_said arg.now)) }
{
    let place = arguments::place::place_of(arg);
    if let Err(why) = place {
        say_no_place(rt, name, arg, why)?;
    }
    Ok(questions::spot_of(place))
}

// The place that argument i is.
fn read_place(
    rt: &(impl Env + Print),
    buffer: &mut [u8],
    i: usize,
    name: &str,
) -> io::Result<Option<Location>> {
    match read_arg(rt, buffer, i, name)? {
        Some(arg) => place_of(rt, name, arg),
        None => Ok(None),
    }
}

// The direction that an argument is; says so where it is none.
fn direction_of(rt: &impl Print, arg: &[u8]) -> io::Result<Option<Direction>>
    ensures { IfOk result (λ d. d ≡ direction_said arg.now) }
{
    let direction = questions::direction_of(arg);
    if direction.is_none() {
        say(
            rt,
            "depart|arrive",
            arg,
            " is neither: depart at MOMENT, or arrive by it",
        )?;
    }
    Ok(direction)
}

// Whether argument 3 asks for the departure or the arrival.
fn read_direction(rt: &(impl Env + Print), buffer: &mut [u8]) -> io::Result<Option<Direction>> {
    match read_arg(rt, buffer, 3, "depart|arrive")? {
        Some(arg) => direction_of(rt, arg),
        None => Ok(None),
    }
}

// Says why an argument is no moment.
fn say_no_moment(rt: &impl Print, arg: &[u8], why: NoMoment) -> io::Result<()> {
    let why = match why {
        NoMoment::NoForm => " is no moment: give seconds, or H:MM:SS",
        NoMoment::NoMinutes => " is no moment: minutes and seconds go from 0 to 59",
        NoMoment::TooLarge => {
            " is no moment: there are at most 4294967295 seconds, those of midnight among them"
        }
    };
    say(rt, "MOMENT", arg, why)
}

// The moment that argument 4 is.
fn read_moment(rt: &(impl Env + Print), buffer: &mut [u8]) -> io::Result<Option<u32>> {
    let Some(arg) = read_arg(rt, buffer, 4, "MOMENT")? else {
        return Ok(None);
    };
    match arguments::moment::moment_of(arg) {
        Ok(t) => Ok(Some(t)),
        Err(why) => {
            say_no_moment(rt, arg, why)?;
            Ok(None)
        }
    }
}

// The options that argument 5 and those behind it are.
fn read_options(rt: &(impl Env + Print), buffer: &mut [u8]) -> io::Result<Option<Options>> {
    let mut o = arguments::options::none();
    for i in 5..usize::MAX {
        match rt.arg(i, buffer) {
            Ok(n) => {
                let Some(more) = options::with_option(rt, o, &buffer[..n], i)? else {
                    return Ok(None);
                };
                o = more;
            }
            Err(FillError::NotPresent) => break,
            Err(FillError::TooLong) => {
                say_too_long(rt, "option")?;
                return Ok(None);
            }
        }
    }
    Ok(Some(o))
}

// What is asked between two places at a moment: the options say which midnight that moment counts from. Says so where the moment, which
// argument 4 said, does not fit.
fn read_asked(
    rt: &(impl Env + Print),
    buffer: &mut [u8],
    from: Location,
    to: Location,
    direction: Direction,
    t: u32,
) -> io::Result<Option<Question>> {
    let Some(o) = read_options(rt, buffer)? else {
        return Ok(None);
    };
    match questions::question_of(from, to, Some(direction), t, o) {
        Ok(asked) => Ok(Some(asked)),
        Err(NoQuestion::NoDirection) => Ok(None),
        Err(NoQuestion::NoMoment(why)) => {
            say_no_moment(rt, quiet_arg(rt, buffer, 4), why)?;
            Ok(None)
        }
    }
}

// What the arguments ask. `buffer` holds one argument at a time. An error is that of a write which failed: what is wrong with an argument
// could not be said.
pub fn read_query(rt: &(impl Env + Print), buffer: &mut [u8]) -> io::Result<Option<Question>> {
    let Some(from) = read_place(rt, buffer, 1, "FROM")? else {
        return Ok(None);
    };
    let Some(to) = read_place(rt, buffer, 2, "TO")? else {
        return Ok(None);
    };
    let Some(direction) = read_direction(rt, buffer)? else {
        return Ok(None);
    };
    let Some(t) = read_moment(rt, buffer)? else {
        return Ok(None);
    };
    read_asked(rt, buffer, from, to, direction, t)
}

// Whether argument 1 asks for help.
pub fn asks_help(rt: &impl Env, buffer: &mut [u8]) -> bool {
    matches!(quiet_arg(rt, buffer, 1), b"--help" | b"-h")
}
