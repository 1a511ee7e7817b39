// An answer in words: the journey, leg by leg, or the number of a refusal and what it means. An error is that of the write which failed.
#![tactic(auto)]

use arguments::moment::Clock;
use model::{Answer, Error, Found, Leg, LegType, TimeConstraint};
use network::Ready;
use print::WholeLegs;
use questions::Question;
use shared::Time;
use std::{fmt, io};

// A stop and when one is there.
#[derive(Clone, Copy)]
struct Stay {
    stop: u32,
    clock: Clock,
}

impl fmt::Display for Stay {
    fn fmt<W: fmt::Write>(&self, f: &mut fmt::Formatter<W>) -> fmt::Result {
        let Stay { stop, clock } = *self;
        write!(f, "stop {stop} at {clock}")
    }
}

fn stay_at(stop: u32, at: Time, midnight: u32) -> Stay {
    Stay {
        stop,
        clock: arguments::moment::clock_of(at.0, midnight),
    }
}

fn print_leg(rt: &impl Print, g: Leg, midnight: u32) -> io::Result<()> {
    match g.kind {
        LegType::Transit(trip) => print!(rt; "ride trip {trip}")?,
        LegType::Transfer => print!(rt; "transfer")?,
        LegType::Walk => print!(rt; "walk")?,
    }
    let from = stay_at(g.from, g.departure, midnight);
    let to = stay_at(g.to, g.arrival, midnight);
    println!(rt; " from {from} to {to}")
}

// How many rides the legs are.
fn count_rides(legs: WholeLegs<'_>) -> usize {
    legs.filter(|g| matches!(g.kind, LegType::Transit(_)))
        .count()
}

// A journey's two ends, then which stops were meant, then each leg.
fn print_journey(
    rt: &impl Print,
    ready: Ready<'_>,
    bytes: &[u8],
    round: u32,
    asked: Question,
) -> io::Result<()> {
    let legs = WholeLegs { rest: bytes };
    let mut others = legs;
    let Some(first) = others.next() else {
        return Ok(());
    };
    let last = others.last().unwrap_or(first);
    let from = stay_at(first.from, first.departure, asked.midnight);
    let to = stay_at(last.to, last.arrival, asked.midnight);
    let rides = count_rides(legs);
    let plural = if rides == 1 { "" } else { "s" };
    println!(rt; "Leave {from}, arrive at {to}: {rides} ride{plural}, round {round}.")?;
    refusing::meant::print_meant(rt, ready.tables, asked.query)?;
    for g in legs {
        print_leg(rt, g, asked.midnight)?;
    }
    Ok(())
}

// The journey that stands in `journey`: as it stands there where `bytes` are asked for, else in words.
fn print_found(
    rt: &impl Print,
    ready: Ready<'_>,
    journey: &[u8],
    found: Found,
    asked: Question,
) -> io::Result<()> {
    match journey.get(..found.length) {
        Some(bytes) if asked.bytes => print::text(rt, bytes),
        Some(bytes) => print_journey(rt, ready, bytes, found.round, asked),
        None => Ok(()),
    }
}

// 10, and what no journey is.
fn print_no_route(rt: &impl Print, time: TimeConstraint) -> io::Result<()> {
    let none = match time {
        TimeConstraint::Departure(_) => {
            "a journey that departs begins with a ride, and a walk alone is none"
        }
        TimeConstraint::Arrival(_) => {
            "a journey that arrives ends with a ride, and a walk alone is none"
        }
    };
    println!(rt; "10: no route found; {none}")
}

// Why there is no journey.
fn print_error(rt: &impl Print, ready: Ready<'_>, error: Error, asked: Question) -> io::Result<()> {
    match error {
        Error::Refused(refusal) => {
            let number = u32::from(refusal);
            print!(rt; "{number}")?;
            refusing::print_meaning(rt, ready, number, asked)
        }
        Error::NoRouteFound => {
            print_no_route(rt, asked.query.time)?;
            refusing::meant::print_meant(rt, ready.tables, asked.query)
        }
        Error::FailedToBuildRoute => println!(rt; "11: a chosen stop but no leg"),
        Error::TooLong(length) => {
            println!(rt; "12: journey longer than its buffer: it takes {length} bytes")
        }
    }
}

// What is told of what was asked on the tables that are ready; the journey stands in `journey`.
pub fn tell_asked(
    rt: &impl Print,
    ready: Ready<'_>,
    journey: &[u8],
    told: Option<Answer>,
    asked: Question,
) -> io::Result<()> {
    match told {
        Some(Ok(found)) => print_found(rt, ready, journey, found, asked),
        Some(Err(error)) => print_error(rt, ready, error, asked),
        None => println!(rt;
            "these tables need more room than this program has: link the library (see README)"
        ),
    }
}
