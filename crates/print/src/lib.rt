// What the programs print of an answer: numbers, legs, and the legs that journey bytes hold. An error is that of the write which failed;
// what was printed before it stays printed.
#![tactic(auto)]

ghost use Rattle.std.specs.Prelude.{◌≡◌, ◌≤◌, length};
ghost use Rattle.std.specs.Iterator.{at_most};
ghost use Rattle.model.specs.Bytes.{leg_size};

use model::{Leg, LegType};
use shared::Time;
use std::io;

// Bytes as they are, text or not.
pub fn text(rt: &impl Print, bytes: &[u8]) -> io::Result<()> {
    rt.write_all(bytes)
}

pub fn number(rt: &impl Print, n: u64) -> io::Result<()> {
    rt.print(n)
}

// A space, then the number.
pub fn field(rt: &impl Print, n: u32) -> io::Result<()> {
    print!(rt; " {n}")
}

// Kind, from, to, the trip of a ride, departure, arrival. A footpath has `none` where a ride has its trip.
pub fn leg(rt: &impl Print, g: Leg, none: &[u8]) -> io::Result<()> {
    let Leg {
        from,
        to,
        departure: Time(departure),
        arrival: Time(arrival),
        kind,
    } = g;
    match kind {
        LegType::Transit(trip) => print!(rt; "ride {from} {to} {trip}")?,
        LegType::Transfer => {
            print!(rt; "transfer {from} {to}")?;
            text(rt, none)?;
        }
        LegType::Walk => {
            print!(rt; "walk {from} {to}")?;
            text(rt, none)?;
        }
    }
    print!(rt; " {departure} {arrival}")
}

// How many bytes a leg takes.
pub fn size(g: Leg) -> usize
    ensures value { result ≡ leg_size g.kind }
    ensures lower_bound { 1 ≤ result }
    ensures upper_bound { result ≤ 21 }
{
    journey::leg_size(g)
}

// The legs that bytes begin with: up to their end, or to the first that is no whole leg.
#[derive(Clone, Copy)]
pub struct WholeLegs<'a> {
    pub rest: &'a [u8],
}

impl<'a> Iterator for WholeLegs<'a> {
    type Item = Leg;

    ghost use Rattle.print.specs.Whole.{GivesWhole};

    ghost next_gives = { GivesWhole };

    ghost remaining = { λ s. at_most (length s.rest.now) };

    fn next(&mut self) -> Option<Leg> {
        match journey::read_leg(self.rest, 0) {
            Some(Ok(leg)) => {
                let (_, behind) = self.rest.split_at(size(leg));
                self.rest = behind;
                Some(leg)
            }
            Some(Err(_)) => None,
            None => None,
        }
    }
}

// Each leg of the bytes between `before` and `after`.
pub fn legs(
    rt: &impl Print,
    bytes: &[u8],
    before: &[u8],
    none: &[u8],
    after: &[u8],
) -> io::Result<()> {
    for g in (WholeLegs { rest: bytes }) {
        text(rt, before)?;
        leg(rt, g, none)?;
        text(rt, after)?;
    }
    Ok(())
}
