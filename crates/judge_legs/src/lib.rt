// Legs followed one by one, from where one is and when. The bytes are read through a reader.
#![tactic(auto)]

ghost use Rattle.std.specs.Prelude.{◌≡◌, ◌≤◌};
ghost use Rattle.model.specs.Bytes.{read};
ghost use Rattle.model.specs.Limits.{MOST_ROUNDS};
ghost use Rattle.repository.specs.Accepted.{Accepted};
ghost use Rattle.repository.specs.NetOf.{net_of};
ghost use Rattle.handheld.specs.Right.{is_ride};
ghost use Rattle.handheld.specs.Fitting.{fits_leg};
ghost use Rattle.handheld.specs.Verdict.{rides_with, follows as may_follow, leg_on};
ghost use Rattle.judge_legs.specs.Reading.{follow_on};

use handheld::Led;
use model::{Leg, LegType};
use reader::Reader;

// "with 1 to 15 rides"
pub const MOST_RIDES: u32 = 15;

// Whether a leg is a ride.
#[tactic(auto, unfolding(handheld::specs::Right::is_ride))]
pub fn is_ride(kind: LegType) -> bool
    ensures { result ≡ is_ride kind }
{
    matches!(kind, LegType::Transit(_))
}

// How many rides there are with the leg, after k.
#[tactic(auto, unfolding(handheld::specs::Verdict::rides_with))]
fn rides_with(kind: LegType, k: u32) -> u32
    requires { k ≤ MOST_ROUNDS }
    ensures { result ≡ rides_with kind k }
{
    match kind {
        LegType::Transit(_) => k + 1,
        LegType::Transfer | LegType::Walk => k,
    }
}

// Whether the leg fits the tables.
#[tactic(auto, unfolding(handheld::specs::Fitting::fits_leg, judge_paths::specs::Paths::paths_of))]
fn fits_leg(tables: &[u32], walking: bool, g: Leg) -> bool
    requires { Accepted tables.now }
    ensures { result ≡ fits_leg (net_of tables.now) walking g.kind g }
{
    match g.kind {
        LegType::Transit(v) => judge_rides::fits_ride(tables, v, g),
        LegType::Transfer => judge_paths::paths::fits_path(tables, false, g),
        LegType::Walk => walking && judge_paths::paths::fits_path(tables, true, g),
    }
}

// Whether the leg may follow: it leaves where one is, not before, is not a ride too many, and fits the tables.
#[tactic(auto, unfolding(handheld::specs::Verdict::follows))]
fn follows(tables: &[u32], walking: bool, g: Leg, e: Led) -> bool
    requires accepted { Accepted tables.now }
    requires rides_bound { e.rides ≤ MOST_ROUNDS }
    ensures { result ≡ may_follow (net_of tables.now) walking g e }
{
    g.from == e.stop
        && e.moment <= g.departure.0
        && rides_with(g.kind, e.rides) <= MOST_RIDES
        && fits_leg(tables, walking, g)
}

// One leg on, if it may follow.
#[tactic(auto, unfolding(handheld::specs::Verdict::leg_on, handheld::specs::Verdict::led))]
fn onward(tables: &[u32], walking: bool, g: Leg, e: Led) -> Option<Led>
    requires accepted { Accepted tables.now }
    requires rides_bound { e.rides ≤ MOST_ROUNDS }
    ensures { result ≡ leg_on (net_of tables.now) walking g e }
{
    if !follows(tables, walking, g, e) {
        return None;
    }
    Some(Led {
        stop: g.to,
        moment: g.arrival.0,
        rides: rides_with(g.kind, e.rides),
        rode: is_ride(g.kind),
    })
}

// Where all the legs lead, if each may follow. Bytes that are no legs lead nowhere.
pub fn follow(tables: &[u32], bytes: &[u8], walking: bool, e: Led) -> Option<Led>
    requires accepted { Accepted tables.now }
    requires rides_bound { e.rides ≤ MOST_ROUNDS }
    ensures { result ≡ follow_on (net_of tables.now) walking (read bytes.now) e }
{
    let mut legs = Reader::open(bytes, 0);
    let mut led = e;
    while let Some(leg) = legs.next() {
        led = onward(tables, walking, leg.ok()?, led)?;
    }
    Some(led)
}
