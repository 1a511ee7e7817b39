// The way back: from the chosen stop and round the parents are followed to the start. It is walked
// twice, once for the bytes that its legs take and once to write them, and nothing is kept between:
// "Count first, then put every leg at its final place." (document 02)
#![tactic(auto)]

ghost use Rattle.std.specs.Prelude.{◌++◌, ◌≡◌, ◌≤◌, ◌<◌, length, drop};
ghost use Rattle.model.specs.Limits.{MOST_ROUNDS};
ghost use Rattle.model.specs.Back.{near as near_side, back, in_order};
ghost use Rattle.model.specs.Bytes.{write, size_of};
ghost use Rattle.allocator.specs.Layout.{Words, parents_of};
ghost use Rattle.path.specs.Step.{lowers, step_of};
ghost use Rattle.path.specs.Traced.{Traced};
ghost use Rattle.path.specs.Once.{ridden_before, placed_back};

use model::{Direction, Leg, LegType};

// Where the way back goes on: in this round, from this stop.
#[derive(Clone, Copy)]
pub struct Step {
    pub round: u32,
    pub stop: u32,
}

// The side of a leg that the search knew before.
fn near(d: Direction, g: Leg) -> u32
    ensures { result ≡ near_side d g }
{
    match d {
        Direction::Departure => g.from,
        Direction::Arrival => g.to,
    }
}

// How many rounds lower the way back goes on behind a leg: a ride lowers the round.
fn rounds_down(g: Leg) -> u32
    ensures { result ≡ lowers g.kind }
{
    match g.kind {
        LegType::Transit(_) => 1,
        LegType::Transfer | LegType::Walk => 0,
    }
}

// Where the way back goes on behind a leg of round k: it stops after a ride in round 0.
fn step_back(d: Direction, k: u32, g: Leg) -> Option<Step>
    ensures { result ≡ step_of d k g }
{
    let round = k.checked_sub(rounds_down(g))?;
    Some(Step {
        round,
        stop: near(d, g),
    })
}

// How many bytes the legs of the way back take.
pub fn size_back(words: &[u32], stops: u32, routes: u32, d: Direction, k: u32, s: u32) -> usize
    requires words { Words stops routes words.now }
    requires traced { Traced d stops (parents_of stops routes words.now) k s }
    requires k_bound { k < MOST_ROUNDS }
    ensures { result ≡ size_of (back d stops (parents_of stops routes words.now) stops k s) }
{
    let mut at = Step { round: k, stop: s };
    let mut size = 0;
    // Stays a loop: each leg says where the way back goes on, or that it ends.
    loop {
        // there always is one
        let g = allocator::parent_at(words, stops, routes, at.round, at.stop).unwrap();
        size += journey::leg_size(g);
        let Some(next) = step_back(d, at.round, g) else {
            return size;
        };
        at = next;
    }
}

// How many bytes are ridden before a leg, of those that are found before it and those that are left to find: a departure search
// finds the last leg first.
fn ridden_before(d: Direction, found: usize, left: usize) -> usize
    ensures { result ≡ ridden_before d found left }
{
    match d {
        Direction::Departure => left,
        Direction::Arrival => found,
    }
}

// The walk that writes: each leg once, as it is found, where it stays.
fn backtrack_by(
    words: &[u32],
    journey: &mut [u8],
    stops: u32,
    routes: u32,
    d: Direction,
    k: u32,
    s: u32,
    size: usize,
)
    requires words { Words stops routes words.now }
    requires traced { Traced d stops (parents_of stops routes words.now) k s }
    requires k_bound { k < MOST_ROUNDS }
    requires size_value { size ≡ size_of (back d stops (parents_of stops routes words.now) stops k s) }
    requires size_in_bounds { size ≤ length journey.old }
    ensures { journey.new
        ≡ placed_back d (back d stops (parents_of stops routes words.now) stops k s) journey.old }
{
    let mut at = Step { round: k, stop: s };
    let mut found = 0;
    // Stays a loop: each leg says where the way back goes on, or that it ends.
    loop {
        // there always is one
        let g = allocator::parent_at(words, stops, routes, at.round, at.stop).unwrap();
        let with = found + journey::leg_size(g);
        journey::write_leg(journey, ridden_before(d, found, size - with), g);
        let Some(next) = step_back(d, at.round, g) else {
            return;
        };
        at = next;
        found = with;
    }
}

// Writes the legs of the way back in riding order to the first bytes, and touches no other byte.
// Stays a match that only names the direction: the compiler then makes a loop for each of the two, and with one loop that asks at each
// leg the longest journey took 4 in 100 more.
#[tactic(auto, using(crate::proofs::Once::placed_once))]
pub fn backtrack(
    words: &[u32],
    journey: &mut [u8],
    stops: u32,
    routes: u32,
    d: Direction,
    k: u32,
    s: u32,
    size: usize,
)
    requires words { Words stops routes words.now }
    requires traced { Traced d stops (parents_of stops routes words.now) k s }
    requires k_bound { k < MOST_ROUNDS }
    requires size_value { size ≡ size_of (back d stops (parents_of stops routes words.now) stops k s) }
    requires size_in_bounds { size ≤ length journey.old }
    ensures { journey.new
        ≡ write (in_order d (back d stops (parents_of stops routes words.now) stops k s))
        ++ drop size journey.old }
{
    match d {
        Direction::Departure => backtrack_by(
            words,
            journey,
            stops,
            routes,
            Direction::Departure,
            k,
            s,
            size,
        ),
        Direction::Arrival => backtrack_by(
            words,
            journey,
            stops,
            routes,
            Direction::Arrival,
            k,
            s,
            size,
        ),
    }
}
