// Whether the legs that a handheld sent are a journey that the query asks for: a yes or no from tables, query and bytes. Nothing is
// written, and no workspace is asked for.
#![tactic(auto)]

ghost use Rattle.std.specs.Prelude.{◌≡◌, true, Some, Ok};
ghost use Rattle.model.specs.Bytes.{read};
ghost use Rattle.model.specs.Places.{exists};
ghost use Rattle.repository.specs.Accepted.{Accepted};
ghost use Rattle.repository.specs.Checked.{check_of};
ghost use Rattle.repository.specs.NetOf.{net_of};
ghost use Rattle.journey.specs.Reading.{leg_from};
ghost use Rattle.handheld.specs.declared.NoVerdict.TheVariants.{Bad, Refused};
ghost use Rattle.handheld.specs.Right.{soonest as soonest_of};
ghost use Rattle.handheld.specs.Verdict.{may_begin, may_end, comes_in};
ghost use Rattle.handheld.specs.Judged.{judged};
ghost use Rattle.judge.specs.Places.{HasPlaces, verdict_on};

use handheld::{Led, NoVerdict, Verdict};
use journey::BadLeg;
use model::{Leg, Query, Refusal, TimeConstraint};

// The moment before which the first leg may not leave: any, where an arrival is asked for.
#[tactic(auto, unfolding(handheld::specs::Right::soonest))]
fn soonest(time: TimeConstraint) -> u32
    ensures { result ≡ soonest_of time }
{
    match time {
        TimeConstraint::Departure(t) => t.0,
        TimeConstraint::Arrival(_) => 0,
    }
}

// Whether a journey may begin with this leg: where a departure is asked for, with a ride.
#[tactic(auto, unfolding(handheld::specs::Verdict::may_begin))]
fn may_begin(time: TimeConstraint, g: Leg) -> bool
    ensures { result ≡ may_begin time g }
{
    match time {
        TimeConstraint::Departure(_) => judge_legs::is_ride(g.kind),
        TimeConstraint::Arrival(_) => true,
    }
}

// Whether it may end so: where an arrival is asked for, with a ride and in time.
#[tactic(auto, unfolding(handheld::specs::Verdict::may_end))]
fn may_end(time: TimeConstraint, e: Led) -> bool
    ensures { result ≡ may_end time e }
{
    match time {
        TimeConstraint::Departure(_) => true,
        TimeConstraint::Arrival(t) => e.rode && e.moment <= t.0,
    }
}

// Whether the legs lead to a destination, and may end there.
#[tactic(auto, unfolding(handheld::specs::Verdict::comes_in))]
fn comes_in(tables: &[u32], q: Query, led: Option<Led>) -> bool
    requires { HasPlaces tables.now q }
    ensures { result ≡ comes_in (net_of tables.now) q led }
{
    match led {
        Some(e) => may_end(q.time, e) && judge_paths::places::in_place(tables, q.to, e.stop),
        None => false,
    }
}

// Whether the legs are right, of which g is the first.
#[tactic(auto, using(crate::proofs::Steps::begins_wrong, crate::proofs::Steps::leaves_elsewhere, crate::proofs::Steps::right_from))]
fn is_right_from(tables: &[u32], bytes: &[u8], q: Query, g: Leg) -> bool
    requires has_places { HasPlaces tables.now q }
    requires bytes_value { leg_from bytes.now 0 ≡ Some (Ok g) }
    ensures { result ≡ verdict_on (net_of tables.now) q (read bytes.now) }
{
    let start = Led {
        stop: g.from,
        moment: soonest(q.time),
        rides: 0,
        rode: false,
    };
    let walking = raptor_query::may_walk(q.walks);
    may_begin(q.time, g)
        && judge_paths::places::in_place(tables, q.from, g.from)
        && comes_in(tables, q, judge_legs::follow(tables, bytes, walking, start))
}

// Whether the bytes are legs that are right. No legs are not.
#[tactic(auto, using(crate::proofs::Steps::none_first, crate::proofs::Steps::no_legs))]
fn is_right(tables: &[u32], bytes: &[u8], q: Query) -> bool
    requires { HasPlaces tables.now q }
    ensures { result ≡ verdict_on (net_of tables.now) q (read bytes.now) }
{
    match reader::leg_at(bytes, 0) {
        Some(Ok(g)) => is_right_from(tables, bytes, q, g),
        Some(Err(_)) | None => false,
    }
}

// What is told of a bad leg.
fn told_bad(b: BadLeg) -> NoVerdict
    ensures { result ≡ Bad b }
{
    NoVerdict::Bad(b)
}

// What is told of a refusal.
fn told_refused(r: Refusal) -> NoVerdict
    ensures { result ≡ Refused r }
{
    NoVerdict::Refused(r)
}

// `judge`, for tables that `check` found no fault in.
pub fn judge_checked(tables: &[u32], bytes: &[u8], q: Query) -> Verdict
    requires { Accepted tables.now }
    ensures { result ≡ judged (check_of tables.now) (net_of tables.now) q bytes.now }
{
    if let Err(refusal) = raptor_query::refusal(tables, q) {
        return Err(told_refused(refusal));
    }
    if let Err(bad) = journey::read(bytes) {
        return Err(told_bad(bad));
    }
    Ok(is_right(tables, bytes, q))
}

// What the depot is told, for any words, any bytes and any query.
pub fn judge(tables: &[u32], bytes: &[u8], q: Query) -> Verdict
    ensures { result ≡ judged (check_of tables.now) (net_of tables.now) q bytes.now }
{
    if let Err(fault) = check_tables::check(tables) {
        return Err(told_refused(fault));
    }
    judge_checked(tables, bytes, q)
}
