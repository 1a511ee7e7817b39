// Of a handheld's legs: whether a ride fits its trip. The tables say which route a trip stands in, so no other is looked at.
#![tactic(auto)]

ghost use Rattle.std.specs.Prelude.{◌≡◌, ◌<◌, ◌≤◌, ◌+◌};
ghost use Rattle.repository.specs.Accepted.{Accepted};
ghost use Rattle.repository.specs.NetOf.{net_of};
ghost use Rattle.handheld.specs.Fitting.{leaves_at, comes_at, comes_from, fits_trip, fits_ride};
ghost use Rattle.judge_rides.specs.Ridable.{Ridable, RidableAt};

use model::Leg;

// Whether the trip leaves the leg's first stop at the leg's departure, at position b.
#[tactic(auto, unfolding(handheld::specs::Fitting::leaves_at))]
fn leaves_at(tables: &[u32], r: u32, v: u32, g: Leg, b: u32) -> bool
    requires { RidableAt tables.now r v b }
    ensures { result ≡ leaves_at (net_of tables.now) r v g b }
{
    repository::routes::stop_at(tables, r, b) == g.from
        && discovery::get_departure_time(tables, v, b).0 == g.departure.0
}

// Whether it comes to the leg's last stop at the leg's arrival, at position a.
#[tactic(auto, unfolding(handheld::specs::Fitting::comes_at))]
fn comes_at(tables: &[u32], r: u32, v: u32, g: Leg, a: u32) -> bool
    requires { RidableAt tables.now r v a }
    ensures { result ≡ comes_at (net_of tables.now) r v g a }
{
    repository::routes::stop_at(tables, r, a) == g.to
        && discovery::get_arrival_time(tables, v, a).0 == g.arrival.0
}

// Whether it does so at one of the positions from `from` on.
fn comes_from(tables: &[u32], r: u32, v: u32, g: Leg, from: u32) -> bool
    requires { Ridable tables.now r v }
    ensures { result ≡ comes_from (net_of tables.now) r v g from }
{
    for a in from..repository::routes::route_len(tables, r) {
        if comes_at(tables, r, v, g, a) {
            return true;
        }
    }
    false
}

// Whether some earlier and later position of the trip fit the leg. Behind the first position that it may leave from come all those
// that it may come to behind a later one: the others need not be looked at.
fn fits_trip(tables: &[u32], r: u32, v: u32, g: Leg) -> bool
    requires { Ridable tables.now r v }
    ensures { result ≡ fits_trip (net_of tables.now) r v g }
{
    for b in 0..repository::routes::route_len(tables, r) {
        if leaves_at(tables, r, v, g, b) {
            return comes_from(tables, r, v, g, b + 1);
        }
    }
    false
}

// Whether a ride on trip v fits.
pub fn fits_ride(tables: &[u32], v: u32, g: Leg) -> bool
    requires { Accepted tables.now }
    ensures { result ≡ fits_ride (net_of tables.now) v g }
{
    v < repository::routes::trip_count(tables)
        && fits_trip(tables, repository::routes::route_of(tables, v), v, g)
}
