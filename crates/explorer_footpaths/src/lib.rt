// The footpaths of a round (explorer.rs), of both directions: each is applied as it is found.
#![tactic(auto)]

ghost use Rattle.std.specs.Prelude.{◌≡◌, ◌<◌, ◌≤◌, get_or};
ghost use Rattle.model.specs.declared.LegType.TheVariants.{Transfer, Walk};
ghost use Rattle.model.specs.Limits.{MOST_ROUNDS};
ghost use Rattle.model.specs.Moments.{better};
ghost use Rattle.model.specs.Footpaths.{walked};
ghost use Rattle.repository.specs.NetOf.{transfer_row, walk_row, net_of};
ghost use Rattle.repository.specs.Rows.{transfers, walks, OfStop};
ghost use Rattle.allocator.specs.Workspace.{state, best, held_labels, Becomes};
ghost use Rattle.explorer.specs.Fixed.{InRound};
ghost use Rattle.explorer.specs.Fused.{stop_work, feet_work};
ghost use Rattle.explorer.specs.Turns.{in_turn};
ghost use Rattle.explorer_footpaths.specs.Footing.{Label, Footing, Leaving, foot_by};

use allocator::{Offer, Workspace};
use explorer::Round;
use model::{Direction, LegType};
use shared::{Duration, Time};

// A stop that footpaths leave, and its label, as the rides of the round left it.
#[derive(Clone, Copy)]
pub struct Foothold {
    pub stop: u32,
    pub label: Time,
}

// ---- one footpath

// The moment at which a footpath from x comes to its other end. 0 is no moment: an arrival search
// goes back before the first one where the span is not below the label.
fn walked_at(d: Direction, x: Time, span: Duration) -> Time
    requires label { Label x.0 }
    requires span_bound { span.0 ≤ 86400 }
    ensures { result.0 ≡ walked d x.0 span.0 }
{
    match d {
        Direction::Departure => Time(x.0 + span.0),
        Direction::Arrival => {
            if span.0 < x.0 {
                return Time(x.0 - span.0);
            }
            Time(0)
        }
    }
}

// Whether a footpath from x could gain anything at the stop `to`: it takes time, so where x itself is no better than the best
// moment there, its span need not be worked out.
fn may_gain(workspace: &Workspace, round: Round, x: Time, to: u32) -> bool
    requires { to < workspace.now.stops }
    ensures { result ≡ better round.direction x.0 (get_or (best workspace.now) to 0) }
{
    let d = round.direction;
    let best = workspace.best(to);
    allocator::is_better(d, x, best)
}

// A footpath to the stop `to`, of one list or the other: `kind` is the kind of its leg.
fn explore_path(
    workspace: &mut Workspace,
    round: Round,
    kind: LegType,
    from: Foothold,
    to: u32,
    span: Duration,
)
    requires number_bound { round.number < MOST_ROUNDS }
    requires label { Label from.label.0 }
    requires to_lt_stops { to < workspace.old.stops }
    requires span_bound { span.0 ≤ 86400 }
    ensures { Becomes (foot_by workspace.old.stops round kind from (record { to = to; span = span.0 }))
        workspace.old workspace.new }
{
    let d = round.direction;
    let y = walked_at(d, from.label, span);
    if allocator::is_ahead(d, y, round.target) {
        let g = allocator::leg_of(d, kind, from.stop, from.label, to, y);
        let offer = Offer {
            stop: to,
            moment: y,
            leg: g,
        };
        workspace.apply(d, round.number, offer);
    }
}

// ---- the footpaths of a stop: a loop for each list, each called in one place, so that the compiler sees which list it is
// Stays two of each: what they share is `explore_path`, and one for both would be handed a kind and four readers of a list.

// Row j of the transfers.
fn explore_transfer(tables: &[u32], workspace: &mut Workspace, round: Round, from: Foothold, j: u32)
    requires leaving { Leaving tables.now workspace.old.stops workspace.old.routes round from.stop from.label.0 }
    requires of_stop { OfStop transfers tables.now from.stop j }
    ensures { Becomes (foot_by workspace.old.stops round Transfer from (transfer_row tables.now j))
        workspace.old workspace.new }
{
    let to = repository::footpaths::transfer_to(tables, j);
    if may_gain(workspace, round, from.label, to) {
        let span = discovery::transfer_duration(tables, j);
        explore_path(workspace, round, LegType::Transfer, from, to, span);
    }
}

// The transfers that are listed under a stop.
fn explore_transfers_at(tables: &[u32], workspace: &mut Workspace, round: Round, from: Foothold)
    requires leaving { Leaving tables.now workspace.old.stops workspace.old.routes round from.stop from.label.0 }
    ensures { Becomes
        (in_turn (foot_by workspace.old.stops round Transfer from) ((net_of tables.now).transfers from.stop))
        workspace.old workspace.new }
{
    let first = repository::footpaths::transfers_from(tables, from.stop);
    for j in first..repository::footpaths::transfers_to(tables, from.stop) {
        explore_transfer(tables, workspace, round, from, j);
    }
}

// Row j of the walks.
fn explore_walk(tables: &[u32], workspace: &mut Workspace, round: Round, from: Foothold, j: u32)
    requires leaving { Leaving tables.now workspace.old.stops workspace.old.routes round from.stop from.label.0 }
    requires of_stop { OfStop walks tables.now from.stop j }
    ensures { Becomes (foot_by workspace.old.stops round Walk from (walk_row tables.now j))
        workspace.old workspace.new }
{
    let to = repository::footpaths::walk_to(tables, j);
    if may_gain(workspace, round, from.label, to) {
        let span = discovery::walk_duration(tables, j);
        explore_path(workspace, round, LegType::Walk, from, to, span);
    }
}

// The walks that are listed under it.
fn explore_walks_at(tables: &[u32], workspace: &mut Workspace, round: Round, from: Foothold)
    requires leaving { Leaving tables.now workspace.old.stops workspace.old.routes round from.stop from.label.0 }
    ensures { Becomes
        (in_turn (foot_by workspace.old.stops round Walk from) ((net_of tables.now).walks from.stop))
        workspace.old workspace.new }
{
    let first = repository::footpaths::walks_from(tables, from.stop);
    for j in first..repository::footpaths::walks_to(tables, from.stop) {
        explore_walk(tables, workspace, round, from, j);
    }
}

// From one stop: listed transfers, then walks if allowed. Its label is read once, and is the one that
// the rides left: the footpaths of this half-round do not change it.
fn explore_stop(tables: &[u32], workspace: &mut Workspace, round: Round, s: u32)
    requires leaving { Leaving tables.now workspace.old.stops workspace.old.routes round s (get_or (held_labels workspace.old) s 0) }
    ensures { Becomes
        (stop_work round.direction (net_of tables.now) round.number round.target.0 round.walking s)
        workspace.old workspace.new }
{
    let x = workspace.held(s);
    let from = Foothold { stop: s, label: x };
    explore_transfers_at(tables, workspace, round, from);
    if round.walking {
        explore_walks_at(tables, workspace, round, from);
    }
}

// From each stop that the round's rides marked, ascending.
pub fn explore_transfers(tables: &[u32], workspace: &mut Workspace, round: Round)
    requires in_round { InRound tables.now workspace.old.stops workspace.old.routes round }
    requires footing { Footing workspace.old.stops (state workspace.old) }
    ensures { Becomes
        (feet_work round.direction (net_of tables.now) round.number round.target.0 round.walking)
        workspace.old workspace.new }
{
    let mut at: usize = 0;
    while let Some(s) = workspace.next_held(at) {
        explore_stop(tables, workspace, round, s as u32);
        at = s + 1;
    }
}
