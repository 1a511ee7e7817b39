// The round loop (mod.rs): the search between two lists of stops, equal to the model's.
#![tactic(auto)]

ghost use Rattle.std.specs.Prelude.{◌≡◌, ◌<◌};
ghost use Rattle.model.specs.Limits.{MOST_ROUNDS};
ghost use Rattle.model.specs.Round.{aim, listed};
ghost use Rattle.model.specs.Search.{search as search_of};
ghost use Rattle.model.specs.Work.{state_of};
ghost use Rattle.repository.specs.NetOf.{net_of};
ghost use Rattle.allocator.specs.Layout.{Sized, view};
ghost use Rattle.allocator.specs.Does.{Usable};
ghost use Rattle.allocator.specs.Operations.{holding};
ghost use Rattle.allocator.specs.Repeated.{started_all};
ghost use Rattle.allocator.specs.Workspace.{state, best, SameSlices, Becomes};
ghost use Rattle.explorer.specs.Fused.{rides_work, feet_work};
ghost use Rattle.explorer_choosing.specs.Chosen.{opened_by};
ghost use Rattle.explorer_footpaths.specs.Footing.{Footing};
ghost use Rattle.raptor_rounds.specs.Tabled.{Tabled};
ghost use Rattle.raptor_rounds.specs.Asked.{task_between, Begun};
ghost use Rattle.raptor_rounds.specs.OneRound.{round_work, Ready};
ghost use Rattle.base.specs.Below.{Below};
ghost use Rattle.raptor_rounds.specs.Targets.{taken};

use allocator::Workspace;
use explorer::Round;
use model::{Direction, Mode, Target};
use shared::Time;

// The target after goal s: the goal's best moment is taken where it is strictly better.
fn aim_at(workspace: &Workspace, d: Direction, k: u32, s: u32, aimed: Target) -> Target
    requires { s < workspace.now.stops }
    ensures { result ≡ taken d k (best workspace.now) s aimed }
{
    let t = workspace.best(s);
    if allocator::is_better(d, t, aimed.time) {
        return Target {
            stop: s,
            round: k,
            time: t,
        };
    }
    aimed
}

// The end of a round: the goals in list order, strict improvements only.
fn scan_targets(workspace: &Workspace, d: Direction, k: u32, goals: &[u32], aimed: Target) -> Target
    requires { Below workspace.now.stops goals.now }
    ensures { result ≡ aim d k (best workspace.now) goals.now aimed }
{
    let mut seen = aimed;
    for &s in goals {
        seen = aim_at(workspace, d, k, s, seen);
    }
    seen
}

// The end of a round: the target record, updated where it stands.
fn update_target(workspace: &Workspace, d: Direction, k: u32, goals: &[u32], target: &mut Target)
    requires { Below workspace.now.stops goals.now }
    ensures { target.new ≡ aim d k (best workspace.now) goals.now target.old }
{
    *target = scan_targets(workspace, d, k, goals, *target);
}

// The target after a round: the record is lent to the scan.
fn target_after(workspace: &Workspace, d: Direction, k: u32, goals: &[u32], aimed: Target) -> Target
    requires { Below workspace.now.stops goals.now }
    ensures { result ≡ aim d k (best workspace.now) goals.now aimed }
{
    let mut target = aimed;
    update_target(workspace, d, k, goals, &mut target);
    target
}

// Labels and marks every start stop.
fn start_all(workspace: &mut Workspace, starts: &[u32], t: Time)
    requires { Below workspace.old.stops starts.now }
    ensures { Becomes (started_all t.0 starts.now) workspace.old workspace.new }
{
    for &s in starts {
        workspace.start(s, t);
    }
}

// What a search is asked, beside where it starts and ends; with the sizes of its tables and of its workspace.
#[derive(Clone, Copy)]
pub struct Ask {
    pub stops: u32,
    pub routes: u32,
    pub direction: Direction,
    pub mode: Mode,
    pub walking: bool,
    pub moment: Time,
}

// The first half: open the round, and ride.
fn ride_half(tables: &[u32], workspace: &mut Workspace, round: Round, mode: Mode)
    requires tabled { Tabled tables.now workspace.old.stops workspace.old.routes }
    requires ready { Ready round.direction mode round.walking (net_of tables.now) round.number round.target.0
        (state workspace.old) }
    ensures { Becomes
        (λ x. rides_work round.direction (net_of tables.now) round.number round.target.0
        (opened_by mode round.direction (net_of tables.now) x))
        workspace.old workspace.new }
{
    explorer_choosing::open_round(tables, workspace, mode, round.direction);
    explorer_rides::explore_routes(tables, workspace, round);
}

// The second half: hold what the rides left, and walk.
fn foot_half(tables: &[u32], workspace: &mut Workspace, round: Round)
    requires tabled { Tabled tables.now workspace.old.stops workspace.old.routes }
    requires number_bound { round.number < MOST_ROUNDS }
    requires footing { Footing workspace.old.stops (holding (state workspace.old)) }
    ensures { Becomes
        (λ x. feet_work round.direction (net_of tables.now) round.number round.target.0 round.walking (holding x))
        workspace.old workspace.new }
{
    workspace.hold();
    explorer_footpaths::explore_transfers(tables, workspace, round);
}

// One round, both halves, and its end: the target after it.
fn next_round(
    tables: &[u32],
    workspace: &mut Workspace,
    k: u32,
    a: Ask,
    goals: &[u32],
    aimed: Target,
) -> Target
    requires tabled { Tabled tables.now workspace.old.stops workspace.old.routes }
    requires ready { Ready a.direction a.mode a.walking (net_of tables.now) k aimed.time.0 (state workspace.old) }
    requires below { Below workspace.old.stops goals.now }
    ensures does { Becomes
        (round_work a.direction a.mode a.walking (net_of tables.now) k aimed.time.0)
        workspace.old workspace.new }
    ensures value { result ≡ aim a.direction k (best workspace.new) goals.now aimed }
{
    let round = Round {
        number: k,
        direction: a.direction,
        target: aimed.time,
        walking: a.walking,
    };
    ride_half(tables, workspace, round, a.mode);
    foot_half(tables, workspace, round);
    target_after(workspace, a.direction, k, goals, aimed)
}

// The rounds, fewer than 15 where nothing is marked.
fn rounds(
    tables: &[u32],
    workspace: &mut Workspace,
    a: Ask,
    starts: &[u32],
    goals: &[u32],
) -> Target
    requires { Begun tables.now a starts.now goals.now workspace.old }
    ensures result_after { state_of (state workspace.new) result
        ≡ search_of (net_of tables.now) (task_between a starts.now goals.now) listed }
    ensures same { SameSlices workspace.old workspace.new }
{
    let mut aimed = Target {
        stop: 0,
        round: 0,
        time: Time(0),
    };
    for k in 0..repository::limits::MOST_ROUNDS {
        if !workspace.any_marked() {
            workspace.swap_labels();
            return aimed;
        }
        aimed = next_round(tables, workspace, k, a, goals, aimed);
    }
    aimed
}

// The search between two lists of stops, on searchable tables: it leaves the workspace in the state in which the model's search
// ends, and gives its target.
pub fn search(
    tables: &[u32],
    words: &mut [u32],
    marks: &mut [u64],
    a: Ask,
    starts: &[u32],
    goals: &[u32],
) -> Target
    requires tabled { Tabled tables.now a.stops a.routes }
    requires sized { Sized a.stops a.routes words.old marks.old }
    requires below { Below a.stops starts.now }
    requires below_2 { Below a.stops goals.now }
    requires moment_nonzero { 0 < a.moment.0 }
    ensures result_after { state_of (view a.stops a.routes words.new marks.new) result
        ≡ search_of (net_of tables.now) (task_between a starts.now goals.now) listed }
    ensures usable { Usable a.stops a.routes words.new marks.new }
{
    let mut workspace = Workspace::new(words, marks, a.stops, a.routes, a.direction);
    start_all(&mut workspace, starts, a.moment);
    rounds(tables, &mut workspace, a, starts, goals)
}
