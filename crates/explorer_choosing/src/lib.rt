// How a round begins: labels swapped, routes chosen, marks cleared.
#![tactic(auto)]

ghost use Rattle.std.specs.Prelude.{◌<◌};
ghost use Rattle.repository.specs.NetOf.{net_of};
ghost use Rattle.allocator.specs.Operations.{unmasked, refreshed};
ghost use Rattle.allocator.specs.Workspace.{Becomes};
ghost use Rattle.explorer.specs.Fixed.{Fixed};
ghost use Rattle.explorer_choosing.specs.Chosen.{chosen_at, chosen_all, opened_by};

use allocator::Workspace;
use model::{Direction, Mode};

// The routes that contain stop s: in each the first position of the stop may replace the route's mark.
fn choose_at(tables: &[u32], workspace: &mut Workspace, d: Direction, s: u32)
    requires fixed { Fixed tables.now workspace.old.stops workspace.old.routes }
    requires s_lt_stops { s < workspace.old.stops }
    ensures { Becomes (chosen_at d (net_of tables.now) s) workspace.old workspace.new }
{
    for j in repository::calls::calls_from(tables, s)..repository::calls::calls_to(tables, s) {
        let r = repository::calls::call_route(tables, j);
        let p = discovery::index_in_route(tables, j);
        workspace.activate(d, r, p);
    }
}

// From each marked stop, ascending.
pub fn choose_routes(tables: &[u32], workspace: &mut Workspace, d: Direction)
    requires fixed { Fixed tables.now workspace.old.stops workspace.old.routes }
    ensures { Becomes (chosen_all d (net_of tables.now)) workspace.old workspace.new }
{
    let mut at: usize = 0;
    while let Some(s) = workspace.next_marked(at) {
        choose_at(tables, workspace, d, s as u32);
        at = s + 1;
    }
}

// Routes chosen anew: none is to be scanned before, and in rescan mode each mark is filled again.
fn choose_anew(tables: &[u32], workspace: &mut Workspace, mode: Mode, d: Direction)
    requires fixed { Fixed tables.now workspace.old.stops workspace.old.routes }
    ensures { Becomes
        (λ x. chosen_all d (net_of tables.now)
        (unmasked workspace.old.routes (refreshed mode workspace.old.routes d x)))
        workspace.old workspace.new }
{
    workspace.begin_choosing(mode, d);
    choose_routes(tables, workspace, d);
}

// A round up to its rides. Whether any stop is marked, the caller asks before.
pub fn open_round(tables: &[u32], workspace: &mut Workspace, mode: Mode, d: Direction)
    requires fixed { Fixed tables.now workspace.old.stops workspace.old.routes }
    ensures { Becomes (opened_by mode d (net_of tables.now)) workspace.old workspace.new }
{
    workspace.swap_labels();
    choose_anew(tables, workspace, mode, d);
    workspace.clear_marks();
}
