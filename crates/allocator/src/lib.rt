// The workspace of a search: the only crate that knows where a label, a mark or a parent stands.
// With so many stops and so many routes, `words` holds the previous labels (stops), the current labels
// (stops), the best moments (stops), the held labels (stops), the routes' marks (routes) and the parents
// (15 * stops rows of 6 words).
// `marks` holds the marks of the stops, of the stops as held, and of the routes that a round scans,
// each in whole words of 64.
#![tactic(auto)]

ghost use Rattle.std.specs.Prelude.{◌≡◌, ◌+◌, ◌*◌, ◌<◌, ◌≤◌, length, get_or, None};
ghost use Rattle.marks.specs.Marks.{first_of};
ghost use Rattle.model.specs.Limits.{MOST_STOPS, MOST_ROUTES, MOST_ROUNDS};
ghost use Rattle.model.specs.Choosing.{sooner};
ghost use Rattle.model.specs.Lists.{any_of};
ghost use Rattle.model.specs.Legs.{leg_of};
ghost use Rattle.model.specs.Moments.{better, ahead};
ghost use Rattle.allocator.specs.Sections.{sect, overlaid};
ghost use Rattle.allocator.specs.Rows.{row_kind, row_trip, leg_row, row_leg, decoded};
ghost use Rattle.allocator.specs.Layout.{pages, words_room, marks_room, Words, Marks, Sized, prev_of, curr_of, best_of, held_of};
ghost use Rattle.allocator.specs.Layout.{active_of, parents_of, mark_of, held_mark_of, mask_of};
ghost use Rattle.allocator.specs.Does.{Usable};
ghost use Rattle.allocator.specs.Operations.{blank, cleared, started, swapped, unmasked, refreshed, activated, unmarked};
ghost use Rattle.allocator.specs.Operations.{holding, stored, applied};
ghost use Rattle.allocator.specs.Marked.{after};

use model::{Direction, Leg, LegType, Mode};
use shared::Time;

// What a route's mark holds before a departure search, and each word of an absent parent.
const MAX: u32 = shared::MAX;

// The words and the marks that a search was lent, and of how many stops and routes they hold the state. They hold nothing beside it.
#[derive(Drop)]
pub struct Workspace<'a> {
    pub words: &'a mut [u32],
    pub marks: &'a mut [u64],
    pub stops: u32,
    pub routes: u32,
    ghost usable: { Usable stops routes words.now marks.now },
}

// What a proposal offers: the stop is reached at the moment by the leg.
#[derive(Clone, Copy)]
pub struct Offer {
    pub stop: u32,
    pub moment: Time,
    pub leg: Leg,
}

// ---- how much room

// How many words hold the marks of `count` stops or routes.
fn pages_of(count: u32) -> usize
    ensures { result ≡ pages count }
{
    (count as usize + 63) / 64
}

// How many words the workspace takes.
pub fn words_room(stops: u32, routes: u32) -> usize
    ensures { result ≡ words_room stops routes }
{
    94 * stops as usize + routes as usize
}

// How many words of marks it takes.
pub fn marks_room(stops: u32, routes: u32) -> usize
    ensures { result ≡ marks_room stops routes }
{
    2 * pages_of(stops) + pages_of(routes)
}

// ---- tests, and the leg of a proposal

// Whether the moment t is strictly better than the best moment b. A moment 0 is none.
pub fn is_better(d: Direction, t: Time, b: Time) -> bool
    ensures { result ≡ better d t.0 b.0 }
{
    match d {
        Direction::Departure => {
            if t.0 == 0 {
                return false;
            }
            if b.0 == 0 {
                return t.0 < MAX;
            }
            t.0 < b.0
        }
        Direction::Arrival => b.0 < t.0,
    }
}

// Whether the moment t is better than what the target has seen; an arrival search has no such test.
pub fn is_ahead(d: Direction, t: Time, target: Time) -> bool
    ensures { result ≡ ahead d t.0 target.0 }
{
    match d {
        Direction::Departure => is_better(d, t, target),
        Direction::Arrival => true,
    }
}

// The leg between stop s at x, which the search knew before, and the stop `to` at y: earlier first.
pub fn leg_of(d: Direction, kind: LegType, s: u32, x: Time, to: u32, y: Time) -> Leg
    ensures { result ≡ leg_of d kind s x.0 to y.0 }
{
    match d {
        Direction::Departure => Leg {
            from: s,
            to,
            departure: x,
            arrival: y,
            kind,
        },
        Direction::Arrival => Leg {
            from: to,
            to: s,
            departure: y,
            arrival: x,
            kind,
        },
    }
}

// Whether position p replaces a route's mark.
fn is_sooner(d: Direction, p: u32, mark: u32) -> bool
    ensures { result ≡ sooner d p mark }
{
    match d {
        Direction::Departure => p < mark,
        Direction::Arrival => mark < p,
    }
}

// How a route's mark is filled.
fn blank_of(d: Direction) -> u32
    ensures { result ≡ blank d }
{
    match d {
        Direction::Departure => MAX,
        Direction::Arrival => 0,
    }
}

// ---- readers of the words or of the marks alone. They stay beside the methods of a workspace: each asks for `Words` or `Marks`, and a
// workspace is more.

// The label of stop s in the round before.
pub fn prev_at(words: &[u32], stops: u32, routes: u32, s: u32) -> Time
    requires words { Words stops routes words.now }
    requires s_lt_stops { s < stops }
    ensures { result.0 ≡ get_or (prev_of stops routes words.now) s 0 }
{
    let i = s as usize;
    Time(words[i])
}

// The label of stop s in this round.
pub fn curr_at(words: &[u32], stops: u32, routes: u32, s: u32) -> Time
    requires words { Words stops routes words.now }
    requires s_lt_stops { s < stops }
    ensures { result.0 ≡ get_or (curr_of stops routes words.now) s 0 }
{
    let i = stops as usize + s as usize;
    Time(words[i])
}

// The best moment of stop s.
pub fn best_at(words: &[u32], stops: u32, routes: u32, s: u32) -> Time
    requires words { Words stops routes words.now }
    requires s_lt_stops { s < stops }
    ensures { result.0 ≡ get_or (best_of stops routes words.now) s 0 }
{
    let i = 2 * (stops as usize) + s as usize;
    Time(words[i])
}

// The label of stop s as this round's rides left it.
pub fn held_at(words: &[u32], stops: u32, routes: u32, s: u32) -> Time
    requires words { Words stops routes words.now }
    requires s_lt_stops { s < stops }
    ensures { result.0 ≡ get_or (held_of stops routes words.now) s 0 }
{
    let i = 3 * (stops as usize) + s as usize;
    Time(words[i])
}

// The mark of route r: from which position the route is scanned.
pub fn active_at(words: &[u32], stops: u32, routes: u32, r: u32) -> u32
    requires words { Words stops routes words.now }
    requires r_lt_routes { r < routes }
    ensures { result ≡ get_or (active_of stops routes words.now) r 0 }
{
    let i = 4 * (stops as usize) + r as usize;
    words[i]
}

// The first marked stop at or after `from`.
pub fn next_marked(marks: &[u64], stops: u32, routes: u32, from: usize) -> Option<usize>
    requires { Marks stops routes marks.now }
    ensures { result ≡ first_of (after from (mark_of stops routes marks.now)) }
{
    let p = pages_of(stops);
    marks::next_mark(&marks[0..p], from, stops as usize)
}

// The first stop at or after `from` that the round's rides marked.
pub fn next_held(marks: &[u64], stops: u32, routes: u32, from: usize) -> Option<usize>
    requires { Marks stops routes marks.now }
    ensures { result ≡ first_of (after from (held_mark_of stops routes marks.now)) }
{
    let p = pages_of(stops);
    let e = 2 * p;
    marks::next_mark(&marks[p..e], from, stops as usize)
}

// The first route at or after `from` that the round scans.
pub fn next_route(marks: &[u64], stops: u32, routes: u32, from: usize) -> Option<usize>
    requires { Marks stops routes marks.now }
    ensures { result ≡ first_of (after from (mask_of stops routes marks.now)) }
{
    let a = 2 * pages_of(stops);
    let e = a + pages_of(routes);
    marks::next_mark(&marks[a..e], from, routes as usize)
}

// Whether a stop is marked: a search ends where none is.
pub fn any_marked(marks: &[u64], stops: u32, routes: u32) -> bool
    requires { Marks stops routes marks.now }
    ensures { result ≡ any_of (mark_of stops routes marks.now) }
{
    next_marked(marks, stops, routes, 0).is_some()
}

// ---- a row of the parents

// Where the parent of stop s in round k stands. The one product of two numbers is here.
fn row_at(stops: u32, routes: u32, k: u32, s: u32) -> usize
    requires stops_bound { (stops ≤ MOST_STOPS) × (routes ≤ MOST_ROUTES) }
    requires s_lt_stops { s < stops }
    requires k_bound { k < MOST_ROUNDS }
    ensures value { result ≡ 4 * stops + routes + (k * stops + s) * 6 }
    ensures result_bound { result + 6 ≤ 94 * stops + routes }
{
    4 * (stops as usize) + routes as usize + ((k as usize) * (stops as usize) + s as usize) * 6
}

// The leg in the row that begins at word i.
fn leg_at(words: &[u32], i: usize, kind: LegType) -> Leg
    requires { i + 6 ≤ length words.now }
    ensures { result ≡ row_leg kind (sect i 6 words.now) }
{
    Leg {
        from: words[i + 1],
        to: words[i + 2],
        departure: Time(words[i + 4]),
        arrival: Time(words[i + 5]),
        kind,
    }
}

// The parent in the row that begins at word i. A word that is no kind stands for none.
fn parent_in(words: &[u32], i: usize) -> Option<Leg>
    requires { i + 6 ≤ length words.now }
    ensures { result ≡ decoded (sect i 6 words.now) }
{
    match words[i] {
        1 => Some(leg_at(words, i, LegType::Transit(words[i + 3]))),
        2 => Some(leg_at(words, i, LegType::Transfer)),
        3 => Some(leg_at(words, i, LegType::Walk)),
        _ => None,
    }
}

// The leg by which stop s was reached in round k, if it was.
pub fn parent_at(words: &[u32], stops: u32, routes: u32, k: u32, s: u32) -> Option<Leg>
    requires words { Words stops routes words.now }
    requires s_lt_stops { s < stops }
    requires k_bound { k < MOST_ROUNDS }
    ensures { result ≡ get_or (parents_of stops routes words.now) (k * stops + s) None }
{
    parent_in(words, row_at(stops, routes, k, s))
}

// The first word of a row.
fn kind_word(kind: LegType) -> u32
    ensures { result ≡ row_kind kind }
{
    match kind {
        LegType::Transit(_) => 1,
        LegType::Transfer => 2,
        LegType::Walk => 3,
    }
}

// A footpath has no trip.
fn trip_word(kind: LegType) -> u32
    ensures { result ≡ row_trip kind }
{
    match kind {
        LegType::Transit(trip) => trip,
        LegType::Transfer => 0,
        LegType::Walk => 0,
    }
}

// Writes the row of a leg from word i on.
fn put_leg(words: &mut [u32], i: usize, g: Leg)
    requires { i + 6 ≤ length words.old }
    ensures { words.new ≡ overlaid i (leg_row g) words.old }
{
    let kind = g.kind;
    words[i] = kind_word(kind);
    words[i + 1] = g.from;
    words[i + 2] = g.to;
    words[i + 3] = trip_word(kind);
    words[i + 4] = g.departure.0;
    words[i + 5] = g.arrival.0;
}

// ---- the operations. Each leaves a workspace that holds nothing beside the state, so the state that it leaves is all that there is to
// say (`becomes_unique`).
impl<'a> Workspace<'a> {
    ghost use Rattle.allocator.specs.Workspace.{state, prev, curr, best, held_labels, active, mark, held_mark, mask, Becomes, Over};

    // Every search begins with a new workspace, whatever was in the words and the marks: no label, no mark, no parent.
    pub fn new(
        words: &'a mut [u32],
        marks: &'a mut [u64],
        stops: u32,
        routes: u32,
        d: Direction,
    ) -> Workspace<'a>
        requires { Sized stops routes words.old marks.old }
        ensures holds { state result ≡ cleared stops routes d }
        ensures over { Over words.entry marks.entry stops routes result }
    {
        let a = 4 * (stops as usize);
        let b = a + routes as usize;
        let e = b + 90 * (stops as usize);
        let p = 2 * pages_of(stops);
        let q = p + pages_of(routes);
        words[0..a].fill(0);
        words[a..b].fill(blank_of(d));
        words[b..e].fill(MAX);
        marks[0..q].fill(0);
        Workspace {
            words,
            marks,
            stops,
            routes,
        }
    }

    // The label of stop s in the round before.
    pub fn prev(&self, s: u32) -> Time
        requires { s < self.now.stops }
        ensures { result.0 ≡ get_or (prev self.now) s 0 }
    {
        prev_at(self.words, self.stops, self.routes, s)
    }

    // The label of stop s in this round.
    pub fn curr(&self, s: u32) -> Time
        requires { s < self.now.stops }
        ensures { result.0 ≡ get_or (curr self.now) s 0 }
    {
        curr_at(self.words, self.stops, self.routes, s)
    }

    // The best moment of stop s.
    pub fn best(&self, s: u32) -> Time
        requires { s < self.now.stops }
        ensures { result.0 ≡ get_or (best self.now) s 0 }
    {
        best_at(self.words, self.stops, self.routes, s)
    }

    // The label of stop s as this round's rides left it.
    pub fn held(&self, s: u32) -> Time
        requires { s < self.now.stops }
        ensures { result.0 ≡ get_or (held_labels self.now) s 0 }
    {
        held_at(self.words, self.stops, self.routes, s)
    }

    // The mark of route r: from which position the route is scanned.
    pub fn active(&self, r: u32) -> u32
        requires { r < self.now.routes }
        ensures { result ≡ get_or (active self.now) r 0 }
    {
        active_at(self.words, self.stops, self.routes, r)
    }

    // The first marked stop at or after `from`.
    pub fn next_marked(&self, from: usize) -> Option<usize>
        ensures { result ≡ first_of (after from (mark self.now)) }
    {
        next_marked(self.marks, self.stops, self.routes, from)
    }

    // The first stop at or after `from` that the round's rides marked.
    pub fn next_held(&self, from: usize) -> Option<usize>
        ensures { result ≡ first_of (after from (held_mark self.now)) }
    {
        next_held(self.marks, self.stops, self.routes, from)
    }

    // The first route at or after `from` that the round scans.
    pub fn next_route(&self, from: usize) -> Option<usize>
        ensures { result ≡ first_of (after from (mask self.now)) }
    {
        next_route(self.marks, self.stops, self.routes, from)
    }

    // Whether a stop is marked: a search ends where none is.
    pub fn any_marked(&self) -> bool
        ensures { result ≡ any_of (mark self.now) }
    {
        any_marked(self.marks, self.stops, self.routes)
    }

    // A start stop gets the query moment as current label and a mark. Its best moment stays absent.
    pub fn start(&mut self, s: u32, t: Time)
        requires { s < self.old.stops }
        ensures { Becomes (started s t.0) self.old self.new }
    {
        let at = self.stops as usize + s as usize;
        self.words[at] = t.0;
        marks::set_mark(self.marks, s as usize);
    }

    // The current labels become the previous ones, and no stop has a current label.
    pub fn swap_labels(&mut self)
        ensures { Becomes (swapped self.old.stops) self.old self.new }
    {
        let a = self.stops as usize;
        let e = 2 * a;
        self.words.copy_within(a..e, 0);
        self.words[a..e].fill(0);
    }

    // Fills the routes' marks again, where the mode asks for it before every round.
    pub fn refill(&mut self, mode: Mode, d: Direction)
        ensures { Becomes (refreshed mode self.old.routes d) self.old self.new }
    {
        let a = 4 * self.stops as usize;
        let e = a + self.routes as usize;
        match mode {
            Mode::Source => {}
            Mode::Rescan => self.words[a..e].fill(blank_of(d)),
        }
    }

    // No route is to be scanned.
    pub fn clear_mask(&mut self)
        ensures { Becomes (unmasked self.old.routes) self.old self.new }
    {
        let a = 2 * pages_of(self.stops);
        let e = a + pages_of(self.routes);
        self.marks[a..e].fill(0);
    }

    // Before routes are chosen.
    pub fn begin_choosing(&mut self, mode: Mode, d: Direction)
        ensures { Becomes (λ w. unmasked self.old.routes (refreshed mode self.old.routes d w)) self.old self.new }
    {
        self.refill(mode, d);
        self.clear_mask();
    }

    // A route's mark moves to position p, and the route is scanned in this round, where p is sooner. The caller names the direction, so
    // that the compiler makes code for each of the two.
    fn activate_by(&mut self, d: Direction, r: u32, p: u32)
        requires { r < self.old.routes }
        ensures { Becomes (activated d r p) self.old self.new }
    {
        let mark = self.active(r);
        if is_sooner(d, p, mark) {
            let i = 4 * self.stops as usize + r as usize;
            let q = 2 * pages_of(self.stops);
            self.words[i] = p;
            marks::set_mark(self.marks, 64 * q + r as usize);
        }
    }

    // A marked stop stands at position p of route r: the route's mark moves there, and the route is
    // scanned in this round, where p is sooner.
    pub fn activate(&mut self, d: Direction, r: u32, p: u32)
        requires { r < self.old.routes }
        ensures { Becomes (activated d r p) self.old self.new }
    {
        match d {
            Direction::Departure => self.activate_by(Direction::Departure, r, p),
            Direction::Arrival => self.activate_by(Direction::Arrival, r, p),
        }
    }

    // No stop is marked.
    pub fn clear_marks(&mut self)
        ensures { Becomes (unmarked self.old.stops) self.old self.new }
    {
        let e = pages_of(self.stops);
        self.marks[0..e].fill(0);
    }

    // Holds the current labels and the marks as the rides left them: footpaths are made from these.
    pub fn hold(&mut self)
        ensures { Becomes holding self.old self.new }
    {
        let a = self.stops as usize;
        let b = 3 * a;
        let p = pages_of(self.stops);
        self.words.copy_within(a..2 * a, b);
        self.marks.copy_within(0..p, p);
    }

    // The stop is reached so in round k.
    fn store(&mut self, k: u32, offer: Offer)
        requires stop_lt_stops { offer.stop < self.old.stops }
        requires k_bound { k < MOST_ROUNDS }
        ensures { Becomes (stored (k * self.old.stops) offer.stop offer.moment.0 offer.leg) self.old self.new }
    {
        let s = offer.stop;
        let t = offer.moment;
        let g = offer.leg;
        let a = self.stops as usize + s as usize;
        let b = 2 * self.stops as usize + s as usize;
        let i = row_at(self.stops, self.routes, k, s);
        self.words[a] = t.0;
        self.words[b] = t.0;
        put_leg(self.words, i, g);
        marks::set_mark(self.marks, s as usize);
    }

    // The same where the moment is strictly better than the best one of the stop: a tie keeps the parent.
    pub fn apply(&mut self, d: Direction, k: u32, offer: Offer)
        requires stop_lt_stops { offer.stop < self.old.stops }
        requires k_bound { k < MOST_ROUNDS }
        ensures { Becomes (applied d (k * self.old.stops) offer.stop offer.moment.0 offer.leg) self.old self.new }
    {
        let best = self.best(offer.stop);
        if is_better(d, offer.moment, best) {
            self.store(k, offer);
        }
    }
}
