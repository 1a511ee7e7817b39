// The fields that are wanted of a line, and the columns of a header, in a text that is lent as bytes.
#![tactic(auto)]

ghost use Rattle.std.specs.Prelude.{◌≡◌, cond, ◌≤◌, ◌<◌, eqb, length};
ghost use Rattle.csv_text.specs.Part.{part};
ghost use Rattle.csv_text.specs.Texts.{same_text};
ghost use Rattle.csv_text.specs.Fields.{fields};
ghost use Rattle.columns.specs.Picks.{five_in, picked_in, AllSpanned, column_in};
ghost use Rattle.columns.specs.Keeping.{span_from, KeptAt, NoneKept, met_at};

// Where a text stands: from `from` up to below `to`.
#[derive(Clone, Copy)]
pub struct Span {
    pub from: usize,
    pub to: usize,
}

// How many fields a line has, and where the texts of the five wanted ones stand. Where it has no field at a place, the text is empty.
#[derive(Clone, Copy)]
pub struct Picked {
    pub count: usize,
    pub spans: [Span; 5],
}

// Where a column stands in a header. Stays an enum of its own: a Result of an Option would say its three cases in two layers.
#[derive(Clone, Copy)]
pub enum Column {
    At(usize),
    Absent,
    Twice,
}

// The span of field k where that is the place, else the old one.
fn keep(place: usize, k: usize, from: usize, to: usize, old: Span) -> Span
    ensures { result ≡ cond (eqb place k) (span_from from to) old }
{
    if place == k { Span { from, to } } else { old }
}

// One field more: it is kept where it is wanted.
fn kept(w: [usize; 5], from: usize, to: usize, old: Picked) -> Picked
    requires { old.count < 18446744073709551615 }
    ensures { KeptAt w from to old result }
{
    let k = old.count;
    let mut spans = old.spans;
    for j in 0..5 {
        spans[j] = keep(w[j], k, from, to, spans[j]);
    }
    Picked {
        count: k + 1,
        spans,
    }
}

// No field yet: each text is empty.
fn nothing(a: usize) -> Picked
    ensures { NoneKept a result }
{
    Picked {
        count: 0,
        spans: [Span { from: a, to: a }; 5],
    }
}

// The fields of the line from a up to below e that stand at the wanted places.
pub fn pick(bytes: &[u8], a: usize, e: usize, w: [usize; 5]) -> Option<Picked>
    requires a_le_e { a ≤ e }
    requires e_in_bounds { e ≤ length bytes.now }
    ensures result_value { picked_in bytes.now result ≡ five_in w (fields (part a e bytes.now)) }
    ensures all_spanned { AllSpanned bytes.now result }
{
    let mut i = a;
    let mut p = nothing(a);
    // Stays a loop: each field says where the next one begins.
    loop {
        let field = csv_text::field(bytes, i, e)?;
        p = kept(w, field.from, field.to, p);
        if e <= field.next {
            return Some(p);
        }
        i = field.next + 1;
    }
}

// Where a column stands that stood at `found`, and field k has its name.
fn met(found: Column, k: usize) -> Column
    ensures { result ≡ met_at found k }
{
    match found {
        Column::Absent => Column::At(k),
        Column::At(_) => Column::Twice,
        Column::Twice => Column::Twice,
    }
}

// Where it stands with field k, from f up to below t.
fn seen(bytes: &[u8], f: usize, t: usize, name: &[u8], found: Column, k: usize) -> Column
    requires { (f ≤ t) × (t ≤ length bytes.now) }
    ensures { result ≡ cond (same_text (part f t bytes.now) name.now) (met_at found k) found }
{
    if csv_text::same(bytes, f, t, name, 0, name.len()) {
        met(found, k)
    } else {
        found
    }
}

// Where the column of this name stands in the header from a up to below e.
pub fn find_column(bytes: &[u8], a: usize, e: usize, name: &[u8]) -> Column
    requires a_le_e { a ≤ e }
    requires e_in_bounds { e ≤ length bytes.now }
    ensures { result ≡ column_in name.now (fields (part a e bytes.now)) }
{
    let mut i = a;
    let mut k = 0;
    let mut was = Column::Absent;
    // Stays a loop, as above.
    loop {
        let Some(field) = csv_text::field(bytes, i, e) else {
            return Column::Absent;
        };
        was = seen(bytes, field.from, field.to, name, was, k);
        if e <= field.next {
            return was;
        }
        i = field.next + 1;
        k += 1;
    }
}
