// Lines and fields of a text that is lent as bytes.
#![tactic(auto)]

ghost use Rattle.std.specs.Prelude.{false, ◌≡◌, ◌+◌, ◌≤◌, ◌<◌, length, drop};
ghost use Rattle.csv_text.specs.Part.{part};
ghost use Rattle.csv_text.specs.Texts.{same_text};
ghost use Rattle.csv_text.specs.Lines.{line_of, after_line, trimmed};
ghost use Rattle.csv_text.specs.Fields.{plain, quoted, field as field_in};
ghost use Rattle.csv_text.specs.Read.{scan_of, Within, LineAt};

// A field of a line: its text stands from `from` up to below `to`, and `next` is where a comma or the line's end follows.
#[derive(Clone, Copy)]
pub struct TextField {
    pub from: usize,
    pub to: usize,
    pub next: usize,
}

// A line: its text ends before `end`, and the next line begins at `next`.
#[derive(Clone, Copy)]
pub struct TextLine {
    pub end: usize,
    pub next: usize,
}

// Where the line that begins at a ends: at its line feed, or with the bytes.
fn line_end(bytes: &[u8], a: usize) -> usize
    requires { a ≤ length bytes.now }
    ensures bytes_value { part a result bytes.now ≡ line_of (drop a bytes.now) }
    ensures lower_bound { (a ≤ result) × (result ≤ length bytes.now) }
    ensures bytes_value_2 { after_line (drop a bytes.now) ≡ drop (result + 1) bytes.now }
{
    for i in a..bytes.len() {
        if bytes[i] == b'\n' {
            return i;
        }
    }
    bytes.len()
}

// Where the text of a line ends that stands from a up to below e: before a carriage return.
fn text_end(bytes: &[u8], a: usize, e: usize) -> usize
    requires a_le_e { a ≤ e }
    requires e_in_bounds { e ≤ length bytes.now }
    ensures bytes_value { part a result bytes.now ≡ trimmed (part a e bytes.now) }
    ensures lower_bound { (a ≤ result) × (result ≤ e) }
{
    if a < e && bytes[e - 1] == b'\r' {
        return e - 1;
    }
    e
}

// The line that begins at a.
pub fn line(bytes: &[u8], a: usize) -> TextLine
    requires { a < length bytes.now }
    ensures { LineAt bytes.now a result }
{
    let e = line_end(bytes, a);
    TextLine {
        end: text_end(bytes, a, e),
        next: e + 1,
    }
}

// The field that begins at a, which is no quote, in a line that ends at e.
fn plain_field(bytes: &[u8], a: usize, e: usize) -> Option<TextField>
    requires a_le_e { a ≤ e }
    requires e_in_bounds { e ≤ length bytes.now }
    ensures result_value { scan_of bytes.now e result ≡ plain (part a e bytes.now) }
    ensures within { Within bytes.now a e result }
{
    for i in a..e {
        match bytes[i] {
            b',' => return Some(TextField {
                from: a,
                to: i,
                next: i,
            }),
            b'"' => return None,
            _ => {}
        }
    }
    Some(TextField {
        from: a,
        to: e,
        next: e,
    })
}

// The field whose text begins at a, behind its opening quote.
fn quoted_field(bytes: &[u8], a: usize, e: usize) -> Option<TextField>
    requires a_le_e { a ≤ e }
    requires e_in_bounds { e ≤ length bytes.now }
    ensures result_value { scan_of bytes.now e result ≡ quoted false (part a e bytes.now) }
    ensures within { Within bytes.now a e result }
{
    // Stays a while: a doubled quote takes two bytes, which no range steps over.
    let mut i = a;
    while i < e {
        if bytes[i] != b'"' {
            i += 1;
            continue;
        }
        let n = i + 1;
        if e <= n || bytes[n] == b',' {
            return Some(TextField {
                from: a,
                to: i,
                next: n,
            });
        }
        if bytes[n] != b'"' {
            return None;
        }
        i += 2;
    }
    None
}

// The field that begins at a.
pub fn field(bytes: &[u8], a: usize, e: usize) -> Option<TextField>
    requires a_le_e { a ≤ e }
    requires e_in_bounds { e ≤ length bytes.now }
    ensures result_value { scan_of bytes.now e result ≡ field_in (part a e bytes.now) }
    ensures within { Within bytes.now a e result }
{
    if a < e && bytes[a] == b'"' {
        quoted_field(bytes, a + 1, e)
    } else {
        plain_field(bytes, a, e)
    }
}

// Whether the text from a up to below e of one slice is the one from s up to below t of the other.
pub fn same(one: &[u8], a: usize, e: usize, other: &[u8], s: usize, t: usize) -> bool
    requires a_le_e { (a ≤ e) × (e ≤ length one.now) }
    requires s_le_t { (s ≤ t) × (t ≤ length other.now) }
    ensures { result ≡ same_text (part a e one.now) (part s t other.now) }
{
    one[a..e] == other[s..t]
}
