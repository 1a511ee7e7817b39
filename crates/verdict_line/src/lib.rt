// The line that `checkjourney` prints of a verdict.
#![tactic(auto)]

ghost use Rattle.std.specs.Prelude.{◌≡◌, ◌+◌, ◌≤◌, length};
ghost use Rattle.base.specs.Put.{with_bytes};
ghost use Rattle.numbers.specs.Decimal.{digits};
ghost use Rattle.verdict_line.specs.Printed.{Printable, bad_line, verdict_line};

use handheld::{NoVerdict, Verdict};

// Writes a text at the buffer's beginning; how long it is.
#[tactic(auto, unfolding(base::specs::Put::with_bytes))]
fn write_text(out: &mut [u8], text: &[u8]) -> usize
    requires { length text.now ≤ length out.old }
    ensures value { result ≡ length text.now }
    ensures out_after { out.new ≡ with_bytes out.old 0 text.now }
{
    out[..text.len()].copy_from_slice(text);
    text.len()
}

// A number from `at` on; where it ends.
#[tactic(auto, using(crate::proofs::Printed::few))]
fn write_number(out: &mut [u8], at: usize, n: u32) -> usize
    requires { at + 10 ≤ length out.old }
    ensures value { result ≡ at + length (digits n) }
    ensures upper_bound { result ≤ at + 10 }
    ensures out_after { out.new ≡ with_bytes out.old at (digits n) }
{
    numbers::write_decimal(out, at, n)
}

// `bad`, the offset and the line's end; how many bytes that is.
fn write_bad(out: &mut [u8], offset: u32) -> usize
    requires { 16 ≤ length out.old }
    ensures value { result ≡ length (bad_line offset) }
    ensures upper_bound { result ≤ 16 }
    ensures out_after { out.new ≡ with_bytes out.old 0 (bad_line offset) }
{
    let at = write_text(out, b"bad ");
    let end = write_number(out, at, offset);
    out[end] = b'\n';
    end + 1
}

// Writes the line at the buffer's beginning, and says how long it is. Of a refusal it is the number: what that means is told behind it.
pub fn write_line(v: Verdict, out: &mut [u8]) -> usize
    requires in_bounds { 16 ≤ length out.old }
    requires printable { Printable v }
    ensures value { result ≡ length (verdict_line v) }
    ensures upper_bound { result ≤ 16 }
    ensures out_after { out.new ≡ with_bytes out.old 0 (verdict_line v) }
{
    match v {
        Ok(true) => write_text(out, b"yes\n"),
        Ok(false) => write_text(out, b"no\n"),
        Err(NoVerdict::Bad(leg)) => write_bad(out, leg.at as u32),
        Err(NoVerdict::Refused(refusal)) => write_number(out, 0, u32::from(refusal)),
    }
}
