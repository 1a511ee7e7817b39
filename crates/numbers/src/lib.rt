// Numbers as decimal digits and moments as a clock shows them, read and written.
#![tactic(auto)]

ghost use Rattle.std.specs.Prelude.{◌≡◌, [], ◌∷◌, ◌+◌, ◌*◌, ◌≤◌, ◌<◌, length, IfSome};
ghost use Rattle.base.specs.Put.{with_bytes};
ghost use Rattle.numbers.specs.Decimal.{decimal as decimal_of, digits};
ghost use Rattle.numbers.specs.Clock.{MIDNIGHT, up_to, eight_bytes, clock as clock_of, two_digits, clock_text};

// The number that one byte shows.
fn digit(x: u8) -> Option<u32>
    ensures value { result ≡ decimal_of (x ∷ []) }
    ensures below_ten { IfSome result (λ d. d ≤ 9) }
{
    match x {
        b'0'..=b'9' => Some(u32::from(x - b'0')),
        _ => None,
    }
}

// The number whose digits the text is.
pub fn decimal(text: &[u8]) -> Option<u32>
    ensures { result ≡ decimal_of text.now }
{
    if text.is_empty() {
        return None;
    }
    let mut v: u32 = 0;
    for &x in text {
        v = v.checked_mul(10)?.checked_add(digit(x)?)?;
    }
    Some(v)
}

// Writes the digits of n from `at` on, and says where they end.
pub fn write_decimal(out: &mut [u8], at: usize, n: u32) -> usize
    requires { at + length (digits n) ≤ length out.old }
    ensures value { result ≡ at + length (digits n) }
    ensures out_after { out.new ≡ with_bytes out.old at (digits n) }
{
    if n < 10 {
        out[at] = b'0' + n as u8;
        return at + 1;
    }
    let e = write_decimal(out, at, n / 10);
    out[e] = b'0' + (n % 10) as u8;
    e + 1
}

// How many digits n has.
pub fn decimal_size(n: u32) -> usize
    ensures { (result ≡ length (digits n)) × (result ≤ 10) }
{
    if n < 10 { 1 } else { decimal_size(n / 10) + 1 }
}

// Two digits, as a number up to `most`.
fn up_to(most: u32, x: u8, y: u8) -> Option<u32>
    ensures value { result ≡ up_to most x y }
    ensures within { IfSome result (λ v. v ≤ most) }
{
    let v = digit(x)? * 10 + digit(y)?;
    if v <= most { Some(v) } else { None }
}

// The moment of hours, minutes and seconds; midnight is 86,400.
fn moment(h: u32, m: u32, s: u32) -> u32
    requires h_bound { h ≤ 99 }
    requires m_bound { m ≤ 59 }
    requires s_bound { s ≤ 59 }
    ensures { result ≡ h * 3_600 + m * 60 + s + MIDNIGHT }
{
    h * 3600 + m * 60 + s + 86400
}

// The moment gh:mn:st.
fn six_digits(g: u8, h: u8, m: u8, n: u8, s: u8, t: u8) -> Option<u32>
    ensures { result ≡ eight_bytes (g ∷ h ∷ 58 ∷ m ∷ n ∷ 58 ∷ s ∷ t ∷ []) }
{
    let hours = up_to(99, g, h)?;
    let minutes = up_to(59, m, n)?;
    let seconds = up_to(59, s, t)?;
    Some(moment(hours, minutes, seconds))
}

// The moment that the text shows as HH:MM:SS or H:MM:SS.
pub fn clock(text: &[u8]) -> Option<u32>
    ensures { result ≡ clock_of text.now }
{
    match text {
        &[h, b':', m, n, b':', s, t] => six_digits(b'0', h, m, n, s, t),
        &[g, h, b':', m, n, b':', s, t] => six_digits(g, h, m, n, s, t),
        _ => None,
    }
}

// Writes a number below 100 as two digits.
fn write_two(out: &mut [u8], at: usize, n: u32)
    requires at_in_bounds { at + 2 ≤ length out.old }
    requires n_bound { n ≤ 99 }
    ensures { out.new ≡ with_bytes out.old at (two_digits n) }
{
    out[at] = b'0' + (n / 10) as u8;
    out[at + 1] = b'0' + (n % 10) as u8;
}

// Writes a colon and two digits.
fn write_behind(out: &mut [u8], at: usize, n: u32)
    requires at_in_bounds { at + 3 ≤ length out.old }
    requires n_bound { n ≤ 99 }
    ensures { out.new ≡ with_bytes out.old at (58 ∷ two_digits n) }
{
    write_two(out, at + 1, n);
    out[at] = b':';
}

// Writes a moment as HH:MM:SS.
pub fn write_clock(out: &mut [u8], at: usize, m: u32)
    requires at_in_bounds { at + 8 ≤ length out.old }
    requires le_m { MIDNIGHT ≤ m }
    requires m_bound { m ≤ 446_399 }
    ensures { out.new ≡ with_bytes out.old at (clock_text m) }
{
    let x = m - 86400;
    write_two(out, at, x / 3600);
    write_behind(out, at + 2, x / 60 % 60);
    write_behind(out, at + 5, x % 60);
}
