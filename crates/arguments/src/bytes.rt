// The bytes of an argument: the number that stands in it, and whether it is or begins with a word.
ghost use Rattle.std.specs.Prelude.{◌≡◌, ◌+◌, ◌*◌, ◌-◌, ◌≤◌, length};
ghost use Rattle.base.specs.All.{all};
ghost use Rattle.arguments.specs.Digits.{is_digit, digit_at, tens, fitting, number_in};
ghost use Rattle.arguments.specs.Word.{begins_with, same, after_of};

// Why bytes are no number of 32 bits.
#[derive(Clone, Copy, Debug, PartialEq, Eq)]
pub enum NoNumber {
    NoDigits,
    TooLarge,
}

pub fn is_digit(b: u8) -> bool
    ensures { result ≡ is_digit b }
{
    matches!(b, b'0'..=b'9')
}

// The number that digits are with one more behind them.
pub fn longer(value: u32, b: u8) -> u64
    ensures { result ≡ value * 10 + (b - 48) }
{
    u64::from(value) * 10 + u64::from(b.saturating_sub(b'0'))
}

// Whether each byte from `from` to `to` is a digit.
fn are_digits(arg: &[u8], from: usize, to: usize) -> bool
    requires { to ≤ length arg.now }
    ensures { result ≡ all (digit_at arg.now) from to }
{
    for i in from..to {
        if !is_digit(arg[i]) {
            return false;
        }
    }
    true
}

// The number of these digits.
fn value_in(arg: &[u8], from: usize, to: usize) -> Result<u32, NoNumber>
    requires from_le_to { from ≤ to }
    requires to_in_bounds { to ≤ length arg.now }
    ensures { result ≡ fitting (tens arg.now from (to - from)) }
{
    let mut value: u32 = 0;
    for i in from..to {
        let next = longer(value, arg[i]);
        if 4294967295 < next {
            return Err(NoNumber::TooLarge);
        }
        value = next as u32;
    }
    Ok(value)
}

// The number that the bytes from `from` to `to` are.
pub fn number_in(arg: &[u8], from: usize, to: usize) -> Result<u32, NoNumber>
    ensures { result ≡ number_in arg.now from to }
{
    if from < to && to <= arg.len() && are_digits(arg, from, to) {
        value_in(arg, from, to)
    } else {
        Err(NoNumber::NoDigits)
    }
}

// Whether the argument begins with `word`.
pub fn begins_with(arg: &[u8], word: &[u8]) -> bool
    ensures { result ≡ begins_with arg.now word.now }
{
    arg.starts_with(word)
}

// How long `word` is where the argument begins with it, and 0 where it does not.
pub fn after(arg: &[u8], word: &[u8]) -> usize
    ensures value { result ≡ after_of arg.now word.now }
    ensures upper_bound { result ≤ length arg.now }
{
    if begins_with(arg, word) {
        word.len()
    } else {
        0
    }
}

// Whether the argument is `word`.
pub fn is(arg: &[u8], word: &[u8]) -> bool
    ensures { result ≡ same arg.now word.now }
{
    arg == word
}
