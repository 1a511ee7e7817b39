// Lines of words, read byte by byte: a first token that names the line, then decimal numbers or single letters.
#![tactic(auto)]

ghost use Rattle.std.specs.Prelude.{◌≡◌, ◌≤◌, ◌<◌, length, IfSome};
ghost use Rattle.lines.specs.Token.{longer_by};
ghost use Rattle.lines.specs.Step.{empty_line, closed, with_word, next_line, line_after, words_after};

// 2^32: what a number that is no u32 is held at.
const HELD: u64 = 4294967296;

// What is known of the line so far.
#[derive(Clone, Copy)]
pub struct Line {
    // the value of the line's first token that has one, which names it: of a word its last letter's
    pub name: Option<u64>,
    // how many words of the line are stored
    pub count: usize,
    // what came that is no word: a number above 2^32 - 1, or more words than there is room for
    pub bad: bool,
    // the line has ended
    pub ended: bool,
    // the value so far of the token that the line is inside
    token: Option<u64>,
}

// The value of an open token with one more byte: ten times the value and the digit; a letter stands for itself.
pub fn longer(value: u64, b: u8) -> u64
    ensures value { result ≡ longer_by value b }
    ensures upper_bound { result ≤ 4294967296 }
{
    match b {
        b'0'..=b'9' => value
            .saturating_mul(10)
            .saturating_add(u64::from(b - b'0'))
            .min(HELD),
        _ => u64::from(b),
    }
}

impl Line {
    // A line before its first byte.
    pub fn new() -> Line
        ensures value { result ≡ empty_line }
        ensures token_bound { IfSome result.token (λ v. v ≤ 4294967296) }
    {
        Line {
            name: None,
            count: 0,
            bad: false,
            ended: false,
            token: None,
        }
    }

    // The line with its open token closed: the first one has named the line, each other one is stored as a word.
    fn close(self, words: &mut [u32]) -> Line
        ensures value { result ≡ closed (length words.old) self }
        ensures words_after { words.new ≡ with_word words.old self }
    {
        let Some(value) = self.token else {
            return self;
        };
        let mut line = self;
        line.ended = false;
        line.token = None;
        if self.name.is_none() {
            line.name = if value == 0 { None } else { Some(value) };
        } else if value < HELD && self.count < words.len() {
            words[self.count] = value as u32;
            line.count += 1;
        } else {
            line.bad = true;
        }
        line
    }

    // The line with one more byte. A byte after a line's end begins the next one.
    pub fn step(self, words: &mut [u32], b: u8) -> Line
        ensures value { result ≡ line_after (length words.old) (next_line self) b }
        ensures words_after { words.new ≡ words_after words.old (next_line self) b }
        ensures token_bound { IfSome result.token (λ v. v ≤ 4294967296) }
    {
        let mut line = if self.ended { Line::new() } else { self };
        match b {
            b'\n' => {
                line = line.close(words);
                line.ended = true;
            }
            b' ' => line = line.close(words),
            _ => {
                line.token = Some(longer(line.token.unwrap_or(0), b));
                line.ended = false;
            }
        }
        line
    }
}
