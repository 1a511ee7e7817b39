// Journeys that handhelds send, through the C face: a yes or no in one word.
ghost use Rattle.std.specs.Prelude.{◌≡◌, ◌≤◌, length};
ghost use Rattle.repository.specs.Accepted.{Accepted};
ghost use Rattle.repository.specs.Checked.{check_of};
ghost use Rattle.repository.specs.NetOf.{net_of};
ghost use Rattle.handheld.specs.Judged.{judged, verdict_number};
ghost use Rattle.kiosk_words.specs.Words.{query_of};
ghost use Rattle.kiosk_c.specs.Judging.{verdict_in, judge_number, judge_left};

use super::NO_ROOM;
use super::legs::BAD_LEG;
use handheld::{NoVerdict, Verdict};

// Writes a verdict in one word, and gives its number; a refusal writes nothing.
#[tactic(auto, using(crate::proofs::Reading::first), unfolding(handheld::specs::Judged::verdict_number, crate::specs::Judging::verdict_in))]
fn tell_verdict(told: &mut [u64], v: Verdict) -> u32
    requires { 1 ≤ length told.old }
    ensures value { result ≡ verdict_number v }
    ensures told_after { told.new ≡ verdict_in v told.old }
{
    match v {
        Ok(yes) => {
            told[0] = u64::from(yes);
            0
        }
        Err(NoVerdict::Bad(bad)) => {
            told[0] = bad.at as u64;
            BAD_LEG
        }
        Err(NoVerdict::Refused(r)) => r.into(),
    }
}

// Whether journey bytes are a journey that the query asks for: 0, and 1 is told for yes, 0 for no; 13, and the offset of the bad leg's
// first byte is told; 1 to 5, 7, 8, 9. Where there is no word to tell it in, the tables' own number, or 6.
pub fn kiosk_judge(
    tables: &[u32],
    bytes: &[u8],
    from_kind: u32,
    from: u32,
    to_kind: u32,
    to: u32,
    when: u32,
    moment: u32,
    walks: u32,
    told: &mut [u64],
) -> u32
    ensures value { result ≡ judge_number tables.now (query_of from_kind from to_kind to when moment walks 0)
        bytes.now told.old }
    ensures told_after { told.new ≡ judge_left tables.now (query_of from_kind from to_kind to when moment walks 0)
        bytes.now told.old }
{
    if told.is_empty() {
        return super::short_number(tables);
    }
    let q = kiosk_words::query_of(from_kind, from, to_kind, to, when, moment, walks, 0);
    tell_verdict(told, judge::judge(tables, bytes, q))
}

// The same, for tables that `kiosk_check` answered with 0.
pub fn kiosk_judge_checked(
    tables: &[u32],
    bytes: &[u8],
    from_kind: u32,
    from: u32,
    to_kind: u32,
    to: u32,
    when: u32,
    moment: u32,
    walks: u32,
    told: &mut [u64],
) -> u32
    requires { Accepted tables.now }
    ensures value { result ≡ judge_number tables.now (query_of from_kind from to_kind to when moment walks 0)
        bytes.now told.old }
    ensures told_after { told.new ≡ judge_left tables.now (query_of from_kind from to_kind to when moment walks 0)
        bytes.now told.old }
{
    if told.is_empty() {
        return NO_ROOM;
    }
    let q = kiosk_words::query_of(from_kind, from, to_kind, to, when, moment, walks, 0);
    tell_verdict(told, judge::judge_checked(tables, bytes, q))
}
