// Journey bytes through the C face: how many legs they are, and the leg at an offset in six words.
ghost use Rattle.std.specs.Prelude.{◌≡◌};
ghost use Rattle.model.specs.Bytes.{read as read_all};
ghost use Rattle.journey.specs.Reading.{leg_from, reading_of};
ghost use Rattle.kiosk_c.specs.Legs.{leg_number, leg_left, read_number, read_left};

use super::NO_ROOM;

// The number of journey bytes that are no legs: "unknown kind or cut body".
pub(super) const BAD_LEG: u32 = 13;

// Reads journey bytes: 0 where they are legs, whose number is told; 13 where they are not, and the offset of the bad leg's first byte is
// told; 6 where there is no word to tell it in.
#[tactic(auto, using(crate::proofs::Reading::first), unfolding(crate::specs::Legs::read_number, crate::specs::Legs::read_kind, crate::specs::Legs::read_left, crate::specs::Legs::read_word))]
pub fn kiosk_read(bytes: &[u8], told: &mut [u64]) -> u32
    ensures value { result ≡ read_number (reading_of (read_all bytes.now)) told.old }
    ensures told_after { told.new ≡ read_left (reading_of (read_all bytes.now)) told.old }
{
    if told.is_empty() {
        return NO_ROOM;
    }
    match journey::read(bytes) {
        Ok(count) => {
            told[0] = count as u64;
        }
        Err(bad) => {
            told[0] = bad.at as u64;
            return BAD_LEG; // not the value of the `match`, which would be set at each leg
        }
    }
    0
}

// The leg that starts at an offset: how many bytes it takes, 0 where no byte is left there, 13 where it is none; 6 where there are not six
// words for it.
#[tactic(auto, unfolding(crate::specs::Legs::leg_number, crate::specs::Legs::leg_bytes, crate::specs::Legs::leg_left, crate::specs::Legs::leg_words))]
pub fn kiosk_leg(bytes: &[u8], at: usize, leg: &mut [u32]) -> u32
    ensures value { result ≡ leg_number (leg_from bytes.now at) leg.old }
    ensures leg_after { leg.new ≡ leg_left (leg_from bytes.now at) leg.old }
{
    if leg.len() < 6 {
        return NO_ROOM; // no room for a leg
    }
    match journey::read_leg(bytes, at) {
        Some(Ok(g)) => kiosk_words::tell_leg(leg, g),
        Some(Err(_)) => BAD_LEG,
        None => 0,
    }
}
