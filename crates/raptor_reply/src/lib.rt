// The answer of a search that has run: the journey is measured, and written where it fits.
#![tactic(auto)]

ghost use Rattle.std.specs.Prelude.{◌≡◌, length};
ghost use Rattle.model.specs.Answer.{reply as reply_of};
ghost use Rattle.model.specs.Left.{written};
ghost use Rattle.allocator.specs.Layout.{Words, parents_of};
ghost use Rattle.raptor_reply.specs.Chosen.{Chosen, legs_back};

use model::{Answer, Direction, Error, Found, Target};

// 10 where no stop is chosen; 12 where the journey is longer than its buffer, which stays as it was; else 0, and the
// journey stands in the first bytes.
pub fn reply(
    words: &[u32],
    journey: &mut [u8],
    stops: u32,
    routes: u32,
    d: Direction,
    aimed: Target,
) -> Answer
    requires words { Words stops routes words.now }
    requires chosen { Chosen d stops (parents_of stops routes words.now) aimed }
    ensures value { result
        ≡ reply_of (length journey.old) aimed (legs_back d stops (parents_of stops routes words.now) aimed) }
    ensures journey_after { journey.new
        ≡ written result (legs_back d stops (parents_of stops routes words.now) aimed) journey.old }
{
    let Target { stop, round, time } = aimed;
    if time.0 == 0 {
        return Err(Error::NoRouteFound);
    }
    let length = path::size_back(words, stops, routes, d, round, stop);
    if journey.len() < length {
        return Err(Error::TooLong(length));
    }
    path::backtrack(words, journey, stops, routes, d, round, stop, length);
    Ok(Found {
        time,
        stop,
        round,
        length,
    })
}
