// A place that a person names: the number of a stop, or `area:` and a number.
ghost use Rattle.std.specs.Prelude.{◌≡◌};
ghost use Rattle.arguments.specs.Place.{numbered, place_said};

use super::bytes;
use super::bytes::NoNumber;

// What a person writes is read here without the search's types; `questions` says which place is asked.
#[derive(Clone, Copy)]
pub enum Place {
    Stop(u32),
    Area(u32),
}

fn stop_or_area(from: usize, n: u32) -> Place
    ensures { result ≡ numbered from n }
{
    if from == 0 {
        return Place::Stop(n);
    }
    Place::Area(n)
}

// The place that an argument is.
pub fn place_of(arg: &[u8]) -> Result<Place, NoNumber>
    ensures { result ≡ place_said arg.now }
{
    let from = bytes::after(arg, b"area:");
    let number = bytes::number_in(arg, from, arg.len())?;
    Ok(stop_or_area(from, number))
}
