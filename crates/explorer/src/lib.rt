// What a round is given, by value; and in specs/ the half-rounds in one pass, to which the explorers' code is held.
#![tactic(auto)]

use model::Direction;
use shared::Time;

// A round of a search: its number from 0, and what does not change while it lasts.
#[derive(Clone, Copy)]
pub struct Round {
    pub number: u32,
    pub direction: Direction,
    pub target: Time,
    pub walking: bool,
}
