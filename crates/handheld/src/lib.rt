// Journeys that handhelds send (request 2): what the depot is told of one, and how far its legs have led. What is right stands in
// specs/, what is promised of it in proofs/; the code that decides it is in `judge`.
#![tactic(auto)]

use journey::BadLeg;
use model::Refusal;

// What the depot is told: whether the legs form a journey that the query asks for. `verdict_number` of specs/Judged.antt has the number of
// each case; a yes and a no are both 0.
pub type Verdict = Result<bool, NoVerdict>;

// Why there is neither a yes nor a no.
#[derive(Clone, Copy)]
pub enum NoVerdict {
    // 13: the bytes are no legs
    Bad(BadLeg),
    // 1 to 5, 7, 8, 9
    Refused(Refusal),
}

// Where legs have led: at which stop one is since when, with how many rides, and whether the last leg was one.
#[derive(Clone, Copy)]
pub struct Led {
    pub stop: u32,
    pub moment: u32,
    pub rides: u32,
    pub rode: bool,
}
