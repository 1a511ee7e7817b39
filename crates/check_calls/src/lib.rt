// The rules of number 2 for what is called at stops: route lists and served marks.
#![tactic(auto)]

pub mod calls;
pub mod served;
