// Of a handheld's legs: whether a footpath leg fits a listed footpath, and whether a stop is one of a place's.
#![tactic(auto)]

pub mod paths; // paths.rt: the footpaths under a stop
pub mod places; // places.rt: the stops of a place
