// What an argument of the program `kiosk` says: a number, a moment, a place, an option; and a moment as a clock shows it.
#![tactic(auto)]

pub mod bytes; // bytes.rt: the words that an argument begins with, the number that stands in it
pub mod moment; // moment.rt: seconds, or H:MM:SS; the same against a timetable's midnight
pub mod place; // place.rt: a stop or an area
pub mod options; // options.rt: which options were said
