// The layout of the tables in numbers, as Sections.antt has it: each section, the words of a row, and a field's place in it.
pub const STOP_LIST: usize = 0;

pub const STATIONS: usize = 1;

pub const CHILD_STARTS: usize = 2;

pub const CHILDREN: usize = 3;

pub const CALL_STARTS: usize = 4;

pub const CALLS: usize = 5;

pub const SERVED: usize = 6;

pub const TRANSFER_STARTS: usize = 7;

pub const TRANSFERS: usize = 8;

pub const WALK_STARTS: usize = 9;

pub const WALKS: usize = 10;

pub const ROUTE_STOP_STARTS: usize = 11;

pub const ROUTE_STOPS: usize = 12;

pub const ROUTE_TRIP_STARTS: usize = 13;

pub const ROUTE_TRIPS: usize = 14;

pub const TIME_STARTS: usize = 15;

pub const TIMES: usize = 16;

pub const AREA_STARTS: usize = 17;

pub const AREA_STOPS: usize = 18;

pub const STANDING: usize = 19;

pub const SECTIONS: usize = 20;

pub const HEADER: usize = 21;

pub const CALL_WORDS: usize = 3;

pub const TRANSFER_WORDS: usize = 4;

pub const WALK_WORDS: usize = 2;

pub const TIME_WORDS: usize = 2;

pub const STANDING_WORDS: usize = 2;

// A call's first word is its route; a transfer's the stop that it leaves; a walk's the stop that it leads to; a time's
// the arrival; a standing's the route.
pub const CALL_FIRST: usize = 1;

pub const CALL_LAST: usize = 2;

pub const TRANSFER_TO: usize = 1;

pub const TRANSFER_STATED: usize = 2;

pub const TRANSFER_METRES: usize = 3;

pub const WALK_METRES: usize = 1;

pub const DEPARTURE: usize = 1;

pub const STANDING_PLACE: usize = 1;
