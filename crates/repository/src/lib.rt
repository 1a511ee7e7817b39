// Readers of the flat tables. Only this crate knows where a word stands; the readers say what it is in the network
// that the words hold.
#![tactic(auto)]

pub mod limits; // limits.rt: the limits in numbers
pub mod sections; // sections.rt: the layout in numbers
pub mod words; // words.rt: words, entries and rows by section
pub mod routes; // routes.rt: the stops and the trips of a route
pub mod times; // times.rt: the moments of a trip
pub mod calls; // calls.rt: the routes that contain a stop
pub mod footpaths; // footpaths.rt: the transfers and the walks of a stop
pub mod places; // places.rt: stations, their children, areas

// "an unstated span or absent parent is MAX"
pub const MAX: u32 = shared::MAX;
