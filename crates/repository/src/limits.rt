// The limits of document 01 that the check tests, and how many rounds a search has, as Limits.antt has them.
pub const MOST_STOPS: usize = 4_096;

pub const MOST_ROUTES: usize = 1_024;

pub const MOST_POSITIONS: usize = 128;

pub const MOST_TRIPS: usize = 16_384;

pub const MOST_STOP_TIMES: usize = 262_144;

pub const MOST_TRANSFERS: usize = 16_384;

pub const MOST_WALKS: usize = 32_768;

pub const MOST_AREAS: usize = 1_024;

pub const MOST_AREA_ENTRIES: usize = 16_384;

pub const MOST_ROUNDS: u32 = 15;

pub const LAST_MOMENT: u32 = 1_000_000;

pub const LONGEST_SPAN: u32 = 86_400;
