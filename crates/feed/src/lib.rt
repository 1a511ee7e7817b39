// What request 1 reads and writes: the definitions stand in specs/, the theorems about them in proofs/.
#![tactic(auto)]

use columns::Span;

// "15 for a table that is full": how many rows each table takes.
#[derive(Clone, Copy)]
pub struct Room {
    pub stops: u32,
    pub trips: u32,
    pub times: u32,
    pub transfers: u32,
}

// The places of what is read of stop_times.txt, and how many columns there are.
#[derive(Clone, Copy)]
pub struct TimesColumns {
    pub count: usize,
    pub trip: usize,
    pub arrival: usize,
    pub departure: usize,
    pub stop: usize,
    pub sequence: usize,
}

// The places of what is read of transfers.txt; `span` is `count` where that column is missing.
#[derive(Clone, Copy)]
pub struct TransferColumns {
    pub count: usize,
    pub from: usize,
    pub to: usize,
    pub kind: usize,
    pub span: usize,
}

// The values of a line of stop_times.txt; where the texts of its ids stand.
#[derive(Clone, Copy)]
pub struct TimeSpans {
    pub trip: Span,
    pub stop: Span,
    pub arrival: u32,
    pub departure: u32,
    pub sequence: u32,
}

// The values of a line of transfers.txt.
#[derive(Clone, Copy)]
pub struct TransferSpans {
    pub from: Span,
    pub to: Span,
    pub kind: u32,
    pub span: u32,
}

// Why the reading of a file ends before its lines do: "14 with its line for a bad line, 15 for a table that is full".
#[derive(Clone, Copy, Debug, PartialEq, Eq)]
pub enum Unread {
    Bad(u32),
    Full,
}
