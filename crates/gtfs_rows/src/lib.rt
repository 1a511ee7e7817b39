// A row of either file, taken into the tables and the books.
#![tactic(auto)]

pub mod books; // books.rt: a text's number
pub mod rows; // rows.rt: the words of a row
pub mod times; // times.rt: a row of stop_times.txt
