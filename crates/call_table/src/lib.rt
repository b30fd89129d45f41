// The table of guest calls: for each call what it asks of the registers and of the caller's record, its error, and what it does with how many
// granules. It rests on functions for the calls and what is asked, on granules for what a call does to a granule, and on words. It does none
// of it: that is up to its caller.
#![tactic(auto)]

mod rows;

pub use rows::{Action, CallRow, Count};
