// The guest records, the monitor's state, and what a call does to a record as a value.
// It rests on words for laws of Booleans. It says which slot is free and whether a guest lives in one, and refuses nothing: that is up to the
// calls.
#![tactic(auto)]

mod change;
mod guest;
mod monitor;

pub use change::{Change, FirmwareRegister};
pub use guest::{GUEST_WORDS, Guest};
pub use monitor::Monitor;
