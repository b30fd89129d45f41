// The kinds of trace records with their arguments, lengths and calls, and whether fewer than four bytes are the beginning of a record.
// It rests on calls and functions for what a record asks for. It makes no call, and takes no argument out of a record.
#![tactic(auto)]

mod kinds;
mod starts;

pub use kinds::{RecordKind, VERSION};
pub use starts::start_holds;
