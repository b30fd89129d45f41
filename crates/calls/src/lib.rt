// Every call of the host and of a guest as one value: its slot, what it decides by the record there, and the call made on the records and the
// tables. It rests on the crates of the calls, whose decisions it hands on, and on records, commands and functions for what goes in and out. It
// decides nothing itself.
#![tactic(auto)]

mod call;

pub use call::Call;
