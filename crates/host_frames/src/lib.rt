// The host's calls about a frame: a waiting one is confirmed as cleared, or the host asks whether it may access one.
// It tests in document 01's order, and looks first and writes after. It looks at no record. It rests on words, tables, pairs,
// answers and commands, and on records for what its contracts say of any record.
#![tactic(auto)]

mod status;

pub use status::{access, cleared, decide_access, decide_cleared};
