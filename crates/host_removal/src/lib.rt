// The host's call that removes a guest.
// It tests in document 01's order, and looks at the whole row first and writes after. It rests on tables, answers,
// records, commands and rows. It clears no memory: each frame waits until the host confirms that.
#![tactic(auto)]

mod removal;

pub use removal::{decide_remove, remove};
