// The guest's abort: what an access that found no page comes to.
// It rests on guest_callers for the tests of the caller, on words, tables, pairs, answers, records and commands. It changes no table and no
// record.
#![tactic(auto)]

mod aborts;

pub use aborts::{abort, decide_abort};
