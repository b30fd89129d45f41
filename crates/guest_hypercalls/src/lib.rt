// The guest's hypercall: its tests in document 01's order, and what the call does once they have passed.
// It rests on guest_callers for the tests of the caller, on functions and call_table for the table of guest calls, on ranges for the work
// on granules, and on words, tables, answers, records, commands, granules and runs. It lends the caller's row on, and knows no host call.
#![tactic(auto)]

mod admissions;
mod hypercalls;
mod work;

pub use hypercalls::{decide_hypercall, hypercall};
