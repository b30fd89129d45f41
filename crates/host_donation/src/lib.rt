// The host's call that gives a frame to a guest.
// It tests in document 01's order, and looks first and writes after. It rests on words, tables, pairs, answers, records and commands. It
// changes no record, and one word of each table.
#![tactic(auto)]

mod donation;

pub use donation::{decide_donate, donate};
