// The host's calls about a guest's slot: a guest is created, run, or its row is shown.
// It tests in document 01's order, and looks first and writes after. It rests on tables, answers, records, commands and rows.
// It writes no table: a new guest has no frame, and a row is shown as it is.
#![tactic(auto)]

mod creation;
mod views;

pub use creation::{create, create_legacy, decide_create, decide_run, run};
pub use views::{decide_show, show, show_row, show_verdict};
