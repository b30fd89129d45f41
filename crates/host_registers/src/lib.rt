// The firmware registers of a guest, read and written by the host.
// It rests on answers, records and commands. It takes no table, and does not look at what a bitmap means: that is up to the table of guest calls.
#![tactic(auto)]

mod access;
mod registers;

pub use access::{decide_register_read, decide_register_write, register_read, register_write};
