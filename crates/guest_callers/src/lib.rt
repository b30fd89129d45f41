// Whether a slot may call at all: the tests that a hypercall and an abort begin with, verdicts 1 to 3.
// It rests on tables for the lengths, on records for the guest's record, and on answers and commands for the tests. It looks at no word and at no
// register.
#![tactic(auto)]

mod callers;

pub use callers::caller_admission;
