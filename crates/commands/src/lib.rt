// Tests made in their order, and what a call decides behind them: a change of the one record that it looks at, and its answer.
// Its definitions are those of any call as one value. It rests on tables for the lengths that such a value names, on records and answers. It
// makes no test of its own.
#![tactic(auto)]

mod admission;
mod decision;

pub use admission::{check, check_after};
pub use decision::{Decision, Reply};
