// The guest calls by their numbers, and what the rows of their table are made of: rules for registers, conditions on the caller's record, and
// errors. It rests on words, answers and records. It looks at no table of words, changes nothing, and does not say what a call does.
#![tactic(auto)]

mod numbers;
mod rules;

pub use numbers::Function;
pub use rules::{Condition, Error, Registers, Rule};
