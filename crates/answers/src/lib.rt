// How a call is answered, and each answer as document 01's five numbers.
// It rests on words for signed numbers in registers. It decides nothing.
#![tactic(auto)]

mod answer;

pub use answer::{Answer, Numbers};
