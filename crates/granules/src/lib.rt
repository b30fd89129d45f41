// One granule of a guest, changed by one single step: what every call that changes granules does, granule by granule.
// It rests on words, tables and pairs, and on runs for what a step is. It knows no record, no register and no call, and takes one granule at a time.
#![tactic(auto)]

mod kinds;
mod step;

pub use kinds::{Kind, Operation};
pub use step::{StepError, change_granule};
