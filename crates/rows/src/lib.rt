// Whole rows: whether one is vacant, whether one is undamaged, and one made vacant with its frames waiting.
// Each function is one pass over the row. It rests on words and pairs. It knows no record and no call.
#![tactic(auto)]

mod looks;
mod writes;

pub use looks::{row_undamaged, row_vacant};
pub use writes::vacate;
