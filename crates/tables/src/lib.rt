// The two tables' lengths, and where a slot's row stands in the map table.
// It rests on no other crate's code. It looks at no word.
#![tactic(auto)]

mod lengths;
mod rows;

pub use lengths::{frame_length_holds, lengths_hold, map_length_holds};
pub use rows::{row, row_bounds, row_width};
