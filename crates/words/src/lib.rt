// The numbers that stand in the two tables and in registers: granules and addresses, map words, frame words, signed results.
// Only this crate takes words apart by shifts and masks. It rests on no other crate, and it looks at no table.
#![tactic(auto)]

mod fields;
mod frame_word;
mod granule;
mod map_word;
mod signed;

pub use frame_word::FrameWord;
pub use granule::Granule;
pub use map_word::MapWord;
pub use signed::register;
