// Whether a word and its partner name each other: a granule by its map word and the frame word that this names, a frame by its frame word
// and the map word of its owner's granule.
// It rests on words and tables. It knows no guest record: whether an owner is live is not looked at. No third word counts.
#![tactic(auto)]

mod pairs;

pub use pairs::{FrameState, GranuleState, compare_frame, granule_state, pair_at, pair_of};
