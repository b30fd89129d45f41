ghost use Rattle.std.specs.Prelude.{◌≡◌, ℕ, ◌<◌, ◌^◌};
ghost use Rattle.words.specs.FrameWord.{frame_word_of, frame_bits, names_granule};

use crate::fields::low_half;

// What a frame word says by itself. Damaged is a value and no error: a call may meet it without looking at it.
#[derive(Clone, Copy, PartialEq, Eq)]
pub enum FrameWord {
    Host,
    Waiting,
    Owned {
        slot: usize,
        shared: bool,
        granule: usize,
    },
    Damaged,
}

impl FrameWord {
    pub const HOST: u32 = 0;

    pub const WAITING: u32 = 0xFF00_0000;

    // The word of a guest's frame. A leaf for the work on single granules, so it asks for numbers that have room: its caller tests them
    // once, the granule as an index of the slot's row.
    pub fn of_owner(slot: usize, shared: bool, granule: usize) -> u32
        requires { (slot < 8) × (granule < 2 ^ 16) }
        ensures { result ≡ frame_bits (FrameWord.Owned slot shared granule) }
    {
        (((slot + 1) as u32) << 24) | (((shared as u32) << 16) | (granule as u32))
    }

    // Whether a word says that this granule of this slot owns the frame, shared or private as told.
    #[tactic(auto, using(crate::proofs::FrameWordLaws::names_granule_built, crate::proofs::FrameWordLaws::names_no_granule))]
    pub fn names(word: u32, slot: usize, shared: bool, granule: usize) -> bool
        ensures { result ≡ names_granule slot shared granule (frame_word_of word) }
    {
        slot < 8 && granule < 0x1_0000 && word == FrameWord::of_owner(slot, shared, granule)
    }

    // The word of the owner and the granule in this one, which says them as `from` tells, private or shared as `to` tells.
    // One helper for both kinds of words would be as long as the two lines that it replaces.
    pub fn reshared(word: u32, from: bool, to: bool) -> u32
        ensures { (v g : ℕ) → frame_word_of word ≡ FrameWord.Owned v from g → result ≡ frame_bits (FrameWord.Owned v to g) }
    {
        if from == to { word } else { word ^ (1 << 16) }
    }
}

impl From<u32> for FrameWord {
    ghost from_gives = { λ word d. d ≡ frame_word_of word };

    // A word taken apart: the owner is the top byte, private or shared the next, the granule the low 16 bits.
    #[tactic(auto, using(crate::proofs::FrameWordLaws::owner_damaged, crate::proofs::FrameWordLaws::owner_named), unfolding(crate::specs::FrameWord::frame_word_of))]
    fn from(word: u32) -> FrameWord {
        let owner = (word >> 24) as usize;
        let sharing = (word >> 16) & 0xFF;
        match word {
            FrameWord::HOST => FrameWord::Host,
            FrameWord::WAITING => FrameWord::Waiting,
            _ if owner == 0 || 8 < owner || 1 < sharing => FrameWord::Damaged,
            _ => FrameWord::Owned {
                slot: owner - 1,
                shared: sharing == 1,
                granule: low_half(word),
            },
        }
    }
}
