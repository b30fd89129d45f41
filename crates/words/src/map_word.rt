ghost use Rattle.std.specs.Prelude.{◌≡◌, ℕ, ◌<◌, ◌^◌, min, eqb};
ghost use Rattle.words.specs.MapWord.{map_word_of, map_bits, names_frame, bare_word, is_bare};

use crate::fields::low_half;

// What a map word says by itself. Damaged is a value and no error: a call may meet it without looking at it.
#[derive(Clone, Copy, PartialEq, Eq)]
pub enum MapWord {
    Vacant,
    Frame { shared: bool, frame: usize },
    Guarded,
    Damaged,
}

impl MapWord {
    pub const VACANT: u32 = 0;

    pub const GUARDED: u32 = 0xC000_0000;

    // A word has room for the frames below this number.
    const FRAME_LIMIT: usize = 0x1_0000;

    // The word of a private or shared frame. A leaf for the work on single granules, so it asks for a number that has room: its caller
    // tests it once, as an index of the frame table.
    #[tactic(auto, using(crate::proofs::MapWordLaws::frame_bits_lem))]
    pub fn of_frame(shared: bool, frame: usize) -> u32
        requires { frame < 2 ^ 16 }
        ensures { result ≡ map_bits (MapWord.Frame shared frame) }
    {
        ((1 + (shared as u32)) << 30) | (frame as u32)
    }

    // Whether a word says this frame, shared or private as told.
    #[tactic(auto, using(crate::proofs::MapWordLaws::names_frame_built, crate::proofs::MapWordLaws::names_no_frame))]
    pub fn names(word: u32, shared: bool, frame: usize) -> bool
        ensures { result ≡ names_frame shared frame (map_word_of word) }
    {
        frame < MapWord::FRAME_LIMIT && word == MapWord::of_frame(shared, frame)
    }

    // How many of this many frames a word has room for.
    pub fn nameable(frames: usize) -> usize
        ensures { result ≡ min (2 ^ 16) frames }
    {
        frames.min(MapWord::FRAME_LIMIT)
    }

    // The frame in a word that says one, private or shared as told: what is left when the bits of that kind are taken off. Of any other
    // word, 65,536 or more is left: a number and no Option, since the one test below `nameable` rules out both that and a frame beyond the table.
    #[tactic(auto, using(crate::proofs::MapWordLaws::frame_in_lem))]
    pub fn frame_in(word: u32, shared: bool) -> usize
        ensures { (f : ℕ) → f < 2 ^ 16 → eqb result f ≡ names_frame shared f (map_word_of word) }
    {
        (word ^ ((1 + (shared as u32)) << 30)) as usize
    }

    // The word of the frame in this one, which says it as `from` tells, private or shared as `to` tells. Of kinds 1 and 2 each is the other
    // with both bits changed. One helper for both kinds of words would be as long as the lines that it replaces.
    pub fn reshared(word: u32, from: bool, to: bool) -> u32
        ensures { (f : ℕ) → map_word_of word ≡ MapWord.Frame from f → result ≡ map_bits (MapWord.Frame to f) }
    {
        if from == to { word } else { word ^ (3 << 30) }
    }

    // The word of a granule without a frame, guarded or vacant as told.
    #[tactic(auto, unfolding(crate::specs::MapWord::map_bits))]
    pub fn of_bare(guarded: bool) -> u32
        ensures { result ≡ map_bits (bare_word guarded) }
    {
        if guarded {
            MapWord::GUARDED
        } else {
            MapWord::VACANT
        }
    }

    // Whether a word says a granule without a frame, guarded or vacant as told.
    #[tactic(auto, using(crate::proofs::MapWordLaws::bare_built))]
    pub fn is_bare(word: u32, guarded: bool) -> bool
        ensures { result ≡ is_bare guarded (map_word_of word) }
    {
        word == MapWord::of_bare(guarded)
    }
}

impl From<u32> for MapWord {
    ghost from_gives = { λ word d. d ≡ map_word_of word };

    // A word taken apart. The kind is the top two bits, the frame the low 16; no bit between them may be set.
    #[tactic(auto, using(crate::proofs::MapWordLaws::frame_said, crate::proofs::MapWordLaws::damaged_said), unfolding(crate::specs::MapWord::map_word_of))]
    fn from(word: u32) -> MapWord {
        let kind = word >> 30;
        let between = (word >> 16) & 0x3FFF;
        match kind {
            0 if word == MapWord::VACANT => MapWord::Vacant,
            1..=2 if between == 0 => MapWord::Frame {
                shared: kind == 2,
                frame: low_half(word),
            },
            3 if word == MapWord::GUARDED => MapWord::Guarded,
            _ => MapWord::Damaged,
        }
    }
}
