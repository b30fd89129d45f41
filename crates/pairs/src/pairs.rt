ghost use Rattle.std.specs.Prelude.{◌≡◌};
ghost use Rattle.words.specs.MapWord.{map_word_of};
ghost use Rattle.pairs.specs.Comparison.{frame_compared};
ghost use Rattle.pairs.specs.Pair.{granule_state, granule_undamaged, granule_vacant, pair_at, frame_undamaged, frame_hosts, pair_of};

use tables::row;
use words::{FrameWord, Granule, MapWord};

// What a granule holds. Damaged: its map word is, or is not named back.
// Damaged is one of document 01's states, which `granule_state` and `pair_at` give: it stays a case, and is no absent value.
#[derive(Clone, Copy, PartialEq, Eq)]
pub enum GranuleState {
    Vacant,
    Frame { shared: bool, frame: usize },
    Guarded,
    Damaged,
}

impl GranuleState {
    pub fn is_undamaged(self) -> bool
        ensures { result ≡ granule_undamaged self }
    {
        self != GranuleState::Damaged
    }

    pub fn is_vacant(self) -> bool
        ensures { result ≡ granule_vacant self }
    {
        self == GranuleState::Vacant
    }
}

// Whose a frame is. Damaged: its frame word is, or is not named back; a case of `frame_state` and `pair_of`, like a granule's.
#[derive(Clone, Copy, PartialEq, Eq)]
pub enum FrameState {
    Host,
    Waiting,
    Owned {
        slot: usize,
        shared: bool,
        granule: usize,
    },
    Damaged,
}

impl FrameState {
    // As a granule's: a trait for two tests of one line each would be longer than they are.
    pub fn is_undamaged(self) -> bool
        ensures { result ≡ frame_undamaged self }
    {
        self != FrameState::Damaged
    }

    // Whether the frame is the host's.
    pub fn is_host(self) -> bool
        ensures { result ≡ frame_hosts self }
    {
        self == FrameState::Host
    }
}

// What a granule of a slot holds, by its map word and the word of the frame that this names.
// Slot, granule and word are no struct: most callers would make one for this call alone.
pub fn granule_state(frames: &[u32], slot: usize, granule: Granule, word: u32) -> GranuleState
    ensures { result ≡ granule_state frames.now slot granule.0 (map_word_of word) }
{
    let number = granule.0 as usize;
    match MapWord::from(word) {
        MapWord::Vacant => GranuleState::Vacant,
        MapWord::Guarded => GranuleState::Guarded,
        MapWord::Damaged => GranuleState::Damaged,
        MapWord::Frame { shared, frame } => {
            if frame < frames.len() && FrameWord::names(frames[frame], slot, shared, number) {
                GranuleState::Frame { shared, frame }
            } else {
                GranuleState::Damaged
            }
        }
    }
}

// The frame of a granule that is private or shared, as told; of no other granule, nor of one whose frame's word doesn't name it back.
pub fn compare_frame(
    frames: &[u32],
    slot: usize,
    granule: Granule,
    word: u32,
    shared: bool,
) -> Option<usize>
    ensures { result ≡ frame_compared shared (granule_state frames.now slot granule.0 (map_word_of word)) }
{
    let number = granule.0 as usize;
    let frame = MapWord::frame_in(word, shared);
    if frame < MapWord::nameable(frames.len())
        && FrameWord::names(frames[frame], slot, shared, number)
    {
        Some(frame)
    } else {
        None
    }
}

// The pair test from the map: what this granule of this slot holds. No granule, no slot: damaged.
pub fn pair_at(map: &[u32], frames: &[u32], slot: u64, granule: Granule) -> GranuleState
    ensures { result ≡ pair_at frames.now map.now slot granule.0 }
{
    let words = row(map, slot);
    let number = granule.0 as usize;
    if number < words.len() {
        granule_state(frames, slot as usize, granule, words[number])
    } else {
        GranuleState::Damaged
    }
}

// The pair test from the frames: whose this frame is. No frame: damaged.
pub fn pair_of(map: &[u32], frames: &[u32], frame: u64) -> FrameState
    ensures { result ≡ pair_of frames.now map.now frame }
{
    let number = frame as usize;
    if frames.len() <= number {
        return FrameState::Damaged;
    }
    match FrameWord::from(frames[number]) {
        FrameWord::Host => FrameState::Host,
        FrameWord::Waiting => FrameState::Waiting,
        FrameWord::Damaged => FrameState::Damaged,
        FrameWord::Owned {
            slot,
            shared,
            granule,
        } => {
            let words = row(map, slot as u64);
            if granule < words.len() && MapWord::names(words[granule], shared, number) {
                FrameState::Owned {
                    slot,
                    shared,
                    granule,
                }
            } else {
                FrameState::Damaged
            }
        }
    }
}
