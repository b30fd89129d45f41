ghost use Rattle.std.specs.Prelude.{◌≡◌};
ghost use Rattle.tables.specs.Length.{frames_hold, map_holds, lengths_hold};

// Whether a frame table may have this many words: from 1 to 16,384.
#[tactic(auto, unfolding(crate::specs::Length::frames_hold))]
pub fn frame_length_holds(words: usize) -> bool
    ensures { result ≡ frames_hold words }
{
    (1..=16384).contains(&words)
}

// Whether a map table may have this many words: eight rows of one width, from 1 to 4,096.
#[tactic(auto, unfolding(crate::specs::Length::map_holds))]
pub fn map_length_holds(words: usize) -> bool
    ensures { result ≡ map_holds words }
{
    words % 8 == 0 && (1..=4096).contains(&(words / 8))
}

// Whether both tables' lengths hold.
pub fn lengths_hold(frame_words: usize, map_words: usize) -> bool
    ensures { result ≡ lengths_hold frame_words map_words }
{
    frame_length_holds(frame_words) && map_length_holds(map_words)
}
