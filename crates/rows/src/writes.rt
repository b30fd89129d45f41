ghost use Rattle.std.specs.Prelude.{◌≡◌, length};
ghost use Rattle.words.specs.MapWord.{map_word_of};
ghost use Rattle.rows.specs.WholeRow.{vacant_row, frame_freed, frames_freed, frame_named, frames_named};

use words::{FrameWord, MapWord};

// A row made vacant. Each frame that it named waits to be cleared; the answer is their number.
pub fn vacate(row: &mut [u32], frames: &mut [u32]) -> u64
    ensures { (row.new ≡ vacant_row (length row.old))
        × (frames.new ≡ frames_freed row.old frames.old)
        × (result ≡ frames_named row.old) }
{
    let mut named = 0;
    for word in row.iter_mut() {
        named += free_frame(frames, *word);
        *word = MapWord::VACANT;
    }
    named
}

// The frame that a map word names waits to be cleared. The answer is the number of frames: 1, or 0 for a word that names none.
fn free_frame(frames: &mut [u32], word: u32) -> u64
    ensures { (frames.new ≡ frame_freed (map_word_of word) frames.old) × (result ≡ frame_named (map_word_of word)) }
{
    match MapWord::from(word) {
        MapWord::Frame { shared: _, frame } => {
            if frame < frames.len() {
                frames[frame] = FrameWord::WAITING;
            }
            1
        }
        MapWord::Vacant | MapWord::Guarded | MapWord::Damaged => 0,
    }
}
