ghost use Rattle.std.specs.Prelude.{◌≡◌, ◌<◌, ℕ, length, Some, Ok};
ghost use Rattle.runs.specs.Run.{run};
ghost use Rattle.words.specs.MapWord.{map_word_of};
ghost use Rattle.pairs.specs.Pair.{granule_state};
ghost use Rattle.granules.specs.Comparison.{compared, refusal_of};
ghost use Rattle.granules.specs.Step.{place, row_step, one_end};

use crate::kinds::{Kind, Operation};
use pairs::{compare_frame, granule_state};
use words::{FrameWord, Granule, MapWord};

// Why a granule is left as it is.
#[derive(Clone, Copy, PartialEq, Eq)]
pub enum StepError {
    // It is beyond the row, or not of the kind that the operation needs.
    NotDone,
    // Its word is damaged, or not named back.
    Damaged,
}

// One granule of a slot, in the slot's row: its words are compared with those that the operation needs, and written where they are so.
// Only where they differ is the pair test asked, and then for the reason.
pub fn change_granule(
    row: &mut [u32],
    frames: &mut [u32],
    slot: usize,
    granule: Granule,
    operation: Operation,
) -> Result<(), StepError>
    ensures { run (row_step operation slot (length row.old)) 1 (place row.old frames.old granule.0)
        ≡ one_end result row.new frames.new granule.0 }
{
    let number = granule.0 as usize;
    if row.len() <= number {
        return Err(StepError::NotDone);
    }
    let needs = operation.needs;
    let makes = operation.makes;
    let word = row[number];
    let held = compare(frames, slot, granule, word, needs)?;
    if makes.has_frame() {
        let Some(frame) = held else {
            return Err(StepError::NotDone);
        };
        let from = needs.is_shared();
        let to = makes.is_shared();
        row[number] = MapWord::reshared(word, from, to);
        frames[frame] = FrameWord::reshared(frames[frame], from, to);
        return Ok(());
    }
    row[number] = MapWord::of_bare(makes.is_guarded());
    if let Some(frame) = held {
        frames[frame] = FrameWord::WAITING;
    }
    Ok(())
}

// A granule with this map word, compared with one of a kind: the frame that it holds, if any, or why it is left.
fn compare(
    frames: &[u32],
    slot: usize,
    granule: Granule,
    word: u32,
    kind: Kind,
) -> Result<Option<usize>, StepError>
    ensures compared { result ≡ compared kind (granule_state frames.now slot granule.0 (map_word_of word)) }
    ensures inside { (f : ℕ) → result ≡ Ok (Some f) → f < length frames.now }
{
    if kind.has_frame() {
        if let Some(frame) = compare_frame(frames, slot, granule, word, kind.is_shared()) {
            return Ok(Some(frame));
        }
    } else if MapWord::is_bare(word, kind.is_guarded()) {
        return Ok(None);
    }
    Err(refusal(frames, slot, granule, word))
}

// Why a granule with this map word is left: the pair test tells.
fn refusal(frames: &[u32], slot: usize, granule: Granule, word: u32) -> StepError
    ensures { result ≡ refusal_of (granule_state frames.now slot granule.0 (map_word_of word)) }
{
    if granule_state(frames, slot, granule, word).is_undamaged() {
        StepError::NotDone
    } else {
        StepError::Damaged
    }
}
