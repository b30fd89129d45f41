ghost use Rattle.std.specs.Prelude.{◌≡◌, ◌+◌, ◌<◌, min};
ghost use Rattle.runs.specs.Run.{ended, run};
ghost use Rattle.words.specs.Granule.{granule_of};
ghost use Rattle.granules.specs.Step.{place, table_step, stop_by};
ghost use Rattle.ranges.specs.Range.{range_limit};
ghost use Rattle.guest_hypercalls.specs.Calls.{done_answer};

use answers::Answer;
use functions::Error;
use granules::{Operation, StepError};
use ranges::{Progress, change_range};
use tables::row_bounds;
use words::Granule;

// Granules of a slot from the one at this base upward. The slot's row is lent on as a part of the map table that begins in its middle.
// A type for a slot below 8 would be made and taken apart at this one call.
#[tactic(auto, using(tables::proofs::RowLaws::in_order))]
pub(crate) fn change_row(
    frames: &mut [u32],
    map: &mut [u32],
    slot: u64,
    base: u64,
    count: u64,
    operation: Operation,
) -> Progress
    ensures { slot < 8 → run (table_step operation slot) (min range_limit count) (place map.old frames.old (granule_of base))
        ≡ ended result.done (place map.new frames.new (granule_of base + result.done)) (stop_by result.outcome) }
{
    let bounds = row_bounds(map.len(), slot);
    change_range(
        &mut map[bounds],
        frames,
        slot as usize,
        Granule::holding(base),
        count,
        operation,
    )
}

// The answer of a call that worked on granules: 0 if one was done at least, and their number in R1 where the call tells it.
pub(crate) fn answer_of(progress: Progress, tells: bool, error: Error) -> Answer
    ensures { result ≡ done_answer error tells progress.done (stop_by progress.outcome) }
{
    let done = progress.done;
    if 0 < done {
        return Answer::returned(0, if tells { done } else { 0 });
    }
    match progress.outcome {
        Err(StepError::Damaged) => Answer::Damaged,
        Ok(()) | Err(StepError::NotDone) => Answer::from(error),
    }
}
