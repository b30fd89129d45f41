ghost use Rattle.std.specs.Prelude.{◌≡◌, length};
ghost use Rattle.tables.specs.Row.{row_of, with_row};
ghost use Rattle.commands.specs.State.{state, answered};
ghost use Rattle.commands.specs.Tests.{first_refusal, refusal_by};
ghost use Rattle.commands.specs.Command.{view, tests_of, result_with, result_of};
ghost use Rattle.rows.specs.WholeRow.{vacant_row, frames_freed, frames_named};
ghost use Rattle.host_removal.specs.Calls.{remove_command, remove_of};

use answers::Answer;
use commands::{Decision, Reply, check, check_after};
use records::{Change, Guest, Monitor};
use rows::{row_undamaged, vacate};
use tables::{lengths_hold, row, row_bounds};

// The guest in a slot is removed: its row is vacant, its frames wait to be cleared. It answers for any tables, slot number and records.
#[tactic(auto, using(commands::proofs::CommandLaws::applying), unfolding(crate::specs::Calls::remove_of))]
pub fn remove(monitor: Monitor, frames: &mut [u32], map: &mut [u32], slot: u64) -> Reply
    ensures { answered (state frames.new map.new result.monitor) result.answer
        ≡ remove_of slot (state frames.old map.old monitor) }
{
    let guest = monitor.guest(slot);
    let decision = decide_remove(guest, frames, map, slot);
    decision.reply(monitor, slot)
}

// What remove decides by the record of its slot, any record where the slot is above 7. The tables it changes.
pub fn decide_remove(guest: Guest, frames: &mut [u32], map: &mut [u32], slot: u64) -> Decision
    ensures { result_with frames.new map.new result
        ≡ result_of (remove_command slot) (view frames.old map.old slot guest) }
{
    if let Err(refusal) = remove_admission(frames, map, slot, guest) {
        return Decision::keep(refusal);
    }
    let count = vacate_slot(frames, map, slot);
    Decision {
        change: Change::Removed,
        answer: Answer::Done(count),
    }
}

// The tests of remove, of the record of the slot's guest. A table whose length is out of bounds is not walked.
fn remove_admission(frames: &[u32], map: &[u32], slot: u64, guest: Guest) -> Result<(), Answer>
    ensures { refusal_by result ≡ first_refusal (tests_of (remove_command slot) (view frames.now map.now slot guest)) }
{
    let lengths = check(lengths_hold(frames.len(), map.len()), Answer::BadLength);
    check_after(lengths, guest.lives_in(slot), Answer::NoGuest)?;
    check(
        row_undamaged(row(map, slot), frames, slot as usize),
        Answer::Damaged,
    )
}

// The row of a slot, lent on as a part of the map table, made vacant. The answer is the number of frames that it named.
#[tactic(auto, using(tables::proofs::RowLaws::in_order))]
fn vacate_slot(frames: &mut [u32], map: &mut [u32], slot: u64) -> u64
    ensures { (map.new ≡ with_row map.old slot (vacant_row (length (row_of map.old slot))))
        × (frames.new ≡ frames_freed (row_of map.old slot) frames.old)
        × (result ≡ frames_named (row_of map.old slot)) }
{
    let bounds = row_bounds(map.len(), slot);
    vacate(&mut map[bounds], frames)
}
