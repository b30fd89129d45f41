ghost use Rattle.std.specs.Prelude.{◌≡◌, ◌<◌};
ghost use Rattle.commands.specs.State.{state, answered};
ghost use Rattle.commands.specs.Command.{view, result_with, result_by, result_of};
ghost use Rattle.records.specs.declared.guest.Guest.{Guest};
ghost use Rattle.guest_hypercalls.specs.Calls.{act_of, hypercall_command, hypercall_of};

use crate::admissions::row_admission;
use crate::work::{answer_of, change_row};
use answers::Answer;
use call_table::{Action, CallRow};
use commands::{Decision, Reply};
use functions::{Error, Registers};
use guest_callers::caller_admission;
use records::{Change, Guest, Monitor};

// A hypercall of the guest in a slot. It answers for any tables, slot number, records and registers.
#[tactic(auto, using(commands::proofs::CommandLaws::applying), unfolding(crate::specs::Calls::hypercall_of))]
pub fn hypercall(
    monitor: Monitor,
    frames: &mut [u32],
    map: &mut [u32],
    slot: u64,
    registers: Registers,
) -> Reply
    ensures { answered (state frames.new map.new result.monitor) result.answer
        ≡ hypercall_of slot registers (state frames.old map.old monitor) }
{
    let guest = monitor.guest(slot);
    let decision = decide_hypercall(guest, frames, map, slot, registers);
    decision.reply(monitor, slot)
}

// What a hypercall decides by the record of its slot, any record where the slot is above 7. The tables it changes.
pub fn decide_hypercall(
    guest: Guest,
    frames: &mut [u32],
    map: &mut [u32],
    slot: u64,
    registers: Registers,
) -> Decision
    ensures { result_with frames.new map.new result
        ≡ result_of (hypercall_command slot registers) (view frames.old map.old slot guest) }
{
    if let Err(refusal) = caller_admission(frames, map, slot, guest) {
        return Decision::keep(refusal);
    }
    let row = CallRow::of(guest.legacy, registers.r0);
    if let Err(refusal) = row_admission(row, registers, guest) {
        return Decision::keep(refusal);
    }
    act(frames, map, slot, registers, row.error, row.action)
}

// What a hypercall does whose tests have passed. It looks at no record, so the equation holds with any. A match and no closures, as
// `act_of`: an action is data of the table. A type for a slot below 8 would be made and taken apart at this one call.
#[tactic(auto, using(words::proofs::RegisterLaws::zero_extended), unfolding(crate::specs::Calls::act_of))]
fn act(
    frames: &mut [u32],
    map: &mut [u32],
    slot: u64,
    registers: Registers,
    error: Error,
    action: Action,
) -> Decision
    requires { slot < 8 }
    ensures { (guest : Guest) → result_with frames.new map.new result
        ≡ result_by (view frames.old map.old slot guest) (act_of registers error action (view frames.old map.old slot guest)) }
{
    match action {
        Action::Refuse => Decision::keep(Answer::from(error)),
        Action::Tell { r0, r1, r2, r3 } => Decision::keep(Answer::Return {
            r0: r0 as i64,
            r1: r1 as u64,
            r2: r2 as u64,
            r3: r3 as u64,
        }),
        Action::Enroll => Decision {
            change: Change::Enrolled,
            answer: Answer::returned(0, 0),
        },
        Action::Change { operation, count } => {
            let granules = count.granules(registers.r2);
            let progress = change_row(frames, map, slot, registers.r1, granules, operation);
            Decision::keep(answer_of(progress, count.is_told(), error))
        }
    }
}
