ghost use Rattle.std.specs.Prelude.{◌≡◌, true, List, ◌++◌, ℕ};
ghost use Rattle.commands.specs.State.{state, answered};
ghost use Rattle.commands.specs.Tests.{first_refusal, refusal_by};
ghost use Rattle.commands.specs.Command.{view, both_tables, length_tests, result_with, result_of};
ghost use Rattle.records.specs.declared.guest.Guest.{Guest};
ghost use Rattle.host_guests.specs.Calls.{create_tests, create_command, create_of, run_command, run_of};

use answers::Answer;
use commands::{Decision, Reply, check, check_after};
use records::{Change, Guest, Monitor};
use rows::row_vacant;
use tables::{lengths_hold, row};

// A guest is created in the lowest slot that is not live: one with ranges, or a legacy one, which knows none. It answers for any tables and
// records.
#[tactic(auto, using(commands::proofs::CommandLaws::applying), unfolding(crate::specs::Calls::create_of))]
pub fn create(monitor: Monitor, frames: &[u32], map: &[u32], legacy: bool) -> Reply
    ensures { answered (state frames.now map.now result.monitor) result.answer
        ≡ create_of legacy (state frames.now map.now monitor) }
{
    let slot = monitor.free_slot();
    decide_create(frames, map, slot, legacy).reply(monitor, slot)
}

// A guest that knows no ranges is created.
pub fn create_legacy(monitor: Monitor, frames: &[u32], map: &[u32]) -> Reply
    ensures { answered (state frames.now map.now result.monitor) result.answer
        ≡ create_of true (state frames.now map.now monitor) }
{
    create(monitor, frames, map, true)
}

// What create decides of the slot that it would take: the lowest that is not live, or 8. It looks at no record, so the equation holds with any.
pub fn decide_create(frames: &[u32], map: &[u32], slot: u64, legacy: bool) -> Decision
    ensures { (guest : Guest) → result_with frames.now map.now result
        ≡ result_of (create_command legacy) (view frames.now map.now slot guest) }
{
    Decision::after(
        create_admission(frames, map, slot),
        Change::Created { legacy },
        Answer::Done(slot),
    )
}

// The guest in a slot is run. It answers for any slot number and records.
#[tactic(auto, using(commands::proofs::CommandLaws::applying), unfolding(crate::specs::Calls::run_of))]
pub fn run(monitor: Monitor, slot: u64) -> Reply
    ensures { (frames map : List ℕ) → answered (state frames map result.monitor) result.answer ≡ run_of slot (state frames map monitor) }
{
    let guest = monitor.guest(slot);
    decide_run(guest, slot).reply(monitor, slot)
}

// What run decides by the record of its slot, any record where the slot is above 7.
pub fn decide_run(guest: Guest, slot: u64) -> Decision
    ensures { (frames map : List ℕ) → result_with frames map result ≡ result_of (run_command slot) (view frames map slot guest) }
{
    let tests = check(guest.lives_in(slot), Answer::NoGuest);
    Decision::after(tests, Change::Run, Answer::Done(0))
}

// The tests of create, for the slot that it would take. A table whose length is out of bounds is not walked.
fn create_admission(frames: &[u32], map: &[u32], slot: u64) -> Result<(), Answer>
    ensures { refusal_by result ≡ first_refusal (length_tests both_tables frames.now map.now ++ create_tests map.now slot) }
{
    check(lengths_hold(frames.len(), map.len()), Answer::BadLength)?;
    let whole = check(row_vacant(row(map, slot)), Answer::Damaged);
    check_after(whole, slot < 8, Answer::NoFreeSlot)
}
