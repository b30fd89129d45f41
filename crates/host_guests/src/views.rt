ghost use Rattle.std.specs.Prelude.{◌≡◌, List, [], ℕ, ◌≤◌, length};
ghost use Rattle.tables.specs.Row.{bounds_of, place_at};
ghost use Rattle.commands.specs.Tests.{first_refusal, refusal_by};
ghost use Rattle.commands.specs.Command.{view, tests_of, result_with, result_of};
ghost use Rattle.host_guests.specs.Calls.{show_command, shown_by, show_of};

use answers::Answer;
use commands::{Decision, check, check_after};
use records::{Change, Guest, Monitor};
use tables::{map_length_holds, row};

// The row of the guest in a slot, as that part of the map table itself, which begins at the row's first word; where the call is refused, an
// empty part. It answers for any map table, slot number and records.
#[tactic(auto, unfolding(crate::specs::Calls::show_of))]
pub fn show(monitor: Monitor, map: &[u32], slot: u64) -> &[u32]
    ensures words { result.now ≡ (show_of slot monitor map.now).part }
    ensures place { 1 ≤ length result.now → result.ref_ptr ≡ place_at map.entry.ref_ptr (bounds_of (length map.now) slot).start }
{
    show_row(monitor.guest(slot), map, slot)
}

// The same by the record of the slot, any record where the slot is above 7.
pub fn show_row(guest: Guest, map: &[u32], slot: u64) -> &[u32]
    ensures { (result.now ≡ (shown_by slot guest map.now).part)
        × (1 ≤ length result.now → result.ref_ptr ≡ place_at map.entry.ref_ptr (bounds_of (length map.now) slot).start) }
{
    match show_admission(map, guest, slot) {
        Err(_) => &map[0..0],
        Ok(()) => row(map, slot),
    }
}

// The verdict of the same call.
pub fn show_verdict(monitor: Monitor, map: &[u32], slot: u64) -> Answer
    ensures { result ≡ (show_of slot monitor map.now).answer }
{
    decide_show(monitor.guest(slot), map, slot).answer
}

// What show decides by the record of its slot, any record where the slot is above 7.
pub fn decide_show(guest: Guest, map: &[u32], slot: u64) -> Decision
    ensures { (frames : List ℕ) → result_with frames map.now result ≡ result_of (show_command slot) (view frames map.now slot guest) }
{
    Decision::after(
        show_admission(map, guest, slot),
        Change::Kept,
        Answer::Done(0),
    )
}

// The tests of show, of the record of the slot's guest.
fn show_admission(map: &[u32], guest: Guest, slot: u64) -> Result<(), Answer>
    ensures { refusal_by result ≡ first_refusal (tests_of (show_command slot) (view [] map.now slot guest)) }
{
    let length = check(map_length_holds(map.len()), Answer::BadLength);
    check_after(length, guest.lives_in(slot), Answer::NoGuest)
}
