ghost use Rattle.std.specs.Prelude.{◌≡◌};
ghost use Rattle.commands.specs.State.{state, answered};
ghost use Rattle.commands.specs.Tests.{first_refusal, refusal_by};
ghost use Rattle.commands.specs.Command.{view, tests_of, result_with, result_of};
ghost use Rattle.host_donation.specs.Calls.{donate_command, donate_of};

use answers::Answer;
use commands::{Decision, Reply, check, check_after};
use pairs::{pair_at, pair_of};
use records::{Guest, Monitor};
use tables::{lengths_hold, row_bounds, row_width};
use words::{FrameWord, Granule, MapWord};

// The host gives a frame to a vacant granule of a live guest, as private. It answers for any tables, records, slot, frame and granule number.
#[tactic(auto, using(commands::proofs::CommandLaws::applying), unfolding(crate::specs::Calls::donate_of))]
pub fn donate(
    monitor: Monitor,
    frames: &mut [u32],
    map: &mut [u32],
    slot: u64,
    frame: u64,
    granule: u64,
) -> Reply
    ensures { answered (state frames.new map.new result.monitor) result.answer
        ≡ donate_of slot frame granule (state frames.old map.old monitor) }
{
    let guest = monitor.guest(slot);
    let decision = decide_donate(guest, frames, map, slot, frame, granule);
    decision.reply(monitor, slot)
}

// What donate decides by the record of its slot, any record where the slot is above 7. The tables it changes.
#[tactic(auto, using(crate::proofs::DonationLaws::donate_in_range, crate::proofs::DonationLaws::donate_index))]
pub fn decide_donate(
    guest: Guest,
    frames: &mut [u32],
    map: &mut [u32],
    slot: u64,
    frame: u64,
    granule: u64,
) -> Decision
    ensures { result_with frames.new map.new result
        ≡ result_of (donate_command slot frame granule) (view frames.old map.old slot guest) }
{
    if let Err(refusal) = donate_admission(frames, map, slot, frame, granule, guest) {
        return Decision::keep(refusal);
    }
    let bounds = row_bounds(map.len(), slot);
    let number = granule as usize;
    let given = frame as usize;
    map[bounds.start + number] = MapWord::of_frame(false, given);
    frames[given] = FrameWord::of_owner(slot as usize, false, number);
    Decision::keep(Answer::Done(0))
}

// The tests of donate, of the record of the slot's guest.
fn donate_admission(
    frames: &[u32],
    map: &[u32],
    slot: u64,
    frame: u64,
    granule: u64,
    guest: Guest,
) -> Result<(), Answer>
    ensures { refusal_by result ≡ first_refusal (tests_of (donate_command slot frame granule) (view frames.now map.now slot guest)) }
{
    let lengths = check(lengths_hold(frames.len(), map.len()), Answer::BadLength);
    let live = check_after(lengths, guest.lives_in(slot), Answer::NoGuest);
    let given = check_after(live, (frame as usize) < frames.len(), Answer::OutOfRange);
    check_after(
        given,
        (granule as usize) < row_width(map.len()),
        Answer::OutOfRange,
    )?;
    let here = pair_at(map, frames, slot, Granule(granule));
    check(here.is_undamaged(), Answer::Damaged)?;
    let there = pair_of(map, frames, frame);
    let whole = check(there.is_undamaged(), Answer::Damaged);
    let hosts = check_after(whole, there.is_host(), Answer::InUse);
    check_after(hosts, here.is_vacant(), Answer::InUse)
}
