ghost use Rattle.std.specs.Prelude.{◌≡◌, ◌<◌};
ghost use Rattle.commands.specs.State.{state, answered};
ghost use Rattle.commands.specs.Command.{view, result_with, result_of};
ghost use Rattle.guest_aborts.specs.Calls.{unbacked, guest_access_of, abort_command, abort_of};

use answers::Answer;
use commands::{Decision, Reply};
use guest_callers::caller_admission;
use pairs::{GranuleState, granule_state};
use records::{Guest, Monitor};
use tables::row;
use words::Granule;

// An access of the guest in a slot that found no page, at any address. It answers for any tables, slot number and records.
#[tactic(auto, using(commands::proofs::CommandLaws::applying), unfolding(crate::specs::Calls::abort_of))]
pub fn abort(monitor: Monitor, frames: &[u32], map: &[u32], slot: u64, ipa: u64) -> Reply
    ensures { answered (state frames.now map.now result.monitor) result.answer
        ≡ abort_of slot ipa (state frames.now map.now monitor) }
{
    let guest = monitor.guest(slot);
    decide_abort(guest, frames, map, slot, ipa).reply(monitor, slot)
}

// What an abort decides by the record of its slot, any record where the slot is above 7.
pub fn decide_abort(guest: Guest, frames: &[u32], map: &[u32], slot: u64, ipa: u64) -> Decision
    ensures { result_with frames.now map.now result
        ≡ result_of (abort_command slot ipa) (view frames.now map.now slot guest) }
{
    match caller_admission(frames, map, slot, guest) {
        Err(refusal) => Decision::keep(refusal),
        Ok(()) => Decision::keep(guest_access(frames, map, slot, ipa, guest)),
    }
}

// What an access of a live guest at this address comes to. A type for a slot below 8 would be made and taken apart at this one call.
#[tactic(auto, using(crate::proofs::AbortLaws::access_beyond, crate::proofs::AbortLaws::access_within))]
fn guest_access(frames: &[u32], map: &[u32], slot: u64, ipa: u64, guest: Guest) -> Answer
    requires { slot < 8 }
    ensures { result ≡ guest_access_of frames.now map.now slot ipa guest }
{
    let granule = Granule::holding(ipa);
    let Some(&word) = row(map, slot).get(granule.0 as usize) else {
        return access_unbacked(ipa, guest);
    };
    match granule_state(frames, slot as usize, granule, word) {
        GranuleState::Vacant => access_unbacked(ipa, guest),
        GranuleState::Frame { .. } => Answer::Resume,
        GranuleState::Guarded => Answer::MmioExit(ipa),
        GranuleState::Damaged => Answer::Damaged,
    }
}

// An access where nothing backs the address.
fn access_unbacked(ipa: u64, guest: Guest) -> Answer
    ensures { result ≡ unbacked ipa guest }
{
    if guest.enrolled {
        Answer::Exception
    } else {
        Answer::MmioExit(ipa)
    }
}
