ghost use Rattle.std.specs.Prelude.{◌≡◌, List, ℕ};
ghost use Rattle.host_donation.specs.Calls.{donate_of};
ghost use Rattle.host_frames.specs.Calls.{cleared_of, host_access_of};
ghost use Rattle.record_words.specs.Lent.{lent, lent_after};

use host_donation::decide_donate;
use host_frames::{decide_access, decide_cleared};
use record_words::{ALL_RECORDS_WORDS, guest_in, put_answer};

// A frame of the host is given to a granule of the guest in a slot.
#[unsafe(no_mangle)]
pub extern "C" fn clundip_donate_abi2(
    records: &[u64; ALL_RECORDS_WORDS],
    frames: &mut [u32],
    map: &mut [u32],
    slot: u64,
    frame: u64,
    granule: u64,
    answer: &mut [u64; 5],
)
    ensures { lent records.now frames.new map.new answer.new
        ≡ lent_after (donate_of slot frame granule) records.now frames.old map.old }
{
    let decision = decide_donate(guest_in(records, slot), frames, map, slot, frame, granule);
    put_answer(answer, decision);
}

// A waiting frame was cleared, and is the host's.
#[unsafe(no_mangle)]
pub extern "C" fn clundip_cleared_abi2(
    frames: &mut [u32],
    map: &[u32],
    frame: u64,
    answer: &mut [u64; 5],
)
    ensures { (records : List ℕ) → lent records frames.new map.now answer.new
        ≡ lent_after (cleared_of frame) records frames.old map.now }
{
    put_answer(answer, decide_cleared(frames, map, frame));
}

// Whether the host may access a frame.
#[unsafe(no_mangle)]
pub extern "C" fn clundip_access_abi2(
    frames: &[u32],
    map: &[u32],
    frame: u64,
    answer: &mut [u64; 5],
)
    ensures { (records : List ℕ) → lent records frames.now map.now answer.new
        ≡ lent_after (host_access_of frame) records frames.now map.now }
{
    put_answer(answer, decide_access(frames, map, frame));
}
