ghost use Rattle.std.specs.Prelude.{◌≡◌, true, false, List, ℕ};
ghost use Rattle.answers.specs.Answer.{numbers_of};
ghost use Rattle.record_words.specs.Words.{monitor_in, answer_words};
ghost use Rattle.host_guests.specs.Calls.{create_of, run_of, show_of};
ghost use Rattle.host_removal.specs.Calls.{remove_of};
ghost use Rattle.record_words.specs.Lent.{lent, lent_after};
ghost use Rattle.embed.specs.Part.{part_words};

use host_guests::{decide_create, decide_run, decide_show, show_row};
use host_removal::decide_remove;
use record_words::{ALL_RECORDS_WORDS, guest_in, monitor_in, put_answer, put_decision};
use tables::row_bounds;

// A guest with ranges is created in the lowest slot that is not live. Two exports, as in the C interface: create_kind is the one body.
#[unsafe(no_mangle)]
pub extern "C" fn clundip_create_abi2(
    records: &mut [u64; ALL_RECORDS_WORDS],
    frames: &[u32],
    map: &[u32],
    answer: &mut [u64; 5],
)
    ensures { lent records.new frames.now map.now answer.new
        ≡ lent_after (create_of false) records.old frames.now map.now }
{
    create_kind(records, frames, map, false, answer);
}

// The same for a guest that knows no ranges.
#[unsafe(no_mangle)]
pub extern "C" fn clundip_create_legacy_abi2(
    records: &mut [u64; ALL_RECORDS_WORDS],
    frames: &[u32],
    map: &[u32],
    answer: &mut [u64; 5],
)
    ensures { lent records.new frames.now map.now answer.new
        ≡ lent_after (create_of true) records.old frames.now map.now }
{
    create_kind(records, frames, map, true, answer);
}

// The guest in a slot is run.
#[unsafe(no_mangle)]
pub extern "C" fn clundip_run_abi2(
    records: &mut [u64; ALL_RECORDS_WORDS],
    slot: u64,
    answer: &mut [u64; 5],
)
    ensures { (frames map : List ℕ) → lent records.new frames map answer.new
        ≡ lent_after (run_of slot) records.old frames map }
{
    let decision = decide_run(guest_in(records, slot), slot);
    put_decision(records, slot, decision, answer);
}

// The guest in a slot is removed.
#[unsafe(no_mangle)]
pub extern "C" fn clundip_remove_abi2(
    records: &mut [u64; ALL_RECORDS_WORDS],
    frames: &mut [u32],
    map: &mut [u32],
    slot: u64,
    answer: &mut [u64; 5],
)
    ensures { lent records.new frames.new map.new answer.new
        ≡ lent_after (remove_of slot) records.old frames.old map.old }
{
    let decision = decide_remove(guest_in(records, slot), frames, map, slot);
    put_decision(records, slot, decision, answer);
}

// The row of the guest in a slot: where it begins in the map table, and how many words it has.
#[unsafe(no_mangle)]
pub extern "C" fn clundip_show_abi2(
    records: &[u64; ALL_RECORDS_WORDS],
    map: &[u32],
    slot: u64,
    part: &mut [u64; 2],
    answer: &mut [u64; 5],
)
    ensures answered { answer.new ≡ answer_words (numbers_of (show_of slot (monitor_in records.now) map.now).answer) }
    ensures part_told { part.new ≡ part_words slot (monitor_in records.now) map.now }
{
    let guest = guest_in(records, slot);
    let words = show_row(guest, map, slot).len();
    let bounds = row_bounds(map.len(), slot);
    put_answer(answer, decide_show(guest, map, slot));
    if words == 0 {
        *part = [0, 0];
    } else {
        *part = [bounds.start as u64, words as u64];
    }
}

// A guest of either kind is created.
fn create_kind(
    records: &mut [u64; ALL_RECORDS_WORDS],
    frames: &[u32],
    map: &[u32],
    legacy: bool,
    answer: &mut [u64; 5],
)
    ensures { lent records.new frames.now map.now answer.new
        ≡ lent_after (create_of legacy) records.old frames.now map.now }
{
    let slot = monitor_in(records).free_slot();
    let decision = decide_create(frames, map, slot, legacy);
    put_decision(records, slot, decision, answer);
}
