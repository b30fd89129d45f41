ghost use Rattle.std.specs.Prelude.{◌≡◌};
ghost use Rattle.guest_hypercalls.specs.Calls.{hypercall_of};
ghost use Rattle.guest_aborts.specs.Calls.{abort_of};
ghost use Rattle.functions.specs.Rules.{registers};
ghost use Rattle.record_words.specs.Lent.{lent, lent_after};

use functions::Registers;
use guest_aborts::decide_abort;
use guest_hypercalls::decide_hypercall;
use record_words::{ALL_RECORDS_WORDS, guest_in, put_answer, put_decision};

// A hypercall of the guest in a slot, with R0 to R3.
#[unsafe(no_mangle)]
pub extern "C" fn clundip_hypercall_abi2(
    records: &mut [u64; ALL_RECORDS_WORDS],
    frames: &mut [u32],
    map: &mut [u32],
    slot: u64,
    r0: u64,
    r1: u64,
    r2: u64,
    r3: u64,
    answer: &mut [u64; 5],
)
    ensures { lent records.new frames.new map.new answer.new
        ≡ lent_after (hypercall_of slot (registers r0 r1 r2 r3)) records.old frames.old map.old }
{
    let registers = Registers { r0, r1, r2, r3 };
    let decision = decide_hypercall(guest_in(records, slot), frames, map, slot, registers);
    put_decision(records, slot, decision, answer);
}

// An access of the guest in a slot that found no page.
#[unsafe(no_mangle)]
pub extern "C" fn clundip_abort_abi2(
    records: &[u64; ALL_RECORDS_WORDS],
    frames: &[u32],
    map: &[u32],
    slot: u64,
    ipa: u64,
    answer: &mut [u64; 5],
)
    ensures { lent records.now frames.now map.now answer.new
        ≡ lent_after (abort_of slot ipa) records.now frames.now map.now }
{
    let guest = guest_in(records, slot);
    put_answer(answer, decide_abort(guest, frames, map, slot, ipa));
}
