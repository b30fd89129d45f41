ghost use Rattle.std.specs.Prelude.{◌≡◌, List, ℕ};
ghost use Rattle.host_registers.specs.Registers.{register_read_of, register_write_of};
ghost use Rattle.record_words.specs.Lent.{lent, lent_after};

use host_registers::{decide_register_read, decide_register_write};
use record_words::{ALL_RECORDS_WORDS, guest_in, put_answer, put_decision};

// The host reads a firmware register of the guest in a slot.
#[unsafe(no_mangle)]
pub extern "C" fn clundip_register_read_abi2(
    records: &[u64; ALL_RECORDS_WORDS],
    slot: u64,
    register: u64,
    answer: &mut [u64; 5],
)
    ensures { (frames map : List ℕ) → lent records.now frames map answer.new
        ≡ lent_after (register_read_of slot register) records.now frames map }
{
    let guest = guest_in(records, slot);
    put_answer(answer, decide_register_read(guest, slot, register));
}

// The host writes a firmware register of the guest in a slot.
#[unsafe(no_mangle)]
pub extern "C" fn clundip_register_write_abi2(
    records: &mut [u64; ALL_RECORDS_WORDS],
    slot: u64,
    register: u64,
    value: u64,
    answer: &mut [u64; 5],
)
    ensures { (frames map : List ℕ) → lent records.new frames map answer.new
        ≡ lent_after (register_write_of slot register value) records.old frames map }
{
    let decision = decide_register_write(guest_in(records, slot), slot, register, value);
    put_decision(records, slot, decision, answer);
}
