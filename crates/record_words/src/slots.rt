ghost use Rattle.std.specs.Prelude.{◌≡◌};
ghost use Rattle.records.specs.Monitor.{guest_of};
ghost use Rattle.records.specs.Change.{with_change};
ghost use Rattle.record_words.specs.Words.{monitor_in, words_after};

use records::{Change, GUEST_WORDS, Guest, Monitor};
use std::array;

// The words of the records of all slots.
pub const ALL_RECORDS_WORDS: usize = 8 * GUEST_WORDS;

// The record of a slot, of any words. A slot above 7 has that of no guest.
pub fn guest_in(words: &[u64; ALL_RECORDS_WORDS], slot: u64) -> Guest
    ensures { result ≡ guest_of (monitor_in words.now) slot }
{
    if slot < 8 {
        let start = GUEST_WORDS * (slot as usize);
        let own = words[start..].first_chunk::<GUEST_WORDS>().unwrap();
        Guest::from(*own)
    } else {
        Guest::zero()
    }
}

// The records of all slots, of any words.
pub fn monitor_in(words: &[u64; ALL_RECORDS_WORDS]) -> Monitor
    ensures { result ≡ monitor_in words.now }
{
    Monitor {
        guests: array::from_fn(|slot| guest_in(words, slot as u64)),
    }
}

// Makes a change of the record of a slot. Where that stays as it is, and for a slot above 7, no word changes.
// It stays out of line: built into its callers it costs a hypercall 10 ns, and few calls change a record.
#[inline(never)]
pub fn put_change(words: &mut [u64; ALL_RECORDS_WORDS], slot: u64, change: Change)
    ensures { words.new ≡ words_after words.old (with_change (monitor_in words.old) slot change) }
{
    if 8 <= slot {
        return;
    }
    if !change.alters() {
        return;
    }
    let guest = guest_in(words, slot);
    let own = <[u64; GUEST_WORDS]>::from(change.apply(guest));
    if <[u64; GUEST_WORDS]>::from(guest) != own {
        let at = GUEST_WORDS * (slot as usize);
        words[at..at + GUEST_WORDS].copy_from_slice(&own);
    }
}
