ghost use Rattle.std.specs.Prelude.{◌≡◌};
ghost use Rattle.records.specs.Monitor.{fresh, guest_of, free_slot};
ghost use Rattle.records.specs.Change.{with_change};

use crate::change::Change;
use crate::guest::Guest;

// The monitor's state: the records of the eight guest slots. A call takes it by value and hands it back.
#[derive(Clone, Copy, PartialEq, Eq)]
pub struct Monitor {
    pub guests: [Guest; 8],
}

impl Monitor {
    // The state before any call.
    pub fn fresh() -> Monitor
        ensures { result ≡ fresh }
    {
        Monitor {
            guests: [Guest::zero(); 8],
        }
    }

    // The record of a slot. A slot above 7 has that of no guest.
    #[tactic(auto, unfolding(crate::specs::Monitor::guest_of))]
    pub fn guest(self, slot: u64) -> Guest
        ensures { result ≡ guest_of self slot }
    {
        if slot < 8 {
            self.guests[slot as usize]
        } else {
            Guest::zero()
        }
    }

    // The lowest slot that is not live, or 8 where all are: no slot, which each test of a slot refuses as it does any other number above 7.
    pub fn free_slot(self) -> u64
        ensures { result ≡ free_slot self }
    {
        self.guests
            .iter()
            .position(|guest| !guest.live)
            .unwrap_or(8) as u64
    }

    // The state with the record of a slot changed. A slot above 7 changes nothing.
    #[tactic(auto, using(crate::proofs::ChangeLaws::beyond), unfolding(crate::specs::Monitor::guest_of, crate::specs::Monitor::with_guest))]
    pub fn with_change(mut self, slot: u64, change: Change) -> Monitor
        ensures { result ≡ with_change self slot change }
    {
        if slot < 8 && change.alters() {
            let at = slot as usize;
            self.guests[at] = change.apply(self.guests[at]);
        }
        self
    }
}
