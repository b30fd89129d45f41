ghost use Rattle.std.specs.Prelude.{◌≡◌};
ghost use Rattle.records.specs.Monitor.{zero_guest, live_in, guest_in, words_of};

// The words of a record.
pub const GUEST_WORDS: usize = 7;

// The record of a guest slot. A slot that is not live has no guest, whatever else its record holds.
#[derive(Clone, Copy, PartialEq, Eq)]
pub struct Guest {
    // A flag beside the other fields: at C the words of a dead slot stand in their places too, as `words_of` says.
    pub live: bool,
    // It knows no ranges of granules. A flag and no enum of kinds: it is a word at C, and `call_row_of` and `create_of` take it.
    pub legacy: bool,
    pub run: bool,
    pub enrolled: bool,
    pub std: u64,
    pub std_hyp: u64,
    pub vendor_hyp: u64,
}

impl Guest {
    // The record of no guest, as in fresh records and after a removal.
    pub fn zero() -> Guest
        ensures { result ≡ zero_guest }
    {
        Guest::from([0; GUEST_WORDS])
    }

    // Whether this record is that of a guest in a slot. A slot above 7 has none, whatever record is handed in.
    pub fn lives_in(self, slot: u64) -> bool
        ensures { result ≡ live_in slot self }
    {
        slot < 8 && self.live
    }
}

impl From<[u64; GUEST_WORDS]> for Guest {
    ghost from_gives = { λ words guest. guest ≡ guest_in words };

    // The record that its words say. A flag word other than 0 counts as set. Only here a record is written out field by field.
    fn from(words: [u64; GUEST_WORDS]) -> Guest {
        let [live, legacy, run, enrolled, std, std_hyp, vendor_hyp] = words;
        Guest {
            live: live != 0,
            legacy: legacy != 0,
            run: run != 0,
            enrolled: enrolled != 0,
            std,
            std_hyp,
            vendor_hyp,
        }
    }
}

impl From<Guest> for [u64; GUEST_WORDS] {
    ghost from_gives = { λ guest words. words ≡ words_of guest };

    // The words of a record, its flags as 0 or 1.
    fn from(guest: Guest) -> [u64; GUEST_WORDS] {
        [
            guest.live as u64,
            guest.legacy as u64,
            guest.run as u64,
            guest.enrolled as u64,
            guest.std,
            guest.std_hyp,
            guest.vendor_hyp,
        ]
    }
}
