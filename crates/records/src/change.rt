ghost use Rattle.std.specs.Prelude.{◌≡◌};
ghost use Rattle.records.specs.Change.{bitmap_of, with_bitmap, changed, alters};

use crate::guest::Guest;

// The firmware registers, in the order of their numbers.
#[derive(Clone, Copy, PartialEq, Eq)]
pub enum FirmwareRegister {
    Std,
    StdHyp,
    VendorHyp,
    // The number belongs to no register. A value and no error: `bitmap_of` answers 0 for it.
    Unknown,
}

// What a call does to the record of its slot.
#[derive(Clone, Copy, PartialEq, Eq)]
pub enum Change {
    Kept,
    // With the kind of the guest.
    Created {
        legacy: bool,
    },
    Removed,
    Run,
    Enrolled,
    Written {
        register: FirmwareRegister,
        value: u64,
    },
}

impl FirmwareRegister {
    // The bitmap as a record holds it.
    pub fn bitmap(self, guest: Guest) -> u64
        ensures { result ≡ bitmap_of self guest }
    {
        match self {
            FirmwareRegister::Std => guest.std,
            FirmwareRegister::StdHyp => guest.std_hyp,
            FirmwareRegister::VendorHyp => guest.vendor_hyp,
            FirmwareRegister::Unknown => 0,
        }
    }

    // The record with the bitmap put in. Nothing else changes.
    fn with_bitmap(self, guest: Guest, value: u64) -> Guest
        ensures { result ≡ with_bitmap self value guest }
    {
        match self {
            FirmwareRegister::Std => Guest {
                std: value,
                ..guest
            },
            FirmwareRegister::StdHyp => Guest {
                std_hyp: value,
                ..guest
            },
            FirmwareRegister::VendorHyp => Guest {
                vendor_hyp: value,
                ..guest
            },
            FirmwareRegister::Unknown => guest,
        }
    }
}

impl Change {
    // Whether it alters a record at all: one is stored where it does.
    pub fn alters(self) -> bool
        ensures { result ≡ alters self }
    {
        !matches!(self, Change::Kept)
    }

    // The record that it leaves. A guest just created has every field set anew, the bitmaps to their limits; a legacy guest counts as enrolled.
    pub fn apply(self, guest: Guest) -> Guest
        ensures { result ≡ changed self guest }
    {
        match self {
            Change::Kept => guest,
            Change::Created { legacy } => Guest {
                live: true,
                legacy,
                enrolled: legacy,
                vendor_hyp: 1,
                ..Guest::zero()
            },
            Change::Removed => Guest::zero(),
            Change::Run => Guest { run: true, ..guest },
            Change::Enrolled => Guest {
                enrolled: true,
                ..guest
            },
            Change::Written { register, value } => register.with_bitmap(guest, value),
        }
    }
}
