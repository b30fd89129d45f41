ghost use Rattle.std.specs.Prelude.{◌≡◌};
ghost use Rattle.functions.specs.Rules.{meets, permits, error_answer};

use answers::Answer;
use records::Guest;
use words::Granule;

// A guest's registers at a hypercall.
#[derive(Clone, Copy, Debug, PartialEq, Eq)]
pub struct Registers {
    pub r0: u64,
    pub r1: u64,
    pub r2: u64,
    pub r3: u64,
}

// What a call asks of a register.
#[derive(Clone, Copy, Debug, PartialEq, Eq)]
pub enum Rule {
    Any,
    Zero,
    NotZero,
    // A granule's first address.
    Base,
}

// What a call asks of the caller's record.
#[derive(Clone, Copy, Debug, PartialEq, Eq)]
pub enum Condition {
    Nothing,
    // Bit 0 of VENDOR_HYP.
    Vendor,
    Enrolment,
}

// What a call that can't be done answers in R0.
#[derive(Clone, Copy, Debug, PartialEq, Eq)]
pub enum Error {
    // −1
    NotSupported,
    // −3
    InvalidParameter,
}

impl Rule {
    pub fn meets(self, value: u64) -> bool
        ensures { result ≡ meets self value }
    {
        match self {
            Rule::Any => true,
            Rule::Zero => value == 0,
            Rule::NotZero => 0 < value,
            Rule::Base => Granule::is_base(value),
        }
    }
}

impl Condition {
    pub fn permits(self, guest: Guest) -> bool
        ensures { result ≡ permits self guest }
    {
        match self {
            Condition::Nothing => true,
            Condition::Vendor => guest.vendor_hyp % 2 == 1,
            Condition::Enrolment => guest.enrolled,
        }
    }
}

impl From<Error> for Answer {
    ghost from_gives = { λ error answer. answer ≡ error_answer error };

    fn from(error: Error) -> Answer {
        match error {
            Error::NotSupported => Answer::returned(-1, 0),
            Error::InvalidParameter => Answer::returned(-3, 0),
        }
    }
}
