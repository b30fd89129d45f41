ghost use Rattle.std.specs.Prelude.{◌≡◌};
ghost use Rattle.answers.specs.Answer.{verdict_with_two, returned, numbers_of};

use words::register;

// How a call is answered.
#[derive(Clone, Copy, PartialEq, Eq)]
pub enum Answer {
    // A host call is done; the value is its v0.
    Done(u64),
    // A table's length is out of bounds.
    BadLength,
    // The slot is above 7 or not live.
    NoGuest,
    // The guest was never run.
    NeverRun,
    // A frame is not below F, or a granule not below W.
    OutOfRange,
    // A frame is not the host's, or a granule not vacant.
    InUse,
    // A word that the call must look at is damaged.
    Damaged,
    // All eight slots are live.
    NoFreeSlot,
    // A frame is not waiting to be cleared.
    NotWaiting,
    // A firmware register is refused with this number. It stays a number: `numbers_of` answers for each, as document 01's verdict 9 does.
    RegisterRefused(i64),
    // Control returns to the guest with these registers.
    Return { r0: i64, r1: u64, r2: u64, r3: u64 },
    // The host is to emulate an access at this IPA.
    MmioExit(u64),
    // The guest gets an exception.
    Exception,
    // The guest resumes.
    Resume,
}

// An answer as document 01 numbers it.
#[derive(Clone, Copy, PartialEq, Eq)]
pub struct Numbers {
    pub verdict: u64,
    pub v0: u64,
    pub v1: u64,
    pub v2: u64,
    pub v3: u64,
}

impl Numbers {
    // A verdict with two values, the others zero.
    fn with(verdict: u64, v0: u64, v1: u64) -> Numbers
        ensures { result ≡ verdict_with_two verdict v0 v1 }
    {
        Numbers {
            verdict,
            v0,
            v1,
            v2: 0,
            v3: 0,
        }
    }
}

impl Answer {
    // A return to the guest with R0 and R1, the other registers zero.
    pub fn returned(r0: i64, r1: u64) -> Answer
        ensures { result ≡ returned r0 r1 }
    {
        Answer::Return {
            r0,
            r1,
            r2: 0,
            r3: 0,
        }
    }
}

impl From<Answer> for Numbers {
    ghost from_gives = { λ answer r. r ≡ numbers_of answer };

    #[tactic(auto, unfolding(crate::specs::Answer::numbers_of))]
    fn from(answer: Answer) -> Numbers {
        match answer {
            Answer::Done(value) => Numbers::with(0, value, 0),
            Answer::BadLength => Numbers::with(1, 0, 0),
            Answer::NoGuest => Numbers::with(2, 0, 0),
            Answer::NeverRun => Numbers::with(3, 0, 0),
            Answer::OutOfRange => Numbers::with(4, 0, 0),
            Answer::InUse => Numbers::with(5, 0, 0),
            Answer::Damaged => Numbers::with(6, 0, 0),
            Answer::NoFreeSlot => Numbers::with(7, 0, 0),
            Answer::NotWaiting => Numbers::with(8, 0, 0),
            Answer::RegisterRefused(number) => Numbers::with(9, register(number), 0),
            Answer::Return { r0, r1, r2, r3 } => Numbers {
                verdict: 10,
                v0: register(r0),
                v1: r1,
                v2: r2,
                v3: r3,
            },
            Answer::MmioExit(ipa) => Numbers::with(11, ipa, 0),
            Answer::Exception => Numbers::with(12, 0, 0),
            Answer::Resume => Numbers::with(13, 0, 0),
        }
    }
}
