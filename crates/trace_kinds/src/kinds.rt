ghost use Rattle.std.specs.Prelude.{◌≡◌};
ghost use Rattle.trace_kinds.specs.RecordKind.{kind_of, arguments_of, call_of, length_of};

use calls::Call;
use functions::Registers;

// The version of every record.
pub const VERSION: u8 = 1;

// The kinds of records.
#[derive(Clone, Copy, Debug, PartialEq, Eq)]
pub enum RecordKind {
    Create,
    Donate,
    Run,
    Hypercall,
    Abort,
    Remove,
    Cleared,
    Access,
    RegisterRead,
    RegisterWrite,
    CreateLegacy,
}

// The kinds in the order of their numbers, from 1.
pub(crate) const KINDS: [RecordKind; 11] = [
    RecordKind::Create,
    RecordKind::Donate,
    RecordKind::Run,
    RecordKind::Hypercall,
    RecordKind::Abort,
    RecordKind::Remove,
    RecordKind::Cleared,
    RecordKind::Access,
    RecordKind::RegisterRead,
    RecordKind::RegisterWrite,
    RecordKind::CreateLegacy,
];

impl RecordKind {
    // The kind that a number stands for. No TryFrom: an error would tell nothing that None doesn't.
    pub fn of(number: u8) -> Option<RecordKind>
        ensures { result ≡ kind_of number }
    {
        let place = usize::from(number).checked_sub(1)?;
        KINDS.get(place).copied()
    }

    // How many arguments a record of this kind has.
    pub fn arguments(self) -> u8
        ensures { result ≡ arguments_of self }
    {
        match self {
            RecordKind::Create => 0,
            RecordKind::Donate => 2,
            RecordKind::Run => 0,
            RecordKind::Hypercall => 4,
            RecordKind::Abort => 1,
            RecordKind::Remove => 0,
            RecordKind::Cleared => 1,
            RecordKind::Access => 1,
            RecordKind::RegisterRead => 1,
            RecordKind::RegisterWrite => 2,
            RecordKind::CreateLegacy => 0,
        }
    }

    // What a record of this kind asks for, by the slot byte and the arguments.
    // They are four numbers as in `call_of`: of an array, each would need its place in the clause too.
    pub fn call(self, slot: u64, a: u64, b: u64, c: u64, d: u64) -> Call
        ensures { result ≡ call_of self slot a b c d }
    {
        match self {
            RecordKind::Create => Call::Create { legacy: false },
            RecordKind::Donate => Call::Donate {
                slot,
                frame: a,
                granule: b,
            },
            RecordKind::Run => Call::Run { slot },
            RecordKind::Hypercall => Call::Hypercall {
                slot,
                registers: Registers {
                    r0: a,
                    r1: b,
                    r2: c,
                    r3: d,
                },
            },
            RecordKind::Abort => Call::Abort { slot, ipa: a },
            RecordKind::Remove => Call::Remove { slot },
            RecordKind::Cleared => Call::Cleared { frame: a },
            RecordKind::Access => Call::Access { frame: a },
            RecordKind::RegisterRead => Call::RegisterRead { slot, register: a },
            RecordKind::RegisterWrite => Call::RegisterWrite {
                slot,
                register: a,
                value: b,
            },
            RecordKind::CreateLegacy => Call::Create { legacy: true },
        }
    }

    // The length of a record of this kind, without the two bytes that hold it: three bytes, and eight for each argument.
    pub fn length(self) -> usize
        ensures { result ≡ length_of self }
    {
        3 + 8 * usize::from(self.arguments())
    }
}
