ghost use Rattle.std.specs.Prelude.{◌≡◌, ◌%◌, ◌^◌};
ghost use Rattle.functions.specs.Function.{function_of};

// The calls of document 01's table, in its order.
#[derive(Clone, Copy, Debug, PartialEq, Eq)]
pub enum Function {
    Features,
    Uid,
    MemoryInfo,
    Share,
    Unshare,
    GuardInfo,
    Enroll,
    GuardMap,
    GuardUnmap,
    Relinquish,
    RangeGuardMap,
    RangeGuardUnmap,
    // The number belongs to no call: the last row of the table.
    Unknown,
}

impl From<u32> for Function {
    ghost from_gives = { λ number function. function ≡ function_of number };

    // The one decision over the function number.
    #[tactic(auto, using(crate::proofs::FunctionLaws::unknown), unfolding(crate::specs::Function::function_of))]
    fn from(number: u32) -> Function {
        match number {
            0x8600_0000 => Function::Features,
            0x8600_FF01 => Function::Uid,
            0xC600_0002 => Function::MemoryInfo,
            0xC600_0003 => Function::Share,
            0xC600_0004 => Function::Unshare,
            0xC600_0005 => Function::GuardInfo,
            0xC600_0006 => Function::Enroll,
            0xC600_0007 => Function::GuardMap,
            0xC600_0008 => Function::GuardUnmap,
            0xC600_0009 => Function::Relinquish,
            0xC600_000A => Function::RangeGuardMap,
            0xC600_000B => Function::RangeGuardUnmap,
            _ => Function::Unknown,
        }
    }
}

impl Function {
    // The call that R0 asks for: its upper half is not looked at.
    pub fn asked(r0: u64) -> Function
        ensures { result ≡ function_of (r0 % 2 ^ 32) }
    {
        Function::from((r0 & 0xFFFF_FFFF) as u32)
    }
}
