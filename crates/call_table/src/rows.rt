ghost use Rattle.std.specs.Prelude.{◌≡◌};
ghost use Rattle.words.specs.Granule.{granule_size};
ghost use Rattle.functions.specs.Function.{asked_by};
ghost use Rattle.functions.specs.declared.rules.Rule.TheVariants.{Any, Zero, Base};
ghost use Rattle.functions.specs.declared.rules.Condition.TheVariants.{Nothing, Enrolment};
ghost use Rattle.functions.specs.declared.rules.Error.TheVariants.{NotSupported, InvalidParameter};
ghost use Rattle.call_table.specs.Table.{granules_of, is_told, call_row, ranged_row_of, legacy_row_of, call_row_of, registers_hold};

use functions::{Condition, Error, Function, Registers, Rule};
use granules::{Kind, Operation};
use words::Granule;

// How many granules a call works on.
#[derive(Clone, Copy, Debug, PartialEq, Eq)]
pub enum Count {
    One,
    // R2 says how many.
    Asked,
    // R2 says how many, and 0 means 1.
    AskedOrOne,
}

// What a call does once its tests have passed.
#[derive(Clone, Copy)]
pub enum Action {
    // It answers these registers.
    Tell { r0: u32, r1: u32, r2: u32, r3: u32 },
    Refuse,
    Enroll,
    // It works on granules from R1 upward.
    Change { operation: Operation, count: Count },
}

// What a call does to each granule.
const SHARING: Operation = Operation {
    needs: Kind::Private,
    makes: Kind::Shared,
};

const UNSHARING: Operation = Operation {
    needs: Kind::Shared,
    makes: Kind::Private,
};

const GUARDING: Operation = Operation {
    needs: Kind::Vacant,
    makes: Kind::Guarded,
};

const UNGUARDING: Operation = Operation {
    needs: Kind::Guarded,
    makes: Kind::Vacant,
};

const RELINQUISHING: Operation = Operation {
    needs: Kind::Private,
    makes: Kind::Vacant,
};

// A row of the table of guest calls: what is asked of R1 to R3 and of the record, the answer where it does not hold, and what the call does.
#[derive(Clone, Copy)]
pub struct CallRow {
    pub r1: Rule,
    pub r2: Rule,
    pub r3: Rule,
    pub condition: Condition,
    pub error: Error,
    pub action: Action,
}

impl Count {
    // The number of granules, with this in R2.
    pub fn granules(self, r2: u64) -> u64
        ensures { result ≡ granules_of self r2 }
    {
        match self {
            Count::One => 1,
            Count::Asked => r2,
            Count::AskedOrOne => r2.max(1),
        }
    }

    // Whether R1 tells how many granules were done.
    pub fn is_told(self) -> bool
        ensures { result ≡ is_told self }
    {
        matches!(self, Count::Asked | Count::AskedOrOne)
    }
}

impl CallRow {
    // The row of the call that R0 asks for, in the table of the caller's kind.
    pub fn of(legacy: bool, r0: u64) -> CallRow
        ensures { result ≡ call_row_of legacy (asked_by r0) }
    {
        let function = Function::asked(r0);
        if legacy {
            CallRow::legacy(function)
        } else {
            CallRow::ranged(function)
        }
    }

    // The row of a guest with ranges.
    #[tactic(auto, unfolding(crate::specs::Table::ranged_row_of))]
    fn ranged(function: Function) -> CallRow
        ensures { result ≡ ranged_row_of function }
    {
        match function {
            Function::Features => CallRow::any(Condition::Vendor, Action::tell(0xFFD, 0)),
            Function::Uid => CallRow::any(
                Condition::Vendor,
                Action::Tell {
                    r0: 0xB66F_B428,
                    r1: 0xE911_C52E,
                    r2: 0x564B_CAA9,
                    r3: 0x743A_004D,
                },
            ),
            Function::MemoryInfo => CallRow::zeros(Error::InvalidParameter, 1),
            Function::Share => CallRow::memory(Rule::Any, SHARING, Count::AskedOrOne),
            Function::Unshare => CallRow::memory(Rule::Any, UNSHARING, Count::AskedOrOne),
            Function::GuardInfo => CallRow::zeros(Error::NotSupported, 1),
            Function::Enroll => CallRow::any(Condition::Nothing, Action::Enroll),
            Function::GuardMap => CallRow::guard(Rule::Any, GUARDING, Count::One),
            Function::GuardUnmap => CallRow::guard(Rule::Any, UNGUARDING, Count::One),
            Function::Relinquish => CallRow::memory(Rule::Zero, RELINQUISHING, Count::One),
            Function::RangeGuardMap => CallRow::guard(Rule::NotZero, GUARDING, Count::Asked),
            Function::RangeGuardUnmap => CallRow::guard(Rule::NotZero, UNGUARDING, Count::Asked),
            Function::Unknown => CallRow::any(Condition::Nothing, Action::Refuse),
        }
    }

    // The row of a guest that knows no ranges.
    #[tactic(auto, unfolding(crate::specs::Table::legacy_row_of))]
    fn legacy(function: Function) -> CallRow
        ensures { result ≡ legacy_row_of function }
    {
        match function {
            Function::Features => CallRow::any(Condition::Vendor, Action::tell(0x29D, 0)),
            Function::MemoryInfo => CallRow::zeros(Error::InvalidParameter, 0),
            Function::Share => CallRow::memory(Rule::Zero, SHARING, Count::One),
            Function::Unshare => CallRow::memory(Rule::Zero, UNSHARING, Count::One),
            Function::GuardMap => CallRow::memory(Rule::Zero, GUARDING, Count::One),
            Function::Uid | Function::Relinquish => CallRow::ranged(function),
            Function::GuardInfo
            | Function::Enroll
            | Function::GuardUnmap
            | Function::RangeGuardMap
            | Function::RangeGuardUnmap
            | Function::Unknown => CallRow::ranged(Function::Unknown),
        }
    }

    // A row that looks at no register.
    fn any(condition: Condition, action: Action) -> CallRow
        ensures { result ≡ call_row Any Any Any condition NotSupported action }
    {
        CallRow {
            r1: Rule::Any,
            r2: Rule::Any,
            r3: Rule::Any,
            condition,
            error: Error::NotSupported,
            action,
        }
    }

    // A row that wants R1 to R3 zero, and tells the size of a granule and whether the calls take ranges.
    fn zeros(error: Error, ranges: u32) -> CallRow
        ensures { result ≡ call_row Zero Zero Zero Nothing error (Action.Tell granule_size ranges 0 0) }
    {
        CallRow {
            r1: Rule::Zero,
            r2: Rule::Zero,
            r3: Rule::Zero,
            condition: Condition::Nothing,
            error,
            action: Action::tell(Granule::SIZE as u32, ranges),
        }
    }

    // A row of the calls that share, unshare or give up memory, and of a legacy guest's guard map.
    fn memory(r2: Rule, operation: Operation, count: Count) -> CallRow
        ensures { result ≡ call_row Base r2 Zero Nothing InvalidParameter (Action.Change operation count) }
    {
        CallRow {
            r1: Rule::Base,
            r2,
            r3: Rule::Zero,
            condition: Condition::Nothing,
            error: Error::InvalidParameter,
            action: Action::Change { operation, count },
        }
    }

    // A row of the calls that map or unmap guarded MMIO.
    fn guard(r2: Rule, operation: Operation, count: Count) -> CallRow
        ensures { result ≡ call_row Base r2 Any Enrolment NotSupported (Action.Change operation count) }
    {
        CallRow {
            r3: Rule::Any,
            condition: Condition::Enrolment,
            error: Error::NotSupported,
            ..CallRow::memory(r2, operation, count)
        }
    }

    // Whether R1 to R3 are as the row asks.
    pub fn registers_hold(self, registers: Registers) -> bool
        ensures { result ≡ registers_hold self registers }
    {
        self.r1.meets(registers.r1) && self.r2.meets(registers.r2) && self.r3.meets(registers.r3)
    }
}

impl Action {
    // Two registers told, the others zero.
    fn tell(r0: u32, r1: u32) -> Action
        ensures { result ≡ Action.Tell r0 r1 0 0 }
    {
        Action::Tell {
            r0,
            r1,
            r2: 0,
            r3: 0,
        }
    }
}
