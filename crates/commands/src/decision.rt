ghost use Rattle.std.specs.Prelude.{◌≡◌};
ghost use Rattle.records.specs.Change.{with_change};
ghost use Rattle.records.specs.declared.change.Change.TheVariants.{Kept};
ghost use Rattle.commands.specs.Tests.{refusal_by};
ghost use Rattle.commands.specs.Command.{decision, decided_by};

use answers::Answer;
use records::{Change, Monitor};

// What a call that has looked decides: what it does to the record of its slot, and its answer.
#[derive(Clone, Copy)]
pub struct Decision {
    pub change: Change,
    pub answer: Answer,
}

// What a call hands back.
#[derive(Clone, Copy)]
pub struct Reply {
    pub monitor: Monitor,
    pub answer: Answer,
}

impl Decision {
    // An answer that leaves the record as it is. A call that writes tables hands back so by hand what a test refused: it answers a Decision, and
    // `?` would answer the refusal alone.
    pub fn keep(answer: Answer) -> Decision
        ensures { result ≡ decision Kept answer }
    {
        Decision {
            change: Change::Kept,
            answer,
        }
    }

    // What a call decides behind its tests: the refusal, which keeps the record, or else this.
    pub fn after(tests: Result<(), Answer>, change: Change, answer: Answer) -> Decision
        ensures { result ≡ decided_by (refusal_by tests) change answer }
    {
        match tests {
            Err(refusal) => Decision::keep(refusal),
            Ok(()) => Decision { change, answer },
        }
    }

    // What a call hands back that has decided so for a slot.
    pub fn reply(self, monitor: Monitor, slot: u64) -> Reply
        ensures { result ≡ record { monitor = with_change monitor slot self.change; answer = self.answer } }
    {
        Reply {
            monitor: monitor.with_change(slot, self.change),
            answer: self.answer,
        }
    }
}
