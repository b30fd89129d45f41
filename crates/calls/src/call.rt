ghost use Rattle.std.specs.Prelude.{◌≡◌};
ghost use Rattle.commands.specs.State.{state, answered};
ghost use Rattle.commands.specs.Command.{view, slot_number, result_with, result_of};
ghost use Rattle.calls.specs.Step.{command_of, step};

use commands::{Decision, Reply};
use functions::Registers;
use guest_aborts::decide_abort;
use guest_hypercalls::decide_hypercall;
use host_donation::decide_donate;
use host_frames::{decide_access, decide_cleared};
use host_guests::{decide_create, decide_run, decide_show};
use host_registers::{decide_register_read, decide_register_write};
use host_removal::decide_remove;
use records::{Guest, Monitor};

// A call with its arguments, any numbers.
#[derive(Clone, Copy)]
pub enum Call {
    Create {
        legacy: bool,
    },
    Donate {
        slot: u64,
        frame: u64,
        granule: u64,
    },
    Run {
        slot: u64,
    },
    Remove {
        slot: u64,
    },
    Cleared {
        frame: u64,
    },
    Access {
        frame: u64,
    },
    Show {
        slot: u64,
    },
    RegisterRead {
        slot: u64,
        register: u64,
    },
    RegisterWrite {
        slot: u64,
        register: u64,
        value: u64,
    },
    Hypercall {
        slot: u64,
        registers: Registers,
    },
    Abort {
        slot: u64,
        ipa: u64,
    },
}

impl Call {
    // The slot whose record the call looks at and may change. That of create is the lowest that is not live. A call about a frame has none: 8,
    // a number and no Option, as in `slot_number`, since a slot given may be above 7 too.
    pub fn slot(self, monitor: Monitor) -> u64
        ensures { result ≡ slot_number (command_of self).slot monitor }
    {
        match self {
            Call::Create { .. } => monitor.free_slot(),
            Call::Cleared { .. } | Call::Access { .. } => 8,
            Call::Donate { slot, .. }
            | Call::Run { slot }
            | Call::Remove { slot }
            | Call::Show { slot }
            | Call::RegisterRead { slot, .. }
            | Call::RegisterWrite { slot, .. }
            | Call::Hypercall { slot, .. }
            | Call::Abort { slot, .. } => slot,
        }
    }

    // What the call decides for its slot and the record there, any record where the slot is above 7. The tables it changes.
    // Two slices and no struct of both: what a call leaves in such a struct is told by number alone, as `tables.exit.0.now`.
    // A match and no table of functions, as `command_of`: each call has its own arguments.
    pub fn decide(self, at: u64, guest: Guest, frames: &mut [u32], map: &mut [u32]) -> Decision
        ensures { result_with frames.new map.new result
            ≡ result_of (command_of self) (view frames.old map.old at guest) }
    {
        match self {
            Call::Create { legacy } => decide_create(frames, map, at, legacy),
            Call::Donate { frame, granule, .. } => {
                decide_donate(guest, frames, map, at, frame, granule)
            }
            Call::Run { .. } => decide_run(guest, at),
            Call::Remove { .. } => decide_remove(guest, frames, map, at),
            Call::Cleared { frame } => decide_cleared(frames, map, frame),
            Call::Access { frame } => decide_access(frames, map, frame),
            Call::Show { .. } => decide_show(guest, map, at),
            Call::RegisterRead { register, .. } => decide_register_read(guest, at, register),
            Call::RegisterWrite {
                register,
                value,
                ..
            } => decide_register_write(guest, at, register, value),
            Call::Hypercall { registers, .. } => decide_hypercall(
                guest, frames, map, at, registers,
            ),
            Call::Abort { ipa, .. } => decide_abort(guest, frames, map, at, ipa),
        }
    }

    // The call made on these records and tables. It answers for any call, records and tables. Of show it is the verdict.
    // `donate`, `remove` and the others have this body too: README.md names them, and some take fewer tables than this.
    #[tactic(auto, using(commands::proofs::CommandLaws::applying), unfolding(crate::specs::Step::step))]
    pub fn perform(self, monitor: Monitor, frames: &mut [u32], map: &mut [u32]) -> Reply
        ensures { answered (state frames.new map.new result.monitor) result.answer
            ≡ step self (state frames.old map.old monitor) }
    {
        let slot = self.slot(monitor);
        let decision = self.decide(slot, monitor.guest(slot), frames, map);
        decision.reply(monitor, slot)
    }
}
