ghost use Rattle.std.specs.Prelude.{◌≡◌, List, ◌++◌, ℕ};
ghost use Rattle.commands.specs.State.{state, answered};
ghost use Rattle.commands.specs.Tests.{first_refusal, refusal_by};
ghost use Rattle.commands.specs.Command.{view, live_tests, result_with, result_of};
ghost use Rattle.host_registers.specs.Registers.{read_tests, write_tests, read_command, write_command, register_read_of, register_write_of};

use crate::registers::{is_known, limit, numbered};
use answers::Answer;
use commands::{Decision, Reply, check, check_after};
use records::{Change, FirmwareRegister, Guest, Monitor};

// The host reads a firmware register of the guest in a slot. It answers for any slot number, register number and records.
#[tactic(auto, using(commands::proofs::CommandLaws::applying), unfolding(crate::specs::Registers::register_read_of))]
pub fn register_read(monitor: Monitor, slot: u64, number: u64) -> Reply
    ensures { (frames map : List ℕ) → answered (state frames map result.monitor) result.answer ≡ register_read_of slot number (state frames map monitor) }
{
    let guest = monitor.guest(slot);
    decide_register_read(guest, slot, number).reply(monitor, slot)
}

// What a read decides by the record of its slot, any record where the slot is above 7.
pub fn decide_register_read(guest: Guest, slot: u64, number: u64) -> Decision
    ensures { (frames map : List ℕ) → result_with frames map result ≡ result_of (read_command slot number) (view frames map slot guest) }
{
    let register = numbered(number);
    Decision::after(
        read_admission(guest, slot, register),
        Change::Kept,
        Answer::Done(register.bitmap(guest)),
    )
}

// The host writes a firmware register of the guest in a slot. It answers for any slot number, register number, value and records.
#[tactic(auto, using(commands::proofs::CommandLaws::applying), unfolding(crate::specs::Registers::register_write_of))]
pub fn register_write(monitor: Monitor, slot: u64, number: u64, value: u64) -> Reply
    ensures { (frames map : List ℕ) → answered (state frames map result.monitor) result.answer ≡ register_write_of slot number value (state frames map monitor) }
{
    let guest = monitor.guest(slot);
    decide_register_write(guest, slot, number, value).reply(monitor, slot)
}

// What a write decides by the record of its slot, any record where the slot is above 7.
pub fn decide_register_write(guest: Guest, slot: u64, number: u64, value: u64) -> Decision
    ensures { (frames map : List ℕ) → result_with frames map result ≡ result_of (write_command slot number value) (view frames map slot guest) }
{
    let register = numbered(number);
    Decision::after(
        write_admission(guest, slot, register, value),
        Change::Written { register, value },
        Answer::Done(0),
    )
}

// The tests of a read: a live guest, a register's number.
fn read_admission(guest: Guest, slot: u64, register: FirmwareRegister) -> Result<(), Answer>
    ensures { refusal_by result ≡ first_refusal (live_tests slot guest ++ read_tests register) }
{
    let live = check(guest.lives_in(slot), Answer::NoGuest);
    check_after(live, is_known(register), Answer::RegisterRefused(-2))
}

// The tests of a write: those of a read, no bit outside the limit, a guest that was not run.
fn write_admission(
    guest: Guest,
    slot: u64,
    register: FirmwareRegister,
    value: u64,
) -> Result<(), Answer>
    ensures { refusal_by result ≡ first_refusal (live_tests slot guest ++ write_tests register value guest) }
{
    let read = read_admission(guest, slot, register);
    let within = check_after(read, value <= limit(register), Answer::RegisterRefused(-22));
    check_after(within, !guest.run, Answer::RegisterRefused(-16))
}
