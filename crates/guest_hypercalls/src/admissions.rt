ghost use Rattle.std.specs.Prelude.{◌≡◌};
ghost use Rattle.commands.specs.Tests.{first_refusal, refusal_by};
ghost use Rattle.guest_hypercalls.specs.Calls.{row_tests};

use answers::Answer;
use call_table::CallRow;
use commands::check;
use functions::Registers;
use records::Guest;

// The tests of a hypercall's row: registers, then what the record must say. By `?`, since with `check_after` every hypercall takes some twenty
// instructions more.
pub(crate) fn row_admission(row: CallRow, registers: Registers, guest: Guest) -> Result<(), Answer>
    ensures { refusal_by result ≡ first_refusal (row_tests row registers guest) }
{
    check(row.registers_hold(registers), Answer::from(row.error))?;
    check(row.condition.permits(guest), Answer::from(row.error))
}
