ghost use Rattle.std.specs.Prelude.{◌≡◌};
ghost use Rattle.commands.specs.Tests.{first_refusal, refusal_by};
ghost use Rattle.guest_callers.specs.Callers.{caller_tests};

use answers::Answer;
use commands::{check, check_after};
use records::Guest;
use tables::lengths_hold;

// The tests of every call of a guest: the tables' lengths, a live guest, a guest that was run. A slot above 7 has no guest, whatever record
// is handed in.
pub fn caller_admission(frames: &[u32], map: &[u32], slot: u64, guest: Guest) -> Result<(), Answer>
    ensures { refusal_by result ≡ first_refusal (caller_tests frames.now map.now slot guest) }
{
    let lengths = check(lengths_hold(frames.len(), map.len()), Answer::BadLength);
    let live = check_after(lengths, guest.lives_in(slot), Answer::NoGuest);
    check_after(live, guest.run, Answer::NeverRun)
}
