ghost use Rattle.std.specs.Prelude.{◌≡◌, [], ◌∷◌};
ghost use Rattle.commands.specs.Tests.{afterwards, first_refusal, refusal_by};

use answers::Answer;

// One test: it holds, or the call is refused with this answer. Others follow by `check_after`, or by `?`, where they are not to be looked at
// once it failed.
pub fn check(holds: bool, refusal: Answer) -> Result<(), Answer>
    ensures { refusal_by result ≡ first_refusal ((holds, refusal) ∷ []) }
{
    if holds { Ok(()) } else { Err(refusal) }
}

// Earlier tests and one more after them: where they refused, their refusal stays.
pub fn check_after(earlier: Result<(), Answer>, holds: bool, refusal: Answer) -> Result<(), Answer>
    ensures { refusal_by result ≡ afterwards (refusal_by earlier) holds refusal }
{
    match earlier {
        Err(first) => Err(first),
        Ok(()) => check(holds, refusal),
    }
}
