// The verdict of checks: passed, or the refusal of the first broken one. Checks follow each other by `?`.
ghost use Rattle.std.specs.Prelude.{◌≡◌, [], ◌∷◌};
ghost use Rattle.refusal.specs.Outcome.{◌otherwise◌};
ghost use Rattle.refusal.specs.Verdict.{verdict};

use crate::Refusal;

// One check: `why` where it is broken.
pub fn require(holds: bool, why: Refusal) -> Result<(), Refusal>
    ensures { result ≡ verdict (holds otherwise why ∷ []) }
{
    if holds { Ok(()) } else { Err(why) }
}
