// The first no decides: a rule asks its checks one after the other, each with a `?`.
ghost use Rattle.std.specs.Prelude.{◌≡◌, true, false, MatchResult};

use machine::Refusal;

// One check, and the refusal where it says no.
pub fn ensure(ok: bool, refusal: Refusal) -> Result<(), Refusal>
    ensures { MatchResult result (λ _. ok ≡ true) (λ e. (ok ≡ false) × (e ≡ refusal)) }
{
    if ok { Ok(()) } else { Err(refusal) }
}
