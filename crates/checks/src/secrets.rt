// Check 10: does the secret of a dispute hash to the kept lock?
ghost use Rattle.std.specs.Prelude.{◌≡◌, true, false, ◌≤◌, length, MatchResult};
ghost use Rattle.wire.specs.Parts.{same};
ghost use Rattle.sha256.specs.Digest.{sha256};
ghost use Rattle.machine.specs.Format.{secret};
ghost use Rattle.machine.specs.declared.numbers.Refusal.{Refusal};

use crate::judging::ensure;
use machine::Refusal;
use sha256::Sha256;
use wire::same;

pub fn secret_checked(lock: [u8; 32], command: &[u8]) -> Result<(), Refusal>
    requires { 35 ≤ length command.now }
    ensures { MatchResult result (λ _. same (sha256 (secret command.now)) lock ≡ true) (λ e. (same (sha256 (secret command.now)) lock ≡ false) × (e ≡ Refusal.Secret)) }
{
    let hashed = Sha256::new().feed(&command[3..35]).finish();
    ensure(same(&hashed, &lock), Refusal::Secret)
}
