// What the benchmark calls of the signature check: the leaf key with a hash Q that is given, so that the dearest one can be timed.
#![tactic(auto)]

ghost use Rattle.std.specs.Prelude.{◌≡◌, cond, leb, length};
ghost use Rattle.lms.specs.OneTime.{leaf_key, step_count};

use lms::Place;

// Writes the leaf key and answers the chain steps; a signature below 1,128 bytes leaves key as it is and answers 0.
#[unsafe(no_mangle)]
pub extern "C" fn bench_leaf_key(
    id: &[u8; 16],
    leaf: u32,
    hash: &[u8; 32],
    signature: &[u8],
    key: &mut [u8; 32],
) -> u32
    ensures steps { result ≡ cond (leb 1128 (length signature.now)) (step_count hash.now) 0 }
    ensures key { key.new ≡ cond (leb 1128 (length signature.now)) (leaf_key id.now leaf hash.now signature.now) key.old }
{
    if signature.len() < 1128 {
        return 0;
    }
    let place = Place {
        id: *id,
        number: leaf,
    };
    let walked = lms::leaf_key(place, *hash, signature);
    let made = walked.key;
    *key = made;
    walked.steps
}
