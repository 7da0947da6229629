// The functions of SHA-256 (FIPS 180-4, section 4.1.2).
ghost use Rattle.std.specs.Prelude.{◌≡◌, ◌<◌, bit_xor};
ghost use Rattle.sha256_block.specs.Functions.{shr, rotr, Ch, Maj};

// (4.4) and (4.5): three rotations.
#[tactic(auto, using(crate::proofs::Laws::rotated))]
pub fn big_sigma<const A: u32, const B: u32, const C: u32>(x: u32) -> u32
    requires first { (0 < A) × (A < 32) }
    requires second { (0 < B) × (B < 32) }
    requires third { (0 < C) × (C < 32) }
    ensures { result ≡ bit_xor (bit_xor (rotr A x) (rotr B x)) (rotr C x) }
{
    x.rotate_right(A) ^ x.rotate_right(B) ^ x.rotate_right(C)
}

// (4.6) and (4.7): two rotations and a shift.
#[tactic(auto, using(crate::proofs::Laws::rotated), unfolding(crate::specs::Functions::shr))]
pub fn small_sigma<const A: u32, const B: u32, const C: u32>(x: u32) -> u32
    requires first { (0 < A) × (A < 32) }
    requires second { (0 < B) × (B < 32) }
    requires third { C < 32 }
    ensures { result ≡ bit_xor (bit_xor (rotr A x) (rotr B x)) (shr C x) }
{
    x.rotate_right(A) ^ x.rotate_right(B) ^ (x >> C)
}

// Ch with one operation less than the standard writes it with.
#[tactic(auto, using(crate::proofs::Choose::choose), unfolding(crate::specs::Functions::Ch))]
pub fn ch(x: u32, y: u32, z: u32) -> u32
    ensures { result ≡ Ch x y z }
{
    z ^ (x & (y ^ z))
}

// Maj with one operation less too: y ^ z is x ^ y of the round before.
#[tactic(auto, using(crate::proofs::Choose::majority), unfolding(crate::specs::Functions::Maj))]
pub fn maj(x: u32, y: u32, z: u32) -> u32
    ensures { result ≡ Maj x y z }
{
    y ^ ((x ^ y) & (y ^ z))
}
