// Amounts in packed decimal: fifteen digits, two in a byte, and C in the last half.
ghost use Rattle.std.specs.Prelude.{◌≡◌};
ghost use Rattle.payments.specs.Packed.{packed};

// The digits of an amount, and C.
pub fn packed(amount: u64) -> [u8; 8]
    ensures { result ≡ packed amount }
{
    let mut halves = 0u64;
    let mut rest = amount;
    for place in 0u32..15 {
        halves += rest % 10 << (4 * place);
        rest /= 10;
    }
    (16 * halves + 0x0C).to_be_bytes()
}
