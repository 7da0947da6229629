// Fields of an input.
ghost use Rattle.std.specs.Prelude.{MatchOption, IfSome, ◌≡◌, ◌<◌, ◌≤◌, ◌+◌, ◌++◌, length, take};
ghost use Rattle.streams.specs.Field.{field_size};

// The field that m begins with, and what stands after it: two bytes of length, and so many bytes. None where no whole one stands there.
pub fn field(m: &[u8]) -> Option<(&[u8], &[u8])>
    ensures parts { MatchOption result (length m.now < 2 + field_size m.now)
        (λ p. (length p.0.now ≡ field_size m.now) × (m.now ≡ take 2 m.now ++ (p.0.now ++ p.1.now))) }
    ensures shorter { IfSome result (λ p. length p.1.now + 2 ≤ length m.now) }
{
    let (size, rest) = m.split_first_chunk::<2>()?;
    rest.split_at_checked(u16::from_be_bytes(*size) as usize)
}
