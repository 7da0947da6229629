// Parts of a byte string, and whether two are equal.
ghost use Rattle.std.specs.Prelude.{◌≡◌, ◌+◌, ◌≤◌, length};
ghost use Rattle.std.proofs.Math.Seq.{paste};
ghost use Rattle.wire.specs.Parts.{part, same};

// Copies all of src into dst from place at on.
pub fn copy_into(src: &[u8], dst: &mut [u8], at: usize)
    requires { at + length src.now ≤ length dst.old }
    ensures { dst.new ≡ paste dst.old at src.now (length src.now) }
{
    dst[at..at + src.len()].copy_from_slice(src);
}

// The N bytes of s from place at on: an identifier, a digest, a secret, a lock or a key.
pub fn array_at<const N: usize>(s: &[u8], at: usize) -> [u8; N]
    requires { at + N ≤ length s.now }
    ensures { result ≡ part s.now at N }
{
    let mut bytes = [0u8; N];
    bytes.copy_from_slice(&s[at..at + N]);
    bytes
}

// Whether two strings of N bytes are equal.
pub fn same<const N: usize>(a: &[u8; N], b: &[u8; N]) -> bool
    ensures { result ≡ same a.now b.now }
{
    a == b
}
