// SHA-256: by the public hash, by a state fed in parts, and of two parts in one block.
ghost use Rattle.std.specs.Prelude.{◌≡◌, ◌<◌, length};

use crate::print::Hex;
use sha256::Sha256;
use std::{array, io};
use wire::array_at;

// Byte i of the long message is 7 * i + 3, modulo 256.
fn long_message() -> [u8; 65537]
    ensures { 65537 ≡ length result }
{
    array::from_fn(
        |i: usize| -> u8
            requires { i < 65537 }
        { ((7 * i + 3) % 256) as u8 },
    )
}

// The refusal and the digest.
fn print_hash(rt: &impl Print, bytes: &[u8]) -> io::Result<()> {
    match sha256::hash(bytes) {
        Ok(digest) => println!(rt; "0 {}", Hex(&digest)),
        Err(refusal) => println!(rt; "{} {}", u32::from(refusal), Hex(&[0u8; 32])),
    }
}

// The digest by a state that is fed three parts.
fn print_parts(rt: &impl Print, m: &[u8]) -> io::Result<()> {
    let third = m.len() / 3;
    let half = m.len() / 2;
    let state = Sha256::new()
        .feed(&m[..third])
        .feed(&m[third..half])
        .feed(&m[half..]);
    if state.n <= 65536 {
        println!(rt; "  in three parts {}", Hex(&state.finish()))?;
    }
    Ok(())
}

// The length, and the digest of so many bytes of m.
fn print_length(rt: &impl Print, m: &[u8], n: usize) -> io::Result<()> {
    if let Some(message) = m.get(..n) {
        print!(rt; "n={n} ")?;
        print_hash(rt, message)?;
        print_parts(rt, message)?;
    }
    Ok(())
}

// The digest of the first 55 bytes of m, as 23 bytes and a hash value.
fn print_after(rt: &impl Print, m: &[u8]) -> io::Result<()> {
    if m.len() < 55 {
        return Ok(());
    }
    let value = sha256::hash_after(array_at(m, 0), sha256::value_at(m, 23));
    println!(rt;
        "  as 23 bytes and a hash value {}",
        Hex(&sha256::digest(value))
    )
}

// Lengths around one block and two, and around the limit.
fn print_edges(rt: &impl Print, m: &[u8]) -> io::Result<()> {
    for n in [0, 1, 54, 55] {
        print_length(rt, m, n)?;
    }
    print_after(rt, m)?;
    for n in [
        56, 57, 63, 64, 65, 118, 119, 120, 127, 128, 129, 1000, 65535, 65536,
    ] {
        print_length(rt, m, n)?;
    }
    print_hash(rt, m)
}

// The published messages, and then the long one.
pub fn print_all(rt: &impl Print) -> io::Result<()> {
    print_hash(rt, b"")?;
    print_hash(rt, b"abc")?;
    print_hash(
        rt,
        b"abcdbcdecdefdefgefghfghighijhijkijkljklmklmnlmnomnopnopq",
    )?;
    print_hash(
        rt,
        b"abcdefghbcdefghicdefghijdefghijkefghijklfghijklmghijklmnhijklmnoijklmnopjklmnopqklmnopqrlmnopqrsmnopqrstnopqrstu",
    )?;
    let m = long_message();
    print_edges(rt, &m)
}
