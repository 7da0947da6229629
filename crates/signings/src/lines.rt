// What a row came to, in print.
ghost use Rattle.std.specs.Prelude.{◌<◌};

use signer::{Refusal, Signature, Signer};
use std::{fmt, io};

// Bytes that are shown as two hexadecimal digits each, as in `vectors`, where the reason stands.
#[derive(Clone, Copy)]
struct Hex<'a>(&'a [u8]);

impl fmt::Display for Hex<'_> {
    fn fmt<W: fmt::Write>(&self, f: &mut fmt::Formatter<W>) -> fmt::Result {
        for byte in self.0 {
            write!(f, "{byte:02x}")?;
        }
        Ok(())
    }
}

// Whether every byte is 0.
fn all_zeros(bytes: &[u8]) -> bool {
    bytes.iter().all(|byte| *byte == 0)
}

// Whether key, seed and tree are zeros.
fn empty(signer: &Signer) -> bool {
    all_zeros(&signer.key)
        && all_zeros(&signer.seed)
        && signer.nodes.iter().all(|node| all_zeros(&node.value))
}

pub fn print_root(rt: &impl Print, root: [u8; 32]) -> io::Result<()> {
    println!(rt; "root {}", Hex(&root))
}

pub fn print_leaf(rt: &impl Print, leaf: u32) -> io::Result<()> {
    println!(rt; "leaf {leaf}")
}

// Refusal, next leaf and key, or a word where the whole signer is zeros.
pub fn print_made(rt: &impl Print, signer: &Signer, made: Result<(), Refusal>) -> io::Result<()> {
    let refusal = match made {
        Ok(()) => 0,
        Err(refusal) => u32::from(refusal),
    };
    let next = signer.next;
    if empty(signer) {
        println!(rt; "make {refusal} {next} zeros")
    } else {
        println!(rt; "make {refusal} {next} {}", Hex(&signer.key))
    }
}

// Refusal, next leaf and signature, or a word where that is zeros.
pub fn print_signed(rt: &impl Print, next: u32, answer: &Signature) -> io::Result<()> {
    let refusal = answer.refusal;
    if all_zeros(&answer.bytes) {
        println!(rt; "sign {refusal} {next} zeros")
    } else {
        println!(rt; "sign {refusal} {next} {}", Hex(&answer.bytes))
    }
}

// The verdict on a signature.
fn verdict(key: &[u8], message: &[u8], signature: &[u8]) -> &'static str {
    match lms::check(key, message, signature) {
        Ok(outcome) if outcome.leaf.is_some() => "yes",
        _ => "no",
    }
}

// The verdict on a signature with the lowest bit of one byte changed.
fn changed(key: &[u8], message: &[u8], signature: [u8; 1452], at: usize) -> &'static str
    requires { at < 1452 }
{
    let mut changed = signature;
    changed[at] ^= 1;
    verdict(key, message, &changed)
}

// The verdict on a signature, and those with a bit of its leaf, its C, its first string and its path changed.
pub fn print_checks(
    rt: &impl Print,
    key: [u8; 56],
    message: &[u8],
    signature: [u8; 1452],
) -> io::Result<()> {
    print!(rt; "check {}, changed", verdict(&key, message, &signature))?;
    for at in [3, 8, 40, 1451] {
        print!(rt; " {}", changed(&key, message, signature, at))?;
    }
    println!(rt; "")
}
