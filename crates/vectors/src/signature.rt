// The signature check, over rows from standard input: each a key, a message and a signature with two bytes of length before each.
// The first row is of RFC 8554, over a tree of height 5, and is printed stage by stage.
ghost use Rattle.std.specs.Prelude.{◌<◌, ◌≤◌, length, IfSome};

use crate::print::Hex;
use lms::{Outcome, Place};
use std::io;
use std::io::Read;
use streams::{field, read_full};
use wire::{array_at, u32_at};

// What a row holds.
#[derive(Clone, Copy)]
struct Row<'a> {
    key: &'a [u8],
    message: &'a [u8],
    signature: &'a [u8],
}

// The row at the start of m, and what stands behind it.
fn next_row(m: &[u8]) -> Option<(Row<'_>, &[u8])>
    ensures { IfSome result (λ r. length r.1.now < length m.now) }
{
    let (key, rest) = field(m)?;
    let (message, rest) = field(rest)?;
    let (signature, rest) = field(rest)?;
    Some((
        Row {
            key,
            message,
            signature,
        },
        rest,
    ))
}

// The root of a tree of height 5, up the path from a leaf.
fn root(leaf: Place, key: [u8; 32], signature: &[u8]) -> [u8; 32]
    requires { (leaf.number < 32) × (1292 ≤ length signature.now) }
{
    let id = leaf.id;
    let mut node = Place {
        id,
        number: 32 + leaf.number,
    };
    let mut value = lms::leaf_node(node, key);
    // i is the height, and the sibling's place.
    for i in 0..5 {
        let over = lms::parent(node, value, array_at(signature, 1132 + 32 * i));
        value = over;
        node.number /= 2;
    }
    value
}

// The leaf key, the steps to it and the root that a signature over a tree of height 5 comes to.
fn print_stages(rt: &impl Print, row: Row<'_>) -> io::Result<()> {
    let Row {
        key,
        message,
        signature,
    } = row;
    if key.len() < 24 || 1024 < message.len() || signature.len() < 1292 {
        return Ok(());
    }
    let number = u32_at(signature, 0);
    if 31 < number {
        return Ok(());
    }
    let id = array_at(key, 8);
    let leaf = Place { id, number };
    let hash = lms::message_hash(leaf, array_at(signature, 8), message);
    let walked = lms::leaf_key(leaf, hash, signature);
    let end = walked.key;
    let top = root(leaf, end, signature);
    println!(rt;
        "leaf key {}\nsteps {}\nroot {}",
        Hex(&end),
        walked.steps,
        Hex(&top)
    )
}

// The refusal, the verdict, the steps and the leaf of a check.
fn print_check(rt: &impl Print, row: Row<'_>) -> io::Result<()> {
    match lms::check(row.key, row.message, row.signature) {
        Ok(
            Outcome {
                steps,
                leaf: Some(leaf),
            },
        ) => println!(rt; "0 yes {steps} leaf {leaf}"),
        Ok(Outcome { steps, leaf: None }) => println!(rt; "0 no {steps} leaf 0"),
        Err(refusal) => println!(rt; "{} no 0 leaf 0", u32::from(refusal)),
    }
}

// Prints each row of m, and answers whether m is whole rows to its end.
fn print_rows(rt: &impl Print, m: &[u8]) -> io::Result<bool> {
    let mut rest = m;
    let mut number: u64 = 0;
    while !rest.is_empty() {
        let Some((row, behind)) = next_row(rest) else {
            return Ok(false);
        };
        if number == 0 {
            print_stages(rt, row)?;
        } else {
            print!(rt; "{number} ")?;
            print_check(rt, row)?;
        }
        rest = behind;
        number += 1;
    }
    Ok(true)
}

// The steps of a hash, given by its first byte and the one that each other byte is, after the sum of its bytes.
fn print_steps(rt: &impl Print, first: u8, other: u8) -> io::Result<()> {
    let mut hash = [other; 32];
    hash[0] = first;
    let sum = u32::from(first) + 31 * u32::from(other);
    println!(rt; "sum {sum} steps {}", lms::step_count(hash))
}

// Every row, and the steps of hashes at the edges.
pub fn print_all(rt: &impl Print, input: &mut impl Read) -> io::Result<()> {
    let mut bytes = [0u8; 65536];
    let n = read_full(input, &mut bytes);
    if print_rows(rt, &bytes[..n])? {
        for (first, other) in [(255, 255), (0, 0), (224, 0), (225, 0)] {
            print_steps(rt, first, other)?;
        }
    }
    Ok(())
}
