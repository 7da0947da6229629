// A row is a byte that says what it is, and two fields, each with two bytes of length before it: 1 is the root of a small tree, 2 a key making,
// 3 a signing, and any other a next leaf.
ghost use Rattle.std.specs.Prelude.{◌<◌, length, IfSome};

use crate::lines::{print_checks, print_leaf, print_made, print_root, print_signed};
use crate::small_tree::root;
use signer::{Node, Signature, Signer};
use std::io;
use streams::field;
use wire::u32_at;

// What a row is.
#[derive(Clone, Copy)]
enum Kind {
    Root,
    Make,
    Sign,
    Leaf,
}

impl From<u8> for Kind {
    fn from(byte: u8) -> Kind {
        match byte {
            1 => Kind::Root,
            2 => Kind::Make,
            3 => Kind::Sign,
            _ => Kind::Leaf,
        }
    }
}

#[derive(Clone, Copy)]
struct Row<'a> {
    kind: Kind,
    first: &'a [u8],
    second: &'a [u8],
}

// The row at the start of m, and what stands behind it.
fn next_row(m: &[u8]) -> Option<(Row<'_>, &[u8])>
    ensures { IfSome result (λ r. length r.1.now < length m.now) }
{
    let (kind, rest) = m.split_first()?;
    let (first, rest) = field(rest)?;
    let (second, rest) = field(rest)?;
    let kind = Kind::from(*kind);
    Some((
        Row {
            kind,
            first,
            second,
        },
        rest,
    ))
}

// A signer to lend to the first key making. No byte of it is 0.
fn any_signer() -> Signer {
    let node = Node { value: [255u8; 32] };
    let nodes = [node; 2048];
    Signer {
        key: [255u8; 56],
        seed: [255u8; 32],
        next: 4294967295,
        nodes,
    }
}

// The root of a small tree, by a seed and an identifier.
fn root_row(rt: &impl Print, seed: &[u8], id: &[u8]) -> io::Result<()> {
    match (<[u8; 32]>::try_from(seed), <[u8; 16]>::try_from(id)) {
        (Ok(seed), Ok(id)) => print_root(rt, root(id, seed)),
        _ => Ok(()),
    }
}

// A key making, by a seed and an identifier.
fn make_row(rt: &impl Print, lent: Signer, seed: &[u8], id: &[u8]) -> io::Result<Signer> {
    let (signer, made) = signer::made(lent, seed, id);
    print_made(rt, &signer, made)?;
    Ok(signer)
}

// A signing, by a C and a message; what was signed is checked under the signer's key.
fn sign_row(rt: &impl Print, lent: Signer, nonce: &[u8], message: &[u8]) -> io::Result<Signer> {
    let (signer, signed) = signer::signed(lent, nonce, message);
    print_signed(rt, signer.next, &Signature::from(signed))?;
    if let Ok(bytes) = signed {
        let key = signer.key;
        print_checks(rt, key, message, bytes)?;
    }
    Ok(signer)
}

// The next leaf, in four bytes, set from outside.
fn leaf_row(rt: &impl Print, lent: Signer, leaf: &[u8]) -> io::Result<Signer> {
    let mut signer = lent;
    if leaf.len() == 4 {
        signer.next = u32_at(leaf, 0);
        print_leaf(rt, signer.next)?;
    }
    Ok(signer)
}

// What a row makes of the signer.
fn after(rt: &impl Print, signer: Signer, row: Row<'_>) -> io::Result<Signer> {
    match row.kind {
        Kind::Root => {
            root_row(rt, row.first, row.second)?;
            Ok(signer)
        }
        Kind::Make => make_row(rt, signer, row.first, row.second),
        Kind::Sign => sign_row(rt, signer, row.first, row.second),
        Kind::Leaf => leaf_row(rt, signer, row.first),
    }
}

// Runs every whole row of m.
pub fn run(rt: &impl Print, m: &[u8]) -> io::Result<()> {
    let mut signer = any_signer();
    let mut rest = m;
    while let Some((row, behind)) = next_row(rest) {
        let left = after(rt, signer, row)?;
        signer = left;
        rest = behind;
    }
    Ok(())
}
