// What stands where in a key and in a signature.
ghost use Rattle.std.specs.Prelude.{◌≡◌, ◌+◌, ◌*◌, ◌<◌, length};
ghost use Rattle.wire.specs.Parts.{part};
ghost use Rattle.lms.specs.Layout.{path, typed_key, right_types};

use std::array;
use wire::{array_at, u32_at};

// Whether a key carries types 6 and 4.
pub fn typed_key(key: &[u8]) -> bool
    requires { length key.now ≡ 56 }
    ensures { result ≡ typed_key key.now }
{
    (u32_at(key, 0) == 6) & (u32_at(key, 4) == 4)
}

// Whether the types are right and the leaf is one of the tree's.
pub fn right_types(key: &[u8; 56], signature: &[u8; 1452]) -> bool
    ensures { result ≡ right_types key.now signature.now }
{
    let typed = typed_key(key);
    let tree_type = u32_at(signature, 1128);
    let one_time = u32_at(signature, 4);
    let leaf = u32_at(signature, 0);
    typed & (tree_type == 6) & (one_time == 4) & (leaf < 1024)
}

// The ten path strings of a signature.
pub fn path_of(signature: &[u8; 1452]) -> [[u8; 32]; 10]
    ensures { result ≡ path signature.now }
{
    array::from_fn(
        |i: usize| -> [u8; 32]
            requires { i < 10 }
            ensures { result ≡ part signature.exit.now (1132 + 32 * i) 32 }
        { array_at(signature, 1132 + 32 * i) },
    )
}
