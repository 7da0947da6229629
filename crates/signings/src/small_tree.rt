// A tree of height 5, as a published key of RFC 8554 has it. It stands beside the signer's, whose specs (Nodes, theorem SignerTheorem) are of height 10 alone.
use lms::{Place, inner_node, leaf_node};
use signer::{Node, leaf_public};

// The value of a node: of a leaf by its public value, of any other by its children's values.
fn node_value(node: Place, seed: [u8; 32], left: [u8; 32], right: [u8; 32]) -> [u8; 32] {
    if 32 <= node.number {
        let id = node.id;
        let leaf = Place {
            id,
            number: node.number - 32,
        };
        leaf_node(node, leaf_public(leaf, seed))
    } else {
        inner_node(node, left, right)
    }
}

// The root. What is read as the children of a leaf does not count.
pub fn root(id: [u8; 16], seed: [u8; 32]) -> [u8; 32] {
    let none = Node { value: [0u8; 32] };
    let mut nodes = [none; 64];
    for r in (1..64usize).rev() {
        let left = nodes[2 * r % 64];
        let right = nodes[(2 * r + 1) % 64];
        let node = Place {
            id,
            number: r as u32,
        };
        let value = node_value(node, seed, left.value, right.value);
        nodes[r] = Node { value };
    }
    let top = nodes[1];
    top.value
}
