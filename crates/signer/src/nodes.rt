// The tree, from the leaves up to the root.
ghost use Rattle.std.specs.Prelude.{◌≡◌};
ghost use Rattle.signer.specs.Nodes.{node_of, nodes_of};

use crate::state::Node;
use crate::strings::leaf_public;
use lms::{Place, inner_node, leaf_node};

// The value of a node: of a leaf by its public value, of any other by its children's values.
fn node_value(node: Place, seed: [u8; 32], left: [u8; 32], right: [u8; 32]) -> [u8; 32]
    ensures { result ≡ node_of seed node.id node.number left right }
{
    if 1024 <= node.number {
        let id = node.id;
        let leaf = Place {
            id,
            number: node.number - 1024,
        };
        leaf_node(node, leaf_public(leaf, seed))
    } else {
        inner_node(node, left, right)
    }
}

// The whole tree, over lent nodes. What is read as the children of a leaf does not count.
pub fn tree_of(nodes: &mut [Node; 2048], id: [u8; 16], seed: [u8; 32])
    ensures { nodes.new ≡ nodes_of seed id }
{
    let none = Node { value: [0u8; 32] };
    *nodes = [none; 2048];
    for r in (1..2048usize).rev() {
        let left = nodes[2 * r % 2048];
        let right = nodes[(2 * r + 1) % 2048];
        let node = Place {
            id,
            number: r as u32,
        };
        let value = node_value(node, seed, left.value, right.value);
        nodes[r] = Node { value };
    }
}
