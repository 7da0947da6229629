// From a leaf key to the root of the tree.
ghost use Rattle.std.specs.Prelude.{◌≡◌, ◌/◌};
ghost use Rattle.lms.specs.Tree.{leaf_node, inner_node, parent_of, climb};

use crate::place::{Place, begun};

// The value of the leaf with the given node number.
pub fn leaf_node(node: Place, key: [u8; 32]) -> [u8; 32]
    ensures { result ≡ leaf_node node.id node.number key }
{
    begun(node, 0x82).feed(&key).finish()
}

// The value of the inner node with the given number, by its two children.
pub fn inner_node(node: Place, left: [u8; 32], right: [u8; 32]) -> [u8; 32]
    ensures { result ≡ inner_node node.id node.number left right }
{
    begun(node, 0x83).feed(&left).feed(&right).finish()
}

// The parent's place.
fn above(node: Place) -> Place
    ensures { result ≡ record { id = node.id; number = node.number / 2 } }
{
    let id = node.id;
    Place {
        id,
        number: node.number / 2,
    }
}

// The value of the parent of a node with value child: an odd node is the right child.
#[tactic(auto, unfolding(crate::specs::Tree::parent_of))]
pub fn parent(node: Place, child: [u8; 32], sibling: [u8; 32]) -> [u8; 32]
    ensures { result ≡ parent_of node.id node.number child sibling }
{
    if node.number % 2 == 1 {
        inner_node(above(node), sibling, child)
    } else {
        inner_node(above(node), child, sibling)
    }
}

// The value ten levels above a node with value leaf, with the siblings on the way.
pub fn climbed(start: Place, leaf: [u8; 32], path: [[u8; 32]; 10]) -> [u8; 32]
    ensures { result ≡ climb start.id start.number leaf path 10 }
{
    let mut node = start;
    let mut value = leaf;
    for sibling in path {
        let over = parent(node, value, sibling);
        value = over;
        node = above(node);
    }
    value
}
