// The tree of an LMS key (RFC 8554, section 5.3), all of whose nodes are kept: node r at index r.

ghost use Rattle.std.specs.Prelude.{◌≡◌, ℕ, ◌+◌, ◌*◌, ◌^◌, ◌<◌, ◌≤◌, IfOk, length};
ghost use Rattle.zy_lms.specs.Height.{levels_of};
ghost use Rattle.zy_lms.specs.Tree.{leaf_node, inner_node, parent_of, climb, nodes_in, tree_node};
ghost use Rattle.zy_lms.specs.Nodes.{HoldsNodes};

use crate::height::Height;
use sha2::Digest as _;
use std::alloc::Global;
use zy_base::{Digest, Want};
use zy_ots::{OtsType, ots_public, prefix_hasher};

const LEAF: u16 = 0x8282;

const INNER: u16 = 0x8383;

pub(crate) fn leaf_node(id: &[u8; 16], r: u32, public: &Digest) -> Digest
    ensures { result.0 ≡ leaf_node id.now r public.now.0 }
{
    let mut hasher = prefix_hasher(id, r, LEAF);
    hasher.update(&public.0);
    Digest(hasher.finalize())
}

fn inner_node(id: &[u8; 16], r: u32, left: &[u8], right: &[u8]) -> Digest
    ensures { result.0 ≡ inner_node id.now r left.now right.now }
{
    let mut hasher = prefix_hasher(id, r, INNER);
    hasher.update(left);
    hasher.update(right);
    Digest(hasher.finalize())
}

// Node `r`, from the nodes below it.
fn node(
    id: &[u8; 16],
    seed: &[u8; 32],
    height: Height,
    ots: OtsType,
    r: u32,
    nodes: &[Digest],
) -> Digest
    requires low { 1 ≤ r }
    requires high { r < 2 * 2 ^ levels_of height }
    requires below { HoldsNodes ots id.now seed.now (levels_of height) nodes.now (r + 1) }
    ensures { (n d : ℕ) → n + d ≡ levels_of height → 2 ^ d ≤ r → r < 2 * 2 ^ d
        → result.0 ≡ tree_node ots id.now seed.now (levels_of height) n r }
{
    let leaf_count = height.leaf_count();
    if r >= leaf_count {
        leaf_node(id, r, &ots_public(ots, id, r - leaf_count, seed))
    } else {
        let left = 2 * r as usize;
        inner_node(id, r, &nodes[left].0, &nodes[left + 1].0)
    }
}

/// All nodes of the tree: node r at index r, from 1 on.
pub(crate) fn make_nodes(
    alloc: Global,
    id: &[u8; 16],
    seed: &[u8; 32],
    height: Height,
    ots: OtsType,
) -> Result<Vec<Digest>, Want>
    ensures { IfOk result (λ v. HoldsNodes ots id.now seed.now (levels_of height) v.items 1) }
{
    let node_count = 2 * height.leaf_count();
    let mut nodes = vec![in alloc; Digest([0; 32]); node_count as usize]?;
    'nodes: for r in (1..node_count).rev() {
        nodes[r as usize] = node(id, seed, height, ots, r, &nodes);
    }
    Ok(nodes)
}

// The node above node `r`.
fn parent(id: &[u8; 16], r: u32, value: &Digest, beside: &[u8]) -> Digest
    ensures { result.0 ≡ parent_of id.now r value.now.0 beside.now }
{
    if r % 2 == 0 {
        inner_node(id, r / 2, &value.0, beside)
    } else {
        inner_node(id, r / 2, beside, &value.0)
    }
}

/// The root that a leaf's value and its path of 32 bytes a level lead to.
pub(crate) fn climb(
    id: &[u8; 16],
    height: Height,
    leaf: u32,
    mut value: Digest,
    path: &[u8],
) -> Digest
    requires node { 2 ^ levels_of height ≤ leaf }
    requires whole { length path.now ≡ 32 * levels_of height }
    ensures { result.0 ≡ climb id.now leaf value.0 (nodes_in (levels_of height) path.now) }
{
    'levels: for level in 0..height.levels() {
        let beside = &path[32 * level..32 * level + 32];
        value = parent(id, leaf >> level, &value, beside);
    }
    value
}
