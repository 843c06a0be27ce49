// The depth of a table: a node that names none has depth 1, another one more than the deepest that it names.
ghost use Rattle.std.specs.Prelude.{◌≡◌, ◌+◌, ◌≤◌, true, ◌⊎◌, length};
ghost use Rattle.schema_tables.specs.Tests.{links_fit, within};
ghost use Rattle.schema_nodes.specs.Depths.{Deepest};

use super::DEEPEST;
use super::node::node_at;

// The least depth that no table has.
const TOO_DEEP: usize = DEEPEST + 1;

// The nodes of a table whose depths are kept.
const KEPT: usize = 4096;

// The root is no deeper. The depths of a table of few nodes are kept, from its last node on, so that each is worked out once; the nodes of a larger one are walked through, as often as they are named.
pub fn depth_fits(nodes: &[u64]) -> bool
    requires { links_fit nodes.now ≡ true }
    ensures { result ≡ within 16 nodes.now 0 }
{
    let n = nodes.len() / 4;
    if KEPT < n {
        return within(nodes, 0, DEEPEST);
    }
    let mut depths = [0usize; KEPT]; // no heap
    for k in (0..n).rev() {
        let named = node_at(nodes, k).named();
        depths[k] = 1 + deepest(&depths, named.first, named.count);
    }
    depths[0] <= DEEPEST
}

// The greatest of so many depths, at most `TOO_DEEP`, from `first` on.
fn deepest(depths: &[usize], first: usize, count: usize) -> usize
    requires { (count ≡ 0) ⊎ (first + count ≤ length depths.now) }
    ensures { Deepest depths.now first count result }
{
    let mut d: usize = 0;
    // by numbers, since where there are none `first` may lie outside
    for i in 0..count {
        d = d.max(depths[first + i]);
    }
    d.min(TOO_DEEP)
}

// The depth of node k is at most `left`.
fn within(nodes: &[u64], k: usize, left: usize) -> bool
    requires { links_fit nodes.now ≡ true }
    ensures { result ≡ within left nodes.now k }
{
    if left == 0 {
        return false;
    }
    let named = node_at(nodes, k).named();
    for i in 0..named.count {
        if !within(nodes, named.first + i, left - 1) {
            return false;
        }
    }
    true
}
