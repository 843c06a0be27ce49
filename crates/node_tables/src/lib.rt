// Formats as tables of nodes, six numbers each.
#![tactic(auto)]

ghost use Rattle.std.specs.Prelude.{◌≡◌, ◌≤◌, ◌<◌, length};
ghost use Rattle.node_tables.specs.Nodes.{node_word};
ghost use Rattle.node_tables.specs.Row.{IsNode};

// A kind, and what it takes: numbers, since `meaning` and `sure` are of a table of numbers, in which the same row is a format or a member of a sequence by where it is read.
#[derive(Clone, Copy)]
pub struct Node {
    pub kind: u64,
    pub a: u64,
    pub b: u64,
    pub c: u64,
    pub d: u64,
    pub e: u64,
}

// Number j of node k, 0 where the table has no such node.
fn node_word(nodes: &[u64], k: usize, j: usize) -> u64
    requires { (length nodes.now ≤ 6000000) × (j < 6) }
    ensures { result ≡ node_word nodes.now k j }
{
    if k < 1000000 {
        let i = k * 6 + j;
        if i < nodes.len() {
            return nodes[i];
        }
    }
    0
}

// Node k.
pub fn node_at(nodes: &[u64], k: usize) -> Node
    requires { length nodes.now ≤ 6000000 }
    ensures { IsNode nodes.now k result }
{
    let kind = node_word(nodes, k, 0);
    let a = node_word(nodes, k, 1);
    let b = node_word(nodes, k, 2);
    let c = node_word(nodes, k, 3);
    let d = node_word(nodes, k, 4);
    let e = node_word(nodes, k, 5);
    Node {
        kind: kind,
        a: a,
        b: b,
        c: c,
        d: d,
        e: e,
    }
}
