// A node by its number, four words each.
ghost use Rattle.std.specs.Prelude.{◌≡◌};
ghost use Rattle.schema_nodes.specs.Row.{IsNode, HasWords};
ghost use Rattle.schema_nodes.specs.Names.{first_named, count_named};

// A part that holds no others.
#[derive(Clone, Copy)]
pub enum Leaf {
    Number { tag: u64, lowest: u64, highest: u64 },
    Name { tag: u64, highest: u64 },
    Text { tag: u64, fewest: u64, most: u64 },
    Bits { tag: u64, count: u64 },
}

// A kind, with what it takes.
#[derive(Clone, Copy)]
pub enum Node {
    Leaf(Leaf),
    Sequence {
        first: usize,
        count: usize,
    },
    Choice {
        tag: u64,
        first: usize,
        count: usize,
    },
    Optional {
        node: usize,
    },
    Unread {
        tag: u64,
    },
    NoReader,
    Unlisted,
    Extension {
        node: usize,
        tag: u64,
    },
    Headed {
        tag: u64,
        node: usize,
    },
    Other {
        node: usize,
    },
    Unknown,
}

// The nodes that a node names: so many from the first on, one after another.
#[derive(Clone, Copy)]
pub struct Named {
    pub first: usize,
    pub count: usize,
}

// Node k; one that the table has not is all zeros.
pub fn node_at(nodes: &[u64], k: usize) -> Node
    ensures { IsNode nodes.now k result }
{
    if k < nodes.len() / 4 {
        let i = k * 4;
        let kind = nodes[i];
        let a = nodes[i + 1];
        let b = nodes[i + 2];
        let c = nodes[i + 3];
        return node_of(kind, a, b, c);
    }
    node_of(0, 0, 0, 0)
}

fn node_of(kind: u64, a: u64, b: u64, c: u64) -> Node
    ensures { HasWords kind a b c result }
{
    match kind {
        0 => Node::Leaf(Leaf::Number {
            tag: a,
            lowest: b,
            highest: c,
        }),
        1 => Node::Leaf(Leaf::Name { tag: a, highest: b }),
        2 => Node::Leaf(Leaf::Text {
            tag: a,
            fewest: b,
            most: c,
        }),
        3 => Node::Leaf(Leaf::Bits { tag: a, count: b }),
        4 => Node::Sequence {
            first: a as usize,
            count: b as usize,
        },
        5 => Node::Choice {
            tag: a,
            first: b as usize,
            count: c as usize,
        },
        6 => Node::Optional { node: a as usize },
        7 => Node::Unread { tag: a },
        8 => Node::NoReader,
        9 => Node::Unlisted,
        10 => Node::Extension {
            node: a as usize,
            tag: b,
        },
        11 => Node::Headed {
            tag: a,
            node: b as usize,
        },
        12 => Node::Other { node: a as usize },
        _ => Node::Unknown,
    }
}

impl Node {
    // What it names; the first is 0 where it names none.
    pub fn named(self) -> Named
        ensures { (result.first ≡ first_named self) × (result.count ≡ count_named self) }
    {
        match self {
            Node::Sequence { first, count } => Named { first, count },
            Node::Choice {
                tag: _,
                first,
                count,
            } => Named { first, count },
            Node::Optional { node } => Named {
                first: node,
                count: 1,
            },
            Node::Extension { node, tag: _ } => Named {
                first: node,
                count: 1,
            },
            Node::Headed { tag: _, node } => Named {
                first: node,
                count: 1,
            },
            Node::Other { node } => Named {
                first: node,
                count: 1,
            },
            _ => Named { first: 0, count: 0 },
        }
    }
}
