// The presence bits of a sequence.
ghost use Rattle.std.specs.Prelude.{◌≡◌, ◌+◌, ◌*◌, ◌^◌, ◌≤◌, ◌<◌, length};
ghost use Rattle.x691.specs.Bits.{bit_of};
ghost use Rattle.schema_parts.specs.Member.{flag_of, mark_of};
ghost use Rattle.schema_parts.specs.Owed.{Presence, Ahead, Unread};

use per::number::uint;
use schema_nodes::node::{Node, node_at};

// The presence bits of a member: one, or none.
pub fn flag_of(node: Node) -> usize
    ensures { result ≡ flag_of node }
{
    match node {
        Node::Optional { node: _ } => 1,
        Node::Unread { tag: _ } => 1,
        _ => 0,
    }
}

// The presence bits of the members from node `first` on.
pub fn presence_bits(nodes: &[u64], first: usize, count: usize) -> usize
    requires { first + count < 2 ^ 64 }
    ensures { Presence nodes.now first count result }
{
    let mut bits: usize = 0;
    for i in 0..count {
        let node = node_at(nodes, first + i);
        bits += flag_of(node);
    }
    bits
}

// The bit at this place.
pub fn bit(s: &[u8], at: usize) -> u64
    requires { at + 1 ≤ length s.now * 8 }
    ensures { result ≡ bit_of s.now at }
{
    uint(s, at, 1)
}

// Mark 4 for a member that is not read, where its presence bit at q is set.
fn unread_mark(s: &[u8], node: Node, q: usize) -> u64
    requires { q + flag_of node ≤ length s.now * 8 }
    ensures { result ≡ mark_of node (bit_of s.now) q }
{
    match node {
        Node::Unread { tag: _ } => {
            if bit(s, q) == 0 {
                return 0;
            }
            8
        }
        _ => 0,
    }
}

// The marks of the members from node `first` on, whose presence bits stand from `at` on.
pub fn unread_marks(s: &[u8], nodes: &[u64], first: usize, count: usize, at: usize) -> u64
    requires { (first + count < 2 ^ 64) × (length s.now * 8 < 2 ^ 32) × Ahead nodes.now first count at (length s.now * 8) }
    ensures { Unread nodes.now first count (bit_of s.now) at result }
{
    let mut marks: u64 = 0;
    let mut q = at;
    for i in 0..count {
        let node = node_at(nodes, first + i);
        marks |= unread_mark(s, node, q);
        q += flag_of(node);
    }
    marks
}
