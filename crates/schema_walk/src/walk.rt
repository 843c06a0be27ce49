// A node, with all that lies below it.
ghost use Rattle.std.specs.Prelude.{◌≡◌, ◌+◌, ◌*◌, ◌^◌, ◌≤◌, ◌<◌, length};
ghost use Rattle.x691.specs.Bits.{bit_of};
ghost use Rattle.atn.specs.Format.{seq, choice, ext};
ghost use Rattle.atn.specs.Alternatives.{alternatives_from};
ghost use Rattle.atn.specs.Reading.{read, read_fields};
ghost use Rattle.atn.specs.Messages.{extended};
ghost use Rattle.schema_tables.specs.Nodes.{node_word, members_from, format_at};
ghost use Rattle.schema_leaves.specs.Came.{Open, Came};
ghost use Rattle.schema_parts.specs.Member.{flag_of, member_read};
ghost use Rattle.schema_parts.specs.Owed.{Ahead};
ghost use Rattle.schema_walk.specs.Ready.{Ready};

use capped_records::emit;
use cursor::place::{Cursor, bits, mark, stop};
use per::width::bits_for;
use schema_leaves::Step;
use schema_nodes::node::{Node, node_at};
use schema_parts::leaf::{note_unread, read_leaf, refuse};
use schema_parts::members::{bit, flag_of, presence_bits, unread_marks};

// The part of node k, to the depth that is left.
#[cycle(read_choice_read_extension_read_member_read_members_read_node_read_sequence)]
pub fn read_node(
    s: &[u8],
    nodes: &[u64],
    words: &mut [u64],
    k: usize,
    left: usize,
    at: Step,
) -> Step
    requires { Open s.now at × Ready nodes.now × (left < 2 ^ 32) }
    ensures { Came (read (format_at left nodes.now k) (0, 0) (bit_of s.now) at.c.end at.c.at) at words.old result words.new }
{
    if left == 0 {
        return refuse(at, 0);
    }
    let below = left - 1;
    match node_at(nodes, k) {
        Node::Leaf(leaf) => read_leaf(s, words, leaf, at),
        Node::Sequence { first, count } => read_sequence(s, nodes, words, first, count, below, at),
        Node::Choice { tag, first, count } => {
            read_choice(s, nodes, words, tag, first, count, below, at)
        }
        Node::Optional { node: _ } | Node::Unread { tag: _ } => {
            read_sequence(s, nodes, words, k, 1, below, at)
        }
        Node::NoReader => refuse(at, 0),
        Node::Unlisted => refuse(at, 1),
        Node::Extension { node, tag } => read_extension(s, nodes, words, node, tag, below, at),
        Node::Headed { tag, node } => {
            let c = at.c;
            let n = emit(words, at.n, tag, 0, 0, c.at);
            read_node(s, nodes, words, node, below, Step { c: c, n: n })
        }
        Node::Other { node } => read_node(s, nodes, words, node, below, at),
        Node::Unknown => refuse(at, 0),
    }
}

// A sequence of the members from node `first` on: their presence bits, then the members.
#[cycle(read_choice_read_extension_read_member_read_members_read_node_read_sequence)]
fn read_sequence(
    s: &[u8],
    nodes: &[u64],
    words: &mut [u64],
    first: usize,
    count: usize,
    left: usize,
    at: Step,
) -> Step
    requires { Open s.now at × Ready nodes.now × (left < 2 ^ 32) × (first + count < 2 ^ 64) }
    ensures { Came (read (seq (members_from (λ j. format_at left nodes.now j) nodes.now first count)) (0, 0) (bit_of s.now) at.c.end at.c.at) at words.old result words.new }
{
    let c = at.c;
    let n = at.n;
    let from = c.at;
    let end = c.end;
    let presence = presence_bits(nodes, first, count);
    if end - from < presence {
        let d = Cursor {
            at: end,
            end: end,
            why: 4,
            marks: c.marks,
        };
        return Step { c: d, n: 1 };
    }
    let marks = unread_marks(s, nodes, first, count, from);
    let d = Cursor {
        at: from + presence,
        end: end,
        why: 0,
        marks: c.marks | marks,
    };
    read_members(
        s,
        nodes,
        words,
        first,
        count,
        from,
        left,
        Step { c: d, n: n },
    )
}

// The members from node `first` on, one after another. Their presence bits stand from `flag` on.
#[cycle(read_choice_read_extension_read_member_read_members_read_node_read_sequence)]
fn read_members(
    s: &[u8],
    nodes: &[u64],
    words: &mut [u64],
    first: usize,
    count: usize,
    flag: usize,
    left: usize,
    at: Step,
) -> Step
    requires { Open s.now at × Ready nodes.now × (left < 2 ^ 32) × (first + count < 2 ^ 64) × Ahead nodes.now first count flag (length s.now * 8) }
    ensures { Came (read_fields (members_from (λ j. format_at left nodes.now j) nodes.now first count) (0, 0) (bit_of s.now) at.c.end flag at.c.at) at words.old result words.new }
{
    let mut here = at;
    let mut q = flag;
    for i in 0..count {
        let node = node_at(nodes, first + i);
        here = read_member(s, nodes, words, first + i, node, q, left, here);
        let c = here.c;
        if c.why != 0 {
            return here;
        }
        q += flag_of(node);
    }
    here
}

// One member, node k, which is this one. Its presence bit, if it has one, stands at q.
#[cycle(read_choice_read_extension_read_member_read_members_read_node_read_sequence)]
fn read_member(
    s: &[u8],
    nodes: &[u64],
    words: &mut [u64],
    k: usize,
    node: Node,
    q: usize,
    left: usize,
    at: Step,
) -> Step
    requires { Open s.now at × Ready nodes.now × (left < 2 ^ 32) × (q + flag_of node ≤ length s.now * 8) }
    ensures { Came (member_read (λ j. format_at left nodes.now j) node k (bit_of s.now) at.c.end q at.c.at) at words.old result words.new }
{
    match node {
        Node::Optional { node } => {
            if bit(s, q) == 0 {
                return at;
            }
            read_node(s, nodes, words, node, left, at)
        }
        Node::Unread { tag } => {
            if bit(s, q) == 0 {
                return at;
            }
            note_unread(words, at, tag)
        }
        _ => read_node(s, nodes, words, k, left, at),
    }
}

// A choice: its index, told, and the alternative of that number from node `first` on.
#[cycle(read_choice_read_extension_read_member_read_members_read_node_read_sequence)]
fn read_choice(
    s: &[u8],
    nodes: &[u64],
    words: &mut [u64],
    tag: u64,
    first: usize,
    count: usize,
    left: usize,
    at: Step,
) -> Step
    requires { Open s.now at × Ready nodes.now × (left < 2 ^ 32) × (first + count < 2 ^ 64) × (1 ≤ count) }
    ensures { Came (read (choice tag (alternatives_from (λ j. format_at left nodes.now j) first count)) (0, 0) (bit_of s.now) at.c.end at.c.at) at words.old result words.new }
{
    let n = at.n;
    let from = at.c.at;
    let g = bits(s, at.c, bits_for((count - 1) as u64));
    let c = g.c;
    if c.why != 0 {
        return Step {
            c: c,
            n: (c.why / 16) as usize,
        };
    }
    let index = g.v as usize;
    let m = emit(words, n, tag, g.v, 0, from);
    if index < count {
        return read_node(s, nodes, words, first + index, left, Step { c: c, n: m });
    }
    let d = stop(c, 5, 1);
    Step { c: d, n: 0 }
}

// An extension bit: node k behind a clear one; a set one is mark 2 and "(extended)".
#[cycle(read_choice_read_extension_read_member_read_members_read_node_read_sequence)]
fn read_extension(
    s: &[u8],
    nodes: &[u64],
    words: &mut [u64],
    k: usize,
    tag: u64,
    left: usize,
    at: Step,
) -> Step
    requires { Open s.now at × Ready nodes.now × (left < 2 ^ 32) }
    ensures { Came (read (ext (format_at left nodes.now k) (extended tag)) (0, 0) (bit_of s.now) at.c.end at.c.at) at words.old result words.new }
{
    let n = at.n;
    let g = bits(s, at.c, 1);
    let c = g.c;
    if c.why != 0 {
        return Step {
            c: c,
            n: (c.why / 16) as usize,
        };
    }
    if g.v == 0 {
        return read_node(s, nodes, words, k, left, Step { c: c, n: n });
    }
    let d = mark(c, 2);
    let m = emit(words, n, tag, 0, 1, c.at);
    Step { c: d, n: m }
}
