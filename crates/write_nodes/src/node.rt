// A node, with all that lies below it.
ghost use Rattle.std.specs.Prelude.{◌≡◌, true, false, [], ◌∷◌, ◌+◌, ◌^◌, ◌≤◌, ◌<◌, length};
ghost use Rattle.x691.specs.Bits.{bit_of};
ghost use Rattle.atn.specs.Format.{seq, many, inner};
ghost use Rattle.atn.specs.Reading.{flags};
ghost use Rattle.record_lists.specs.Clear.{firsts};
ghost use Rattle.record_lists.specs.Parse.{same_numbers};
ghost use Rattle.record_lists.specs.Most.{most};
ghost use Rattle.node_tables.specs.Nodes.{format_at, members_from};
ghost use Rattle.node_tables.specs.Sure.{sure_at, sure_members};
ghost use Rattle.pens.specs.Stand.{before, after};
ghost use Rattle.pens.specs.Writes.{limit, Part, Members, Repeats};
ghost use Rattle.write_nodes.specs.Repeated.{repeated};

use node_tables::node_at;
use pens::places::{place, put_at, skip};
use pens::{Pen, Refused, Wrote, ink, is_tagged};
use per::width::bits_for;
use write_leaves::leaf::write_leaf;
use write_spans::Lent;
use write_steps::lead::{Tables, lead};
use write_steps::meet::meet;

// What is walked: the table of nodes, the lent tables and the list.
#[derive(Clone, Copy)]
pub struct Walk<'n, 'd, 'u, 'w, 's> {
    pub nodes: &'n [u64],
    pub tables: Tables<'d, 'u>,
    pub lent: Lent<'w, 's>,
    ghost few: { length nodes.now ≤ 6000000 },
}

// The part of node k, to the depth given; x is the element's number, y the place in the nearest list.
#[cycle(write_inner_write_list_write_members_write_node_write_repeat_write_sequence)]
pub fn write_node(
    walk: Walk,
    out: &mut [u8],
    k: usize,
    depth: usize,
    x: u64,
    y: u64,
    p: Pen,
) -> Result<Pen, Refused>
    requires { (depth < 2 ^ 32) × (sure_at depth walk.nodes.now walk.tables.down.now walk.tables.up.now k ≡ true) }
    ensures { Part (format_at depth walk.entry.nodes.now walk.entry.tables.down.now walk.entry.tables.up.now k) (x, y) (bit_of walk.entry.lent.src.now) walk.entry.lent.records.words.now walk.entry.lent.records.len (before p) out.old (after result) out.new }
{
    if depth == 0 {
        return Err(Refused);
    }
    let g = depth - 1;
    let n = node_at(walk.nodes, k);
    let kind = n.kind;
    let a = n.a;
    let b = n.b;
    let c = n.c;
    let d = n.d;
    if kind < 8 {
        return write_leaf(walk.lent, out, kind, a, b, c, d, n.e, x, p);
    }
    if 19 < kind {
        return Err(Refused);
    }
    if kind == 12 {
        return write_sequence(walk, out, a as usize, b as usize, c as usize, g, x, y, p);
    }
    if kind == 13 {
        return write_sequence(walk, out, a as usize, b as usize, c as usize, g, x, y, p);
    }
    if kind == 16 {
        return write_list(walk, out, a, b, c as usize, d, g, x, y, p);
    }
    if kind == 17 {
        return write_inner(walk, out, a as usize, g, x, y, p);
    }
    let l = lead(walk.tables, walk.lent.records, out, n, x, y, p)?;
    write_node(walk, out, l.value.node, g, l.value.element, y, l.pen)
}

// A sequence of n members, from node k on, with so many presence bits before them.
#[cycle(write_inner_write_list_write_members_write_node_write_repeat_write_sequence)]
fn write_sequence(
    walk: Walk,
    out: &mut [u8],
    k: usize,
    n: usize,
    bits: usize,
    g: usize,
    x: u64,
    y: u64,
    p: Pen,
) -> Result<Pen, Refused>
    requires { (g < 2 ^ 32) × (k < 1000000) × (n < 1000) × (bits < 2 ^ 32) × (flags (members_from (λ j. format_at g walk.nodes.now walk.tables.down.now walk.tables.up.now j) walk.nodes.now k n) ≡ bits) × (sure_members (λ j. format_at g walk.nodes.now walk.tables.down.now walk.tables.up.now j) (λ j. sure_at g walk.nodes.now walk.tables.down.now walk.tables.up.now j) walk.nodes.now k n ≡ true) }
    ensures { Part (seq (members_from (λ j. format_at g walk.entry.nodes.now walk.entry.tables.down.now walk.entry.tables.up.now j) walk.entry.nodes.now k n)) (x, y) (bit_of walk.entry.lent.src.now) walk.entry.lent.records.words.now walk.entry.lent.records.len (before p) out.old (after result) out.new }
{
    let flag = place(p);
    let q = skip(p, bits);
    write_members(walk, out, k, n, g, x, y, flag, q)
}

// n members of a sequence, from node k on. Their presence bits stand from `flag` on.
#[cycle(write_inner_write_list_write_members_write_node_write_repeat_write_sequence)]
fn write_members(
    walk: Walk,
    out: &mut [u8],
    k: usize,
    n: usize,
    g: usize,
    x: u64,
    y: u64,
    flag: usize,
    p: Pen,
) -> Result<Pen, Refused>
    requires { (g < 2 ^ 32) × (k + n < 2 ^ 32) × (n < 1000) × (flag + n < 2 ^ 40) × (sure_members (λ j. format_at g walk.nodes.now walk.tables.down.now walk.tables.up.now j) (λ j. sure_at g walk.nodes.now walk.tables.down.now walk.tables.up.now j) walk.nodes.now k n ≡ true) }
    ensures { Members flag (members_from (λ j. format_at g walk.entry.nodes.now walk.entry.tables.down.now walk.entry.tables.up.now j) walk.entry.nodes.now k n) (x, y) (bit_of walk.entry.lent.src.now) walk.entry.lent.records.words.now walk.entry.lent.records.len (before p) out.old (after result) out.new }
{
    if n == 0 {
        return Ok(p);
    }
    let node = node_at(walk.nodes, k);
    let t = meet(walk.lent.records, out, node, x, flag, p);
    let q = t.pen;
    let next = t.flag;
    if let Some(part) = t.part {
        let s = write_node(walk, out, part, g, x, y, q)?;
        return write_members(walk, out, k + 1, n - 1, g, x, y, next, s);
    }
    write_members(walk, out, k + 1, n - 1, g, x, y, next, q)
}

// A list of lo to hi members, each of node k, which begins with this tag. Their number stands before them.
#[cycle(write_inner_write_list_write_members_write_node_write_repeat_write_sequence)]
fn write_list(
    walk: Walk,
    out: &mut [u8],
    lo: u64,
    hi: u64,
    k: usize,
    tag: u64,
    g: usize,
    x: u64,
    y: u64,
    p: Pen,
) -> Result<Pen, Refused>
    requires { (g < 2 ^ 32) × (lo ≤ hi) × (hi < 1000) × (same_numbers (firsts (format_at g walk.nodes.now walk.tables.down.now walk.tables.up.now k)) (tag ∷ []) ≡ true) × (sure_at g walk.nodes.now walk.tables.down.now walk.tables.up.now k ≡ true) }
    ensures { Part (many lo hi (format_at g walk.entry.nodes.now walk.entry.tables.down.now walk.entry.tables.up.now k)) (x, y) (bit_of walk.entry.lent.src.now) walk.entry.lent.records.words.now walk.entry.lent.records.len (before p) out.old (after result) out.new }
{
    let at = place(p);
    let w = bits_for(hi - lo);
    let q = skip(p, w);
    let t = write_repeat(walk, out, k, tag, g, x, 1, hi as usize, q)?;
    let s = t.pen;
    let count = t.value as u64;
    if count < lo {
        return Err(Refused);
    }
    put_at(out, at, w, count - lo);
    Ok(s)
}

// The members of a list that are there, n at most, each of node k; the first is in place i.
#[cycle(write_inner_write_list_write_members_write_node_write_repeat_write_sequence)]
fn write_repeat(
    walk: Walk,
    out: &mut [u8],
    k: usize,
    tag: u64,
    g: usize,
    x: u64,
    i: u64,
    n: usize,
    p: Pen,
) -> Result<Wrote<usize>, Refused>
    requires { (g < 2 ^ 32) × (i + n < 2 ^ 32) × (n < 1000) × (same_numbers (firsts (format_at g walk.nodes.now walk.tables.down.now walk.tables.up.now k)) (tag ∷ []) ≡ true) × (sure_at g walk.nodes.now walk.tables.down.now walk.tables.up.now k ≡ true) }
    ensures { Repeats (format_at g walk.entry.nodes.now walk.entry.tables.down.now walk.entry.tables.up.now k) x i n (bit_of walk.entry.lent.src.now) walk.entry.lent.records.words.now walk.entry.lent.records.len (before p) out.old (repeated result).p out.new (repeated result).count }
{
    if n == 0 {
        return Ok(Wrote { value: 0, pen: p });
    }
    let j = p.next;
    if is_tagged(walk.lent.records, j, tag) {
        let q = write_node(walk, out, k, g, x, i, p)?;
        let t = write_repeat(walk, out, k, tag, g, x, i + 1, n - 1, q)?;
        return Ok(Wrote {
            value: t.value + 1,
            pen: t.pen,
        });
    }
    Ok(Wrote { value: 0, pen: p })
}

// An inner string. Its length is that of a first run, whose bits nobody keeps.
#[cycle(write_inner_write_list_write_members_write_node_write_repeat_write_sequence)]
fn write_inner(
    walk: Walk,
    out: &mut [u8],
    k: usize,
    g: usize,
    x: u64,
    y: u64,
    p: Pen,
) -> Result<Pen, Refused>
    requires { (g < 2 ^ 32) × (sure_at g walk.nodes.now walk.tables.down.now walk.tables.up.now k ≡ true) × (most (format_at g walk.nodes.now walk.tables.down.now walk.tables.up.now k) ≤ limit) }
    ensures { Part (inner (format_at g walk.entry.nodes.now walk.entry.tables.down.now walk.entry.tables.up.now k)) (x, y) (bit_of walk.entry.lent.src.now) walk.entry.lent.records.words.now walk.entry.lent.records.len (before p) out.old (after result) out.new }
{
    let mut spare = [0u8; 1];
    let o = Pen {
        next: p.next,
        at: 0,
    };
    let t = write_node(walk, &mut spare, k, g, x, y, o)?;
    let n = t.at;
    if 16384 <= n {
        return Err(Refused);
    }
    if n < 128 {
        let q = ink(out, p, 8, n as u64);
        return write_node(walk, out, k, g, x, y, q);
    }
    let q = ink(out, p, 16, 32768 + n as u64);
    write_node(walk, out, k, g, x, y, q)
}
