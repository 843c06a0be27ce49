// A node above one part: its record, its extension bit or its index is written, and the part named.
ghost use Rattle.std.specs.Prelude.{◌≡◌, Bool, false, true, List, ℕ, ◌*◌, ◌^◌, ◌≤◌, ◌<◌, length};
ghost use Rattle.atn.specs.Format.{Fmt};
ghost use Rattle.node_tables.specs.Sure.{sure_of};
ghost use Rattle.write_leaves.specs.Lent.{SureLeaf};
ghost use Rattle.record_lists.specs.Kinds.{span_tag};
ghost use Rattle.pens.specs.Stand.{before};
ghost use Rattle.write_steps.specs.Steps.{LeadsTo, LentTo, Above};

use node_tables::Node;
use pens::{Pen, Records, Refused, Wrote, ink, take};
use write_leaves::index::write_index;

// The node of the part below, and the number of the element that it stands in.
#[derive(Clone, Copy)]
pub struct Below {
    pub node: usize,
    pub element: u64,
}

// The two lent tables.
#[derive(Clone, Copy)]
pub struct Tables<'d, 'u> {
    pub down: &'d [u8],
    pub up: &'u [u8],
    ghost down_some: { 1 ≤ length down.now },
    ghost down_few: { length down.now ≤ 256 },
    ghost up_some: { 1 ≤ length up.now },
    ghost up_few: { length up.now ≤ 256 },
}

pub fn lead(
    tables: Tables,
    records: Records,
    out: &mut [u8],
    node: Node,
    x: u64,
    y: u64,
    p: Pen,
) -> Result<Wrote<Below>, Refused>
    requires { Above node.kind × SureLeaf node.kind node.a node.b node.c node.d node.e }
    ensures { (F : ℕ → Fmt) (S : ℕ → Bool) (N : List ℕ) (s : ℕ → ℕ) → sure_of F S N node.kind node.a node.b node.c node.d node.e ≡ true → LeadsTo F S N tables.entry.down.now tables.entry.up.now node x y s records.entry.words.now records.entry.len (before p) out.old result out.new }
{
    let kind = node.kind;
    let a = node.a;
    let b = node.b;
    let c = node.c;
    let d = node.d;
    if kind == 8 {
        let q = take(records, p, a, x, b, c)?;
        return Ok(to_part(d as usize, x, q));
    }
    if kind == 9 {
        let q = take(records, p, a, x, y, 0)?;
        return Ok(to_part(b as usize, x, q));
    }
    if kind == 10 {
        return Ok(to_part(a as usize, y, p));
    }
    if kind == 11 {
        let q = ink(out, p, 1, 0);
        return Ok(to_part(a as usize, x, q));
    }
    if kind == 14 {
        let i = write_index(records, out, p, x, a, c)?;
        return Ok(to_part(b as usize + i.value as usize, x, i.pen));
    }
    if kind == 15 {
        if c == 0 {
            return lent(records, out, tables.down, a, b as usize, x, p);
        }
        return lent(records, out, tables.up, a, b as usize, x, p);
    }
    Ok(to_part(c as usize, x, p))
}

fn to_part(node: usize, element: u64, pen: Pen) -> Wrote<Below>
    ensures { result ≡ record { value = record { node = node; element = element }; pen = pen } }
{
    Wrote {
        value: Below { node, element },
        pen,
    }
}

// An alternative of a lent table: its byte, up to 16, is the place of its node behind node k.
fn lent(
    records: Records,
    out: &mut [u8],
    table: &[u8],
    tag: u64,
    k: usize,
    x: u64,
    p: Pen,
) -> Result<Wrote<Below>, Refused>
    requires { (1 ≤ length table.now) × (length table.now ≤ 256) × (span_tag tag ≡ false) × (k < 1000000) }
    ensures { (F : ℕ → Fmt) (y : ℕ) (s : ℕ → ℕ) → LentTo F tag k table.now x y s records.entry.words.now records.entry.len (before p) out.old result out.new }
{
    let i = write_index(records, out, p, x, tag, table.len() as u64)?;
    let v = i.value as usize;
    let byte = table[v] as usize;
    if 16 < byte {
        return Err(Refused);
    }
    Ok(to_part(k + byte, x, i.pen))
}
