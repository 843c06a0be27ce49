// The member of a sequence that comes next: its presence bit is put, and its part named where it is there.
ghost use Rattle.std.specs.Prelude.{◌≡◌, Bool, false, true, List, ℕ, ◌+◌, ◌*◌, ◌^◌, ◌≤◌, ◌<◌, length};
ghost use Rattle.atn.specs.Format.{Fmt, Flds};
ghost use Rattle.record_lists.specs.Kinds.{span_tag};
ghost use Rattle.node_tables.specs.Sure.{sure_member};
ghost use Rattle.pens.specs.Stand.{before};
ghost use Rattle.write_steps.specs.Steps.{Meets, met};

use node_tables::Node;
use pens::places::put_at;
use pens::{Pen, Records, is_record, is_tagged};

// The node of the member, where it is there, the place of the next presence bit, and the pen.
#[derive(Clone, Copy)]
pub struct Met {
    pub part: Option<usize>,
    pub flag: usize,
    pub pen: Pen,
}

pub fn meet(records: Records, out: &mut [u8], node: Node, x: u64, flag: usize, p: Pen) -> Met
    requires { (flag < 2 ^ 40) × (node.kind ≡ 3 → span_tag node.a ≡ false) }
    ensures { ((F : ℕ → Fmt) (S : ℕ → Bool) (fs : Flds) (y : ℕ) (s : ℕ → ℕ) → sure_member F S node.kind node.a node.b node.c node.d ≡ true → Meets F S fs node x y s records.entry.words.now records.entry.len flag (before p) out.old (met result) out.new) × (result.flag ≤ flag + 1) }
{
    let kind = node.kind;
    let a = node.a;
    let b = node.b;
    let c = node.c;
    let d = node.d;
    let i = p.next;
    if kind == 1 {
        if is_tagged(records, i, b) {
            put_at(out, flag, 1, 1);
            return Met {
                part: Some(a as usize),
                flag: flag + 1,
                pen: p,
            };
        }
        put_at(out, flag, 1, 0);
        return absent(flag, p);
    }
    if kind == 3 {
        if is_record(records, i, a, x, b, c) {
            put_at(out, flag, 1, 0);
            let q = Pen {
                next: i + 1,
                at: p.at,
            };
            return absent(flag, q);
        }
        put_at(out, flag, 1, 1);
        return Met {
            part: Some(d as usize),
            flag: flag + 1,
            pen: p,
        };
    }
    if kind == 2 {
        put_at(out, flag, 1, 0);
        return absent(flag, p);
    }
    if kind == 4 {
        put_at(out, flag, 1, 0);
        return absent(flag, p);
    }
    Met {
        part: Some(a as usize),
        flag: flag,
        pen: p,
    }
}

fn absent(flag: usize, p: Pen) -> Met
    requires { flag < 2 ^ 40 }
    ensures { result ≡ record { part = None; flag = flag + 1; pen = p } }
{
    Met {
        part: None,
        flag: flag + 1,
        pen: p,
    }
}
