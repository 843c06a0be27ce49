// The writer of fixture frames: from a list of records to the bits of a clean message, padded with zero bits to a byte.
#![tactic(auto)]

ghost use Rattle.std.specs.Prelude.{◌≡◌, ◌≤◌, length};
ghost use Rattle.std.proofs.Math.Option.{some};
ghost use Rattle.x691.specs.Bits.{bit_of};
ghost use Rattle.atn.specs.Format.{Fmt};
ghost use Rattle.record_lists.specs.Kinds.{kind_of};
ghost use Rattle.record_lists.specs.Message.{write_message};
ghost use Rattle.pens.specs.Stand.{after};
ghost use Rattle.pens.specs.Writes.{Part};
ghost use Rattle.fixture_writer.specs.declared.Refusal.TheVariants.{NoMessage};
ghost use Rattle.fixture_writer.specs.Says.{Says, front, number_of, need_of};

use lent_tables::tables_fit;
use message_nodes::root;
use message_nodes::table::NODES;
use pens::places::put_at;
use pens::{Pen, Records, Refused};
use write_nodes::node::{Walk, write_node};
use write_spans::Lent;
use write_spans::inside::spans_inside;
use write_steps::lead::Tables;

// Why nothing is written.
#[derive(Clone, Copy)]
pub enum Refusal {
    TablesUnfit,
    NoDirection,
    NoMessage,
    TooFewBytes { need: usize },
}

impl Refusal {
    // The number of the refusal.
    pub fn number(self) -> u64
        ensures { result ≡ number_of self }
    {
        match self {
            Refusal::TablesUnfit => 2,
            Refusal::NoDirection => 3,
            Refusal::NoMessage => 8,
            Refusal::TooFewBytes { need: _ } => 9,
        }
    }

    // The bytes needed, where too few are lent; else 0.
    pub fn need(self) -> usize
        ensures { result ≡ need_of self }
    {
        match self {
            Refusal::TooFewBytes { need } => need,
            _ => 0,
        }
    }
}

impl From<Refused> for Refusal {
    ghost from_gives = { λ _ e. e ≡ NoMessage };

    fn from(_refused: Refused) -> Refusal {
        Refusal::NoMessage
    }
}

// How deep the messages are.
const DEPTH: usize = 29;

// No list has as many records, and nothing for spans to point into as many bytes.
const RECORDS: usize = 4294967296;

const BYTES: usize = 72057594037927936;

// kind 0 is CPDLC, 1 Context Management, 2 association control; direction 0 is the aircraft's message, 1 the ground's: numbers, since other ones are refused. Each record of the list is five words, the fifth of which says nothing here; its spans point into the bits of `src`. What is written is told in bits, which stand in as many bytes as hold them.
pub fn write_message(
    kind: u64,
    direction: u64,
    down: &[u8],
    up: &[u8],
    words: &[u64],
    src: &[u8],
    out: &mut [u8],
) -> Result<usize, Refusal>
    ensures { Says result out.new (write_message kind direction down.now up.now words.now src.now out.old) }
{
    if !tables_fit(down, up) {
        return Err(Refusal::TablesUnfit);
    }
    if 1 < direction {
        return Err(Refusal::NoDirection);
    }
    if 2 < kind {
        return Err(Refusal::NoMessage);
    }
    if words.len() % 5 != 0 {
        return Err(Refusal::NoMessage);
    }
    let m = words.len() / 5;
    if RECORDS <= m {
        return Err(Refusal::NoMessage);
    }
    if BYTES <= src.len() {
        return Err(Refusal::NoMessage);
    }
    let records = Records { words, len: m };
    if !spans_inside(records, src) {
        return Err(Refusal::NoMessage);
    }
    let tables = Tables { down, up };
    let lent = Lent { records, src };
    let mut spare = [0u8; 1];
    let p = write_list(kind, direction, tables, lent, &mut spare)?;
    if p.next < m {
        return Err(Refusal::NoMessage);
    }
    let bits = p.at;
    let need = bits / 8 + (bits % 8 + 7) / 8;
    if out.len() < need {
        return Err(Refusal::TooFewBytes { need });
    }
    // What was measured is written: this run ends as the first did.
    let _written = write_list(kind, direction, tables, lent, out);
    put_at(out, bits, need * 8 - bits, 0);
    Ok(bits)
}

// The message from the list's first record and from the first bit on.
fn write_list(
    kind: u64,
    direction: u64,
    tables: Tables,
    lent: Lent,
    out: &mut [u8],
) -> Result<Pen, Refused>
    requires { (kind ≤ 2) × (direction ≤ 1) }
    ensures { (f : Fmt) → kind_of kind direction tables.entry.down.now tables.entry.up.now ≡ some f → Part f (0, 0) (bit_of lent.entry.src.now) lent.entry.records.words.now lent.entry.records.len front out.old (after result) out.new }
{
    let p = Pen { next: 0, at: 0 };
    let k = root(kind, direction);
    let walk = Walk {
        nodes: &NODES,
        tables,
        lent,
    };
    write_node(walk, out, k, DEPTH, 0, 0, p)
}
