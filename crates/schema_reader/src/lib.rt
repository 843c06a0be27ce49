// Reading by a lent table of nodes: `parse_by_table`. The reading decides before its records are written: a first one tells into a spare word, in which none fits, and counts them.
#![tactic(auto)]

ghost use Rattle.std.specs.Prelude.{◌≤◌, length};
ghost use Rattle.atn.specs.Entries.{read_frame, settle};
ghost use Rattle.answers.specs.Says.{Says};
ghost use Rattle.schema_tables.specs.Entry.{capped, parse_by_table};
ghost use Rattle.schema_tables.specs.Nodes.{meaning};
ghost use Rattle.schema_walk.specs.Ready.{Ready};

use answers::{Answer, LONGEST_FRAME, accepted, refused};
use cursor::place::Cursor;
use per::units::Octets;
use schema_leaves::Step;
use schema_nodes::DEEPEST;
use schema_nodes::refusal::check_nodes;
use schema_walk::walk::read_node;

// The words of a record.
const WORDS: usize = 5;

// Node 0 is the root; its records have element number 0.
pub fn parse_by_table(frame: &[u8], nodes: &[u64], words: &mut [u64]) -> Answer
    ensures { Says result words.new (parse_by_table frame.now nodes.now words.old) }
{
    if LONGEST_FRAME < frame.len() {
        return refused(1, 0, 0, 0);
    }
    if let Err(refusal) = check_nodes(nodes) {
        return refused(refusal.number(), 0, 0, 0);
    }
    answer(frame, nodes, words)
}

// By a table that is not refused.
fn answer(frame: &[u8], nodes: &[u64], words: &mut [u64]) -> Answer
    requires { (length frame.now ≤ 65536) × Ready nodes.now }
    ensures { Says result words.new (capped (settle (read_frame (meaning nodes.now) frame.now) words.old)) }
{
    let start = Cursor {
        at: 0,
        end: Octets(frame.len()).bits().0,
        why: 0,
        marks: 0,
    };
    let first = Step { c: start, n: 0 };
    let mut none = [0u64; 1];
    let tried = read_node(frame, nodes, &mut none, 0, DEEPEST, first);
    let c = tried.c;
    let count = tried.n;
    if c.why != 0 {
        return refused(c.why % 16, c.at, 0, count);
    }
    if words.len() / WORDS < count {
        return refused(7, c.at, count.saturating_mul(WORDS), 0);
    }
    read_node(frame, nodes, words, 0, DEEPEST, first);
    accepted(c.at, c.marks, count)
}
