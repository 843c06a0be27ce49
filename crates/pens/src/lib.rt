// A pen: where the writer stands in the list of records and in the bits. A list that tells no value of the format is refused, and no pen stands behind a refusal.
#![tactic(auto)]

ghost use Rattle.std.specs.Prelude.{◌≡◌, false, true, List, [], ◌∷◌, ℕ, zero, ◌*◌, ◌^◌, ◌≤◌, ◌<◌, length, get_or};
ghost use Rattle.record_lists.specs.Items.{plain};
ghost use Rattle.record_lists.specs.Kinds.{span_tag};
ghost use Rattle.record_lists.specs.Parse.{opens, begins, peel};
ghost use Rattle.pens.specs.Rest.{items};
ghost use Rattle.pens.specs.Stand.{before, after};
ghost use Rattle.pens.specs.Writes.{Inks, Writes};

use bit_writer::number::put;

pub mod places; // places.rt: bits that are put before others

// The next record, and the place of the next bit.
#[derive(Clone, Copy)]
pub struct Pen {
    pub next: usize,
    pub at: usize,
}

// What was written tells a value, and the pen stands behind it.
#[derive(Clone, Copy)]
pub struct Wrote<T> {
    pub value: T,
    pub pen: Pen,
}

// The list tells no value of the format that was to be written.
#[derive(Clone, Copy)]
pub struct Refused;

// The records of a list, five words each. Not a slice of fives: words are what the caller lends, C too, and what the definitions read.
#[derive(Clone, Copy)]
pub struct Records<'a> {
    pub words: &'a [u64],
    pub len: usize,
    ghost held: { len * 5 ≤ length words.now },
    ghost few: { len < 2 ^ 32 },
    ghost words_fit: { (i : ℕ) → get_or words.now i 0 < 2 ^ 64 },
}

// No message has as many bits. Behind this place nothing is put.
pub const LIMIT: usize = 4294967296;

// Whether record i has this tag.
pub fn is_tagged(records: Records, i: usize, tag: u64) -> bool
    ensures { (b : ℕ → ℕ) → result ≡ opens (tag ∷ []) (items b records.entry.words.now records.entry.len i) }
{
    i < records.len && records.words[i * 5] == tag
}

// Whether record i is this one.
pub fn is_record(
    records: Records,
    i: usize,
    tag: u64,
    element: u64,
    value: u64,
    second: u64,
) -> bool
    requires { span_tag tag ≡ false }
    ensures { ((b : ℕ → ℕ) → result ≡ begins (plain tag element value second) (items b records.entry.words.now records.entry.len i)) × (result ≡ true → i < records.entry.len) }
{
    if i < records.len {
        let k = i * 5;
        let words = records.words;
        if words[k] == tag {
            if words[k + 1] == element {
                if words[k + 2] == value {
                    return words[k + 3] == second;
                }
            }
        }
    }
    false
}

// This record is taken.
pub fn take(
    records: Records,
    p: Pen,
    tag: u64,
    element: u64,
    value: u64,
    second: u64,
) -> Result<Pen, Refused>
    requires { span_tag tag ≡ false }
    ensures { (b : ℕ → ℕ) (X : List ℕ) → Writes (λ _. []) (λ R. peel (plain tag element value second ∷ []) zero R) (λ i. items b records.entry.words.now records.entry.len i) records.entry.len (before p) X (after result) X }
{
    let i = p.next;
    if is_record(records, i, tag, element, value, second) {
        let next = i + 1;
        return Ok(Pen { next, at: p.at });
    }
    Err(Refused)
}

// The n bits of v are put.
pub fn ink(out: &mut [u8], p: Pen, n: usize, v: u64) -> Pen
    requires { (n ≤ 64) × (v < 2 ^ n) }
    ensures { Inks (before p) out.old n v (before result) out.new }
{
    let at = p.at;
    if LIMIT < at {
        return p;
    }
    put(out, at, n, v);
    Pen {
        next: p.next,
        at: at + n,
    }
}
