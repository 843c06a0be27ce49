// Elements that are passed over, to see whether one of them is outside the table: then the message is badly formed, whatever it says else. Nothing is told.
ghost use Rattle.std.specs.Prelude.{◌≡◌, true, ℕ, ◌*◌, ◌^◌, ◌≤◌, ◌<◌, length};
ghost use Rattle.ample_bits.specs.Ahead.{Ahead};
ghost use Rattle.elements.specs.Elements.{elements_at};
ghost use Rattle.elements.specs.Unlisted.{Fails};

use ample_bits::{behind, first, rest};
use passed_arguments::pass_argument;
use per::width::index_width;

// Whether the elements come to an index outside the table. The first begins at `at`, where the word has its bits. Where an argument on the way cannot be passed over it says no.
pub fn names_unlisted(s: &[u8], word: u64, at: usize, end: usize, table: &[u8], count: u64) -> bool
    requires { (8 ≤ length s.now) × (at < 2 ^ 32) × Ahead s.now at 53 word × (1 ≤ length table.now) × (length table.now ≤ 256) × (1 ≤ count) × (count ≤ 8) }
    ensures { result ≡ true → (m i n : ℕ) → Fails (count * 143) (elements_at table.now i count s.now) s.now (record { at = at; end = end; why = 0; marks = m }) n }
{
    let width = index_width(table.len());
    // a table of one entry has nothing outside it
    if width == 0 {
        return false;
    }
    let mut v = word;
    let mut p = at;
    let mut k: u64 = 1;
    loop {
        let index = first(v, width) as usize;
        let q = p + width;
        if table.len() <= index {
            return q <= end;
        }
        if count <= k {
            return false;
        }
        p = pass_argument(s, behind(v, width), q, table[index]);
        if p == 0 {
            return false;
        }
        v = rest(s, p);
        k += 1;
    }
}
