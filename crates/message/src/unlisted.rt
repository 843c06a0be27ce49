// Messages that name an element outside the table: badly formed, which is seen from the bits alone, before anything is told.
ghost use Rattle.std.specs.Prelude.{◌≡◌, true, ℕ, ◌^◌, ◌≤◌, ◌<◌, length};
ghost use Rattle.elements.specs.Unlisted.{Fails};
ghost use Rattle.message.specs.Data.{message_at};
ghost use Rattle.message.specs.Unlisted.{header_bits};

use ample_bits::{ahead, behind, first, rest};
use elements::unlisted::names_unlisted;
use field_ranges::table::{DAY, HOURS, MINUTES, MONTH, MSG_ID, SIDE, YEAR};

// The bits of the longest header and of the number of elements behind it. A shorter message is not looked at.
const HEAD_BITS: usize = 52;

// The bits of a header behind its presence bits, by these: the first is for a reference, the second for an acknowledgment.
fn header_bits(has: u64) -> usize
    requires { has < 4 }
    ensures { (result ≡ header_bits has) × (result ≤ 46) }
{
    let id = MSG_ID.width();
    let date = YEAR.width() + MONTH.width() + DAY.width();
    let time = HOURS.width() + MINUTES.width() + MINUTES.width();
    let bare = id + date + time;
    let acknowledgment = SIDE.width();
    if has == 0 {
        return bare;
    }
    if has == 1 {
        return bare + acknowledgment;
    }
    if has == 2 {
        return bare + id;
    }
    bare + id + acknowledgment
}

// Whether the message at `at` comes to an element outside the table, in a window that ends at `end`.
pub fn has_unlisted(s: &[u8], at: usize, end: usize, table: &[u8]) -> bool
    requires { (at < 2 ^ 30) × (1 ≤ length table.now) × (length table.now ≤ 256) }
    ensures { result ≡ true → (n : ℕ) → Fails 236059 (message_at table.now s.now) s.now (record { at = at; end = end; why = 0; marks = 0 }) n }
{
    if s.len() < at / 8 + 8 {
        return false;
    }
    if end < at + HEAD_BITS {
        return false;
    }
    let has = first(ahead(s, at), 2);
    let p = at + 2 + header_bits(has);
    // whether there is constrained data, then the number of elements
    let v = rest(s, p);
    let count = first(v, 4) % 8 + 1;
    names_unlisted(s, behind(v, 4), p + 4, end, table, count)
}
