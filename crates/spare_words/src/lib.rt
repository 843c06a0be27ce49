// Words that a first reading is lent, and what is taken over from them.
#![tactic(auto)]

ghost use Rattle.std.specs.Prelude.{◌++◌, ◌≡◌, ◌≤◌, length, drop};

mod front; // front.rt: one record, two, or four

// How many there are: enough for the records of most messages, 48 of CPDLC and 24 of CM.
pub const CPDLC_SPARE: usize = 240;

pub const CM_SPARE: usize = 120;

// All of `from` at the front of `to`: four records and four more at a time, then two, then one, then the words that make none.
pub fn copy(from: &[u64], to: &mut [u64])
    requires { length from.now ≤ length to.old }
    ensures { to.new ≡ from.now ++ drop (length from.now) to.old }
{
    let mut i = 0;
    while from.len() - i >= 40 {
        front::copy_four(&from[i..], &mut to[i..]);
        i += 20;
        front::copy_four(&from[i..], &mut to[i..]);
        i += 20;
    }
    while from.len() - i >= 10 {
        front::copy_two(&from[i..], &mut to[i..]);
        i += 10;
    }
    while from.len() - i >= 5 {
        front::copy_one(&from[i..], &mut to[i..]);
        i += 5;
    }
    while i < from.len() {
        to[i] = from[i];
        i += 1;
    }
}
