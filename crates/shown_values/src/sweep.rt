// All values of a field.
ghost use Rattle.std.specs.Prelude.{◌<◌};

use element_kinds::Kind;
use records::emit;
use screen_bytes::put_byte;
use screen_elements::put_element_line;

// The lines of an argument of which record `place` has each of `count` values from the lowest on; the other values stay.
pub fn sweep(
    all: bool,
    kind: Kind,
    tags: &[u64; 6],
    values: [u64; 6],
    place: usize,
    lowest: u64,
    count: u64,
)
    requires { place < 6 }
{
    for raw in 0..count {
        if all || raw < 2 || count - raw < 3 {
            let mut v = values;
            v[place] = lowest.wrapping_add(raw);
            show(kind, tags, &v);
        }
    }
}

fn show(kind: Kind, tags: &[u64; 6], values: &[u64; 6]) {
    let mut words = [0u64; 64];
    put_records(&mut words, tags, values);
    let mut line = [0u8; 2048];
    write_line(&words, kind, &mut line);
}

fn put_records(words: &mut [u64], tags: &[u64; 6], values: &[u64; 6]) {
    for i in 0..6 {
        emit(words, i, tags[i], 1, values[i], 0, 0);
    }
}

// A phrase that is one bracket; what has no room is not written.
fn write_line(words: &[u64], kind: Kind, line: &mut [u8]) {
    let m = put_element_line(words, 0, Some(kind), b"[]", line, 0);
    let n = put_byte(line, m, b'\n');
    if let Some(text) = line.get(..n) {
        io::write_all(1, text);
    }
}
