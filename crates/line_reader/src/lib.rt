// A line of a saved book, read.
#![tactic(auto)]

ghost use Rattle.std.specs.Prelude.{◌≡◌, cond, ltb, ◌^◌, ◌≤◌, ◌<◌, length, Some, None};
ghost use Rattle.book_lines.specs.Lines.{value as Lines·value, entry_of, checked as Lines·checked, entry};
ghost use Rattle.line_reader.specs.Reads.{Number, found};

use book_entries::{Entry, unit};

// The entry of a good line, its line feed left out.
pub fn read_line(line: &[u8]) -> Option<Entry>
    ensures { entry line.now ≡ found result }
{
    let n = line.len();
    if n < 16 {
        return None;
    }
    if 29 < n {
        return None;
    }
    let size = (n - 12) / 2;
    let name = number(&line[..size * 2])?;
    let frame = number(&line[size * 2..size * 2 + 8])?;
    let bytes = number(&line[size * 2 + 8..])?;
    checked(size as u32, name, frame, bytes)
}

// The entry of a name of so many characters, a frame number and a byte length, if it is good.
fn checked(size: u32, name: u64, number: u64, bytes: u64) -> Option<Entry>
    requires { (2 ≤ size) × (size ≤ 8) × (name < 256 ^ size) × (number < 4294967296) × (bytes < 1048576) }
    ensures { Lines·checked (entry_of size name number bytes) ≡ found result }
{
    let text = name * unit(size);
    let e = Entry {
        high: (text / 4294967296) as u32,
        low: (text % 4294967296) as u32,
        number: number as u32,
        shape: size * 1048576 + bytes as u32,
    };
    if !e.is_good() {
        return None;
    }
    Some(e)
}

// The number of upper-case digits.
fn number(text: &[u8]) -> Option<u64>
    requires { length text.now ≤ 16 }
    ensures { Number text.now result }
{
    let mut x = 0;
    for c in text {
        let d = value(*c)?;
        x = x * 16 + d;
    }
    Some(x)
}

// A digit's value.
fn value(c: u8) -> Option<u64>
    ensures { result ≡ cond (ltb (Lines·value c) 16) (Some (Lines·value c)) None }
{
    match c {
        b'0'..=b'9' => Some(u64::from(c) - 48),
        b'A'..=b'F' => Some(u64::from(c) - 55),
        _ => None,
    }
}
