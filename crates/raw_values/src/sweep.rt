// All raw values of a field.
use super::frame::frame;
use super::reading::put_reading;
use listing::Line;

// What a line says of a field: the table's byte, the bits before it as a number and how many they are, and the record with its number.
#[derive(Clone, Copy)]
struct Field {
    byte: u8,
    head: u64,
    before: u64,
    place: usize,
}

// A field of `bits` bits, at most 18, behind the `before` bits of head, at most 46, in the argument of the table's byte. Its number stands in the record `place`, or 0: in none.
pub fn sweep(byte: u8, head: u64, before: u64, bits: u64, place: usize) {
    if bits == 0 || 18 < bits || 46 < before {
        return;
    }
    let field = Field {
        byte,
        head,
        before,
        place,
    };
    let behind = 64 - before - bits;
    let count = 1 << bits;
    let mut first = 0;
    let mut text = Line::new();
    for raw in 0..count {
        let f = frame((head << bits | raw) << behind);
        let mut line = Line::new();
        put_reading(&mut line, &f, byte, place, raw);
        if text.text() != line.text() {
            print_run(field, first, raw, &text);
            first = raw;
            text = line;
        }
    }
    print_run(field, first, count, &text);
}

// The raw values from first up to end, which is behind the last; none before the first text is known.
fn print_run(field: Field, first: u64, end: u64, text: &Line) {
    if first < end {
        let mut line = Line::new();
        put_field(&mut line, field);
        put_run(&mut line, first, end - 1);
        put_place(&mut line, field.place);
        line.put_text(b": ");
        line.put_text(text.text());
        line.write();
    }
}

fn put_field(line: &mut Line, field: Field) {
    line.put_text(b"argument ");
    line.put_decimal(field.byte as u64);
    line.put_text(b" behind ");
    line.put_decimal(field.before);
    line.put_text(b" bits 0x");
    line.put_hex(field.head, 1);
    line.put_text(b", raw ");
}

fn put_run(line: &mut Line, first: u64, last: u64) {
    line.put_decimal(first);
    if first < last {
        line.put_text(b"..");
        line.put_decimal(last);
    }
}

fn put_place(line: &mut Line, place: usize) {
    if place == 0 {
        return;
    }
    line.put_text(b", record ");
    line.put_decimal(place as u64);
    line.put_text(b" less raw");
}
