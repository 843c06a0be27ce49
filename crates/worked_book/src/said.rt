// What a line says of an answer.
use counted_books::free_places;
use listing::Line;

// The number of free places ends a line.
pub fn end(mut line: Line, book: &[u32]) {
    line.put_text(b", free ");
    match free_places(book) {
        Ok(count) => line.put_decimal(count),
        Err(refusal) => put_refusal(&mut line, refusal.number()),
    }
    line.write();
}

fn put_refusal(line: &mut Line, number: u64) {
    line.put_text(b"no ");
    line.put_decimal(number);
}

pub fn put_loaded(line: &mut Line, answer: Result<usize, loaded_books::Refusal>) {
    match answer {
        Ok(names) => {
            line.put_text(b"loaded ");
            line.put_decimal(names as u64);
        }
        Err(refusal) => put_refusal(line, refusal.number()),
    }
}

pub fn put_withdrawn(line: &mut Line, answer: Result<(), name_book::Refusal>) {
    match answer {
        Ok(()) => line.put_text(b"gone"),
        Err(refusal) => put_refusal(line, refusal.number()),
    }
}

pub fn put_saved(line: &mut Line, answer: Result<usize, saved_books::Refusal>, out: &[u8]) {
    match answer {
        Ok(bytes) => {
            line.put_text(b"wrote");
            put_lines(line, out, bytes);
        }
        Err(refusal) => {
            put_refusal(line, refusal.number());
            line.put_text(b" ");
            line.put_decimal(refusal.need() as u64);
        }
    }
}

// The first k bytes of a saved text, a space for each line feed.
fn put_lines(line: &mut Line, text: &[u8], k: usize) {
    line.put(b' ');
    for &byte in text.iter().take(k) {
        line.put(if byte == b'\n' { b' ' } else { byte });
    }
}
