// What is held and counted at the end.
use counted_books::free_places;
use listing::Line;
use name_book::{Frame, Refusal, look_up};
use station::Shift;

// A name of two characters, with its frame's number and byte length.
pub fn held(book: &[u32; 10], name: &[u8], text: u64) {
    let found = look_up(book, text, 2);
    let mut line = Line::new();
    line.put_text(name);
    line.put_text(b": ");
    put_found(&mut line, found);
    line.write();
}

// How many names the book still takes.
pub fn free(book: &[u32; 10]) {
    let mut line = Line::new();
    line.put_text(b"free: ");
    match free_places(book) {
        Ok(count) => line.put_decimal(count),
        Err(refusal) => put_refusal(&mut line, refusal.number()),
    }
    line.write();
}

fn put_found(line: &mut Line, found: Result<Option<Frame>, Refusal>) {
    match found {
        Ok(Some(frame)) => {
            line.put_decimal(u64::from(frame.number));
            line.put_text(b" ");
            line.put_decimal(u64::from(frame.bytes));
        }
        Ok(None) => line.put_text(b"nowhere"),
        Err(refusal) => put_refusal(line, refusal.number()),
    }
}

fn put_refusal(line: &mut Line, number: u64) {
    line.put_text(b"no ");
    line.put_decimal(number);
}

pub fn counts(station: u64, shift: Shift) {
    let mut line = Line::new();
    line.put_text(b"station ");
    line.put_decimal(station);
    line.put_text(b": offered ");
    line.put_decimal(shift.offered);
    line.put_text(b", bound ");
    line.put_decimal(shift.bound);
    line.put_text(b", repeated ");
    line.put_decimal(shift.repeated);
    line.put_text(b", turned away ");
    line.put_decimal(shift.refused);
    line.write();
}
