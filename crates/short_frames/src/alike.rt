// Frames of one length that follow each other and have the same answer.
use super::entries::{Entry, put_entry};
use super::frames::{ask_numbered, put_frame};
use listing::Line;

// The frames with the numbers 0 to last.
pub fn print_runs(entry: Entry, bytes: u64, last: u64) {
    let mut first = 0;
    let mut before = Line::new();
    ask_numbered(&mut before, entry, bytes, 0);
    for number in 0..last {
        let mut line = Line::new();
        ask_numbered(&mut line, entry, bytes, number + 1);
        if before.text() != line.text() {
            print_run(entry, bytes, first, number, &before);
            first = number + 1;
            before = line;
        }
    }
    print_run(entry, bytes, first, last, &before);
}

fn print_run(entry: Entry, bytes: u64, first: u64, last: u64, answer: &Line) {
    let mut line = Line::new();
    put_entry(&mut line, entry);
    put_frame(&mut line, bytes, first);
    if first < last {
        line.put_text(b"..");
        put_frame(&mut line, bytes, last);
    }
    line.put_text(b": ");
    line.put_text(answer.text());
    line.write();
}
