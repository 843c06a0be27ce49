// A case's line.
use listing::{Line, put_octets};
use message_runs::{Refusal, Starts};

pub fn print(kind: &[u8], run: &[u8], answer: Result<Starts, Refusal>, starts: &[u64]) {
    let mut line = Line::new();
    line.put_text(kind);
    line.put(b' ');
    put_octets(&mut line, run);
    line.put_text(b": ");
    put_answer(&mut line, answer);
    line.put(b';');
    put_numbers(&mut line, starts);
    line.write();
}

fn put_answer(line: &mut Line, answer: Result<Starts, Refusal>) {
    match answer {
        Ok(Starts::All { count }) => put_two(line, b"all ", count as u64, None),
        Ok(Starts::UpTo { count, byte }) => {
            put_two(line, b"up to ", count as u64, Some(byte as u64))
        }
        Err(refusal) => put_two(line, b"no ", refusal.number(), Some(refusal.need() as u64)),
    }
}

// The word, and one number or two.
fn put_two(line: &mut Line, word: &[u8], first: u64, second: Option<u64>) {
    line.put_text(word);
    line.put_decimal(first);
    if let Some(second) = second {
        line.put(b' ');
        line.put_decimal(second);
    }
}

fn put_numbers(line: &mut Line, numbers: &[u64]) {
    for &number in numbers {
        line.put(b' ');
        line.put_decimal(number);
    }
}
