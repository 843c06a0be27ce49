// A case's line: its name, the frame and the answer.
use super::Line;
use super::answer::put_answer;
use answers::Answer;

pub fn print_case(name: &[u8], frame: &[u8], words: &[u64; 160], answer: Answer) {
    let mut line = Line::new();
    line.put_text(name);
    line.put(b' ');
    put_octets(&mut line, frame);
    line.put_text(b": ");
    put_answer(&mut line, words, answer);
    line.write();
}

// Octets in hexadecimal; none is `-`.
pub fn put_octets(line: &mut Line, frame: &[u8]) {
    if frame.is_empty() {
        line.put(b'-');
    }
    for &octet in frame {
        line.put_hex(u64::from(octet), 2);
    }
}
