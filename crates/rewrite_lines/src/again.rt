// A frame read by its entry, and its records written again.
use super::same::same_message;
use answers::Answer;
use entry_cases::case::Case;
use entry_names::Entry;
use fixture_writer::write_message;
use line_output::output::Sink;
use lines::said::labelled;

// The tables of messages that have no elements.
const NO_ELEMENTS: [u8; 1] = [0];

// All the words are lent to the entry.
pub fn heard(output: &mut Sink, case: Case, words: &mut [u64], written: &mut [u8]) {
    match entry_calls::call(
        Some(case.entry),
        case.direction,
        case.down,
        case.up,
        case.frame,
        words,
    ) {
        Answer::Accepted {
            cut: false,
            reach,
            marks: 0,
            count,
        } if count <= words.len() / 5 => message(output, case, reach, &words[..count * 5], written),
        _ => not_clean(output),
    }
}

// A clean message, written as the entry's kind and direction; `apdu` leaves the direction open.
fn message(output: &mut Sink, case: Case, reach: usize, records: &[u64], written: &mut [u8]) {
    let none = &NO_ELEMENTS;
    let w = match case.entry {
        Entry::Apdu => return not_clean(output),
        Entry::Pdus => write_message(
            0,
            case.direction,
            case.down,
            case.up,
            records,
            case.frame,
            written,
        ),
        Entry::Cm => write_message(1, case.direction, none, none, records, case.frame, written),
        Entry::Acse => write_message(2, 0, none, none, records, case.frame, written),
    };
    match w {
        Ok(bits) => {
            let same = same_message(written, bits, case.frame, reach);
            told(output, if same { b"same " } else { b"other " }, bits as u64);
        }
        Err(refusal) => told(output, b"no ", refusal.number()),
    }
}

fn told(output: &mut Sink, label: &[u8], n: u64) {
    labelled(output, label, n);
    output.put(b"\n");
}

fn not_clean(output: &mut Sink) {
    output.put(b"not clean\n");
}
