// The line of an entry's answer.
#![tactic(auto)]

use answers::Answer;
use line_output::output::Sink;
use lines::said::{accepted, labelled, refused};
use word_pattern::stayed;

pub fn answer(output: &mut Sink, a: Answer, words: &[u64]) {
    match a {
        Answer::Accepted {
            cut,
            reach,
            marks,
            count,
        } => {
            accepted(output, cut, reach, marks, count);
            // As many records as the words hold.
            for record in words.chunks_exact(5).take(count) {
                put_record(output, record);
            }
            end(output, stayed(words, count));
        }
        Answer::Refused {
            number,
            reach,
            need,
            lacked,
        } => {
            refused(output, number, reach);
            // The need stands behind 7 alone, the bits lacked behind 4.
            match number {
                4 => labelled(output, b" ", lacked as u64),
                7 => labelled(output, b" ", need as u64),
                _ => {}
            }
            end(output, stayed(words, 0));
        }
    }
}

// The four numbers of a record, and where its field began.
fn put_record(output: &mut Sink, record: &[u64]) {
    for (i, &n) in record.iter().enumerate() {
        labelled(output, if i == 0 { b";" } else { b"," }, n);
    }
}

fn end(output: &mut Sink, clean: bool) {
    output.put(if clean { b"\n" } else { b" dirty\n" });
}
